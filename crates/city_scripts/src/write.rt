//! Writes scripts as a text that is read again.
ghost use Rattle.std.specs.Prelude.{◌≡◌, ◌≤◌, IfOk};
ghost use Rattle.serde_json.specs.Data.{depth};
ghost use Rattle.serde_json.specs.Read.{max_depth};
ghost use Rattle.city_tokens.specs.script.Scripts.{IsReadAs};
ghost use Rattle.city_tokens.specs.tree.Texts.{IsReadable};
ghost use Rattle.city_writer.specs.report.JsonLines.{IsCompactJson};
ghost use Rattle.city_writer.specs.script.Canonical.{scripts_text, scripts_tree};
ghost use Rattle.city_scripts.specs.WrittenScripts.{AreFew};

use city_model::OutOfMemory;
use city_model::script::Script;
use city_writer::append_scripts;
use std::alloc::Global;

/// The text of scripts, without a newline. Points are hashed by the seed.
///
/// It is JSON, and is read as the same scripts, unless it is too long, it has more scripts or commands than a text may
/// have, or kept members nest so deep that it has more than the 127 levels of the reader.
#[tactic(auto, using(crate::proofs::WrittenScripts::read_again))]
pub fn write_scripts(alloc: Global, seed: u64, scripts: &[Script]) -> Result<Vec<u8>, OutOfMemory>
    ensures text { IfOk result (λ b. b.items ≡ scripts_text scripts.now) }
    ensures read_again { IfOk result (λ b. AreFew scripts.now → IsReadable b.items
        → depth (scripts_tree scripts.now) ≤ max_depth → IsReadAs b.items scripts.now) }
    ensures json { IfOk result (λ b. IsCompactJson b.items) }
{
    let text = append_scripts(alloc, seed, Vec::new(alloc), scripts)?;
    Ok(text)
}
