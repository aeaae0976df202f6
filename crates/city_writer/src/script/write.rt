//! Writes scripts as a text.
ghost use Rattle.std.specs.Prelude.{◌≡◌, ◌++◌, IfOk, OnOk};
ghost use Rattle.std.specs.List.{AllByRecursion};
ghost use Rattle.city_writer.specs.report.JsonLines.{IsCompactJson};
ghost use Rattle.city_writer.specs.script.Canonical.{scripts_text, scripts_tree};
ghost use Rattle.city_writer.specs.script.Texts.{AreWritten, IsWritable};
ghost use Rattle.city_writer.specs.tree.Tokens.{tokens_of};

use crate::script::text::write_script;
use city_model::OutOfMemory;
use city_model::script::Script;
use json::Writer;
use std::alloc::Global;

/// Writes scripts as an array.
fn write_scripts(
    alloc: Global,
    seed: u64,
    scripts: &[Script],
    out: &mut Writer,
) -> Result<(), OutOfMemory>
    ensures before { OnOk result (out.new.before ≡ out.old.before) }
    ensures tokens { OnOk result (out.new.tokens ≡ out.old.tokens ++ tokens_of (scripts_tree scripts.now)) }
    ensures writable { OnOk result (AllByRecursion IsWritable scripts.now) }
{
    out.begin_array()?;
    for script in scripts {
        write_script(alloc, seed, script, out)?;
    }
    out.end_array()
}

/// The bytes, and after them the text of scripts, without a newline. Points are hashed by the seed.
pub fn append_scripts(
    alloc: Global,
    seed: u64,
    bytes: Vec<u8>,
    scripts: &[Script],
) -> Result<Vec<u8>, OutOfMemory>
    ensures text { IfOk result (λ b. b.items ≡ bytes.items ++ scripts_text scripts.now) }
    ensures written { IfOk result (λ _. AreWritten (scripts_text scripts.now) scripts.now) }
    ensures json { IfOk result (λ _. IsCompactJson (scripts_text scripts.now)) }
{
    let mut out = Writer::new(bytes);
    write_scripts(alloc, seed, scripts, &mut out)?;
    let bytes = out.into_inner();
    Ok(bytes)
}
