//! What is told of saves, of keys, and at the start.
ghost use Rattle.std.specs.Prelude.{◌≡◌, ◌++◌, IfOk, OnOk, Some, None, codes};
ghost use Rattle.serde_json.specs.Data.{string, member};
ghost use Rattle.city_writer.specs.report.Ends.{count_data};
ghost use Rattle.city_writer.specs.internal.tree.PartTokens.{tokens_of_members};
ghost use Rattle.city_lines.specs.Answers.{line_text};
ghost use Rattle.city_lines.specs.Told.{one, made_data, committed_data};

use crate::front::{begun, ended, write_number, write_text};
use city_live::Tag;
use city_model::OutOfMemory;
use json::Writer;

/// The bytes, and behind them: the output has the model of this version.
pub fn append_saved(
    hand: &str,
    tag: &Tag,
    version: u64,
    bytes: Vec<u8>,
) -> Result<Vec<u8>, OutOfMemory>
    ensures { IfOk result (λ b. b.items ≡ bytes.items
        ++ line_text (Some hand.now) tag.now (tokens_of_members (one (codes "saved") (count_data version)))) }
{
    let mut out = begun(Some(hand), tag, bytes)?;
    write_number("saved", version, &mut out)?;
    let line = ended(out)?;
    Ok(line)
}

/// The bytes, and behind them: the version that a commit with a key made, or that none was made.
pub fn append_made(
    hand: &str,
    tag: &Tag,
    version: Option<u64>,
    bytes: Vec<u8>,
) -> Result<Vec<u8>, OutOfMemory>
    ensures { IfOk result (λ b. b.items ≡ bytes.items
        ++ line_text (Some hand.now) tag.now (tokens_of_members (one (codes "made") (made_data version)))) }
{
    let mut out = begun(Some(hand), tag, bytes)?;
    write_made(version, &mut out)?;
    let line = ended(out)?;
    Ok(line)
}

/// Writes the version of a commit, or that there is none.
fn write_made(version: Option<u64>, out: &mut Writer) -> Result<(), OutOfMemory>
    ensures before { OnOk result (out.new.before ≡ out.old.before) }
    ensures tokens { OnOk result (out.new.tokens
        ≡ out.old.tokens ++ tokens_of_members (one (codes "made") (made_data version))) }
{
    out.key("made")?;
    match version {
        Some(version) => out.u64(version),
        None => out.null(),
    }
}

/// The bytes, and behind them the end of a commit that is known by its key alone.
pub fn append_ended(
    hand: &str,
    tag: &Tag,
    name: &str,
    version: u64,
    bytes: Vec<u8>,
) -> Result<Vec<u8>, OutOfMemory>
    ensures { IfOk result (λ b. b.items ≡ bytes.items
        ++ line_text (Some hand.now) tag.now (tokens_of_members (one (codes "ended")
        (committed_data name.now version)))) }
{
    let mut out = begun(Some(hand), tag, bytes)?;
    write_committed(name, version, &mut out)?;
    let line = ended(out)?;
    Ok(line)
}

/// Writes the end of a commit.
fn write_committed(name: &str, version: u64, out: &mut Writer) -> Result<(), OutOfMemory>
    ensures before { OnOk result (out.new.before ≡ out.old.before) }
    ensures tokens { OnOk result (out.new.tokens
        ≡ out.old.tokens ++ tokens_of_members (one (codes "ended") (committed_data name.now version))) }
{
    out.key("ended")?;
    out.begin_object()?;
    write_text("name", name, out)?;
    write_text("outcome", "committed", out)?;
    write_number("version", version, out)?;
    out.end_object()
}

/// The bytes, and behind them the first line: the program is ready, with a model of so many objects.
pub fn append_ready(
    program: &str,
    objects: u64,
    version: u64,
    bytes: Vec<u8>,
) -> Result<Vec<u8>, OutOfMemory>
    ensures { IfOk result (λ b. b.items ≡ bytes.items
        ++ line_text None None (tokens_of_members (member (codes "cityed") (string program.now)
        (member (codes "objects") (count_data objects) (one (codes "version") (count_data version)))))) }
{
    let mut out = begun(None, &None, bytes)?;
    write_ready(program, objects, version, &mut out)?;
    let line = ended(out)?;
    Ok(line)
}

/// Writes the program's version, the number of objects, and the model's version.
fn write_ready(
    program: &str,
    objects: u64,
    version: u64,
    out: &mut Writer,
) -> Result<(), OutOfMemory>
    ensures before { OnOk result (out.new.before ≡ out.old.before) }
    ensures tokens { OnOk result (out.new.tokens ≡ out.old.tokens
        ++ tokens_of_members (member (codes "cityed") (string program.now)
        (member (codes "objects") (count_data objects) (one (codes "version") (count_data version))))) }
{
    write_text("cityed", program, out)?;
    write_number("objects", objects, out)?;
    write_number("version", version, out)
}
