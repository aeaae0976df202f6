//! The lines of a journal, written.
ghost use Rattle.std.specs.Prelude.{◌≡◌, ◌^◌, ◌<◌, ◌++◌, ◌∷◌, [], codes, option_copied, true, IfOk, OnOk};
ghost use Rattle.json.specs.Print.{quoted};
ghost use Rattle.city_journal.specs.Entries.{IsCommitLine};
ghost use Rattle.city_journal.specs.LineTexts.{base_text, bool_text, commit_text, key_member, key_text, saved_text};
ghost use Rattle.city_journal.specs.LineTexts.{version_end};
ghost use Rattle.city_journal.specs.Names.{KeyFits};
ghost use Rattle.city_journal.specs.Sums.{IsSum};

use crate::keys::Keys;
use crate::line_parts::name_of;
use crate::line_sum::{push_hex, push_sum};
use crate::model_sum::ModelSum;
use crate::script_text::script_text;
use city_live::{Entry, Unwritten};
use city_members::text::Text;
use city_model::OutOfMemory;
use json::Writer;
use std::alloc::Global;

/// The bytes, and behind them the first lines of a journal: what it is over, and the keys of the commits before.
pub fn append_beginning(
    alloc: Global,
    bytes: Vec<u8>,
    sum: &ModelSum,
    decimals: bool,
    version: u64,
    keys: &Keys,
) -> Result<Vec<u8>, OutOfMemory> {
    let mut out = base_line(alloc, bytes, sum, decimals, version)?;
    for (key, made) in keys.each()? {
        out = key_line(alloc, out, key, &made.name, made.version)?;
    }
    Ok(out)
}

/// The bytes, and behind them the line that says what a journal is over.
fn base_line(
    alloc: Global,
    bytes: Vec<u8>,
    sum: &ModelSum,
    decimals: bool,
    version: u64,
) -> Result<Vec<u8>, OutOfMemory>
    ensures { IfOk result (λ out. out.items
        ≡ bytes.items ++ (base_text sum.now.bytes decimals version ++ 10 ∷ [])) }
{
    let mut out = bytes;
    out.extend_from_slice(b"{\"base\":\"")?;
    sum.push_to(&mut out)?;
    out.extend_from_slice(b"\",\"cityed\":1,\"decimals\":")?;
    push_bool(&mut out, decimals)?;
    push_version(alloc, &mut out, version)?;
    out.push(b'\n')?;
    Ok(out)
}

/// Appends a truth value.
fn push_bool(out: &mut Vec<u8>, value: bool) -> Result<(), OutOfMemory>
    ensures { OnOk result (out.new.items ≡ out.old.items ++ bool_text value) }
{
    if value {
        out.extend_from_slice(b"true")?;
    } else {
        out.extend_from_slice(b"false")?;
    }
    Ok(())
}

/// Appends a version, and the end of an object.
fn push_version(alloc: Global, out: &mut Vec<u8>, version: u64) -> Result<(), OutOfMemory>
    ensures { OnOk result (out.new.items ≡ out.old.items ++ version_end version) }
{
    let rest = format!(in alloc; ",\"version\":{version}}}")?;
    out.extend_from_slice(rest.as_bytes())?;
    Ok(())
}

/// The bytes, and behind them a text as a JSON string.
#[tactic(auto, using(crate::proofs::Written::print_string))]
fn with_string(bytes: Vec<u8>, text: &Text) -> Result<Vec<u8>, OutOfMemory>
    ensures { IfOk result (λ out. out.items ≡ bytes.items ++ quoted text.now) }
{
    let mut out = Writer::new(bytes);
    out.string(text.as_str())?;
    Ok(out.into_inner())
}

/// The bytes, and behind them the line of a key.
fn key_line(
    alloc: Global,
    bytes: Vec<u8>,
    key: &Text,
    name: &Text,
    version: u64,
) -> Result<Vec<u8>, OutOfMemory>
    ensures { IfOk result (λ out. out.items ≡ bytes.items ++ (key_text key.now name.now version ++ 10 ∷ [])) }
{
    let mut out = bytes;
    out.extend_from_slice(b"{\"key\":")?;
    let mut named = with_string(out, key)?;
    named.extend_from_slice(b",\"name\":")?;
    let mut whole = with_string(named, name)?;
    push_version(alloc, &mut whole, version)?;
    whole.push(b'\n')?;
    Ok(whole)
}

/// The line that says that the model with this sum is about to be put into place, without its newline.
pub(crate) fn saved_line(alloc: Global, sum: &ModelSum) -> Result<Vec<u8>, OutOfMemory>
    ensures text { IfOk result (λ line. line.items ≡ saved_text sum.now.bytes) }
    ensures sum { IfOk result (λ _. IsSum sum.now.bytes) }
{
    let bytes = sum.to_vec(alloc)?;
    let mut out = Vec::new(alloc);
    out.extend_from_slice(b"{\"saved\":\"")?;
    push_hex(&mut out, bytes.as_slice())?;
    out.extend_from_slice(b"\"}")?;
    Ok(out)
}

/// The line of a commit, without its newline: with a key if it has one, at a time, so many seconds since 1970.
pub(crate) fn commit_line(
    alloc: Global,
    seed: u64,
    decimals: bool,
    entry: &Entry<'_>,
    key: Option<&Text>,
    time: u64,
) -> Result<Vec<u8>, Unwritten>
    ensures { IfOk result (λ line. IsCommitLine decimals entry.now line.items) }
{
    let script = script_text(alloc, seed, decimals, entry)?;
    if !fits_key(alloc, key, script.as_slice())? {
        return Err(Unwritten::CannotWrite);
    }
    match line_around(alloc, entry, key, script.as_slice(), time) {
        Ok(line) => Ok(line),
        Err(OutOfMemory) => Err(Unwritten::OutOfMemory),
    }
}

/// Whether a script's name is found again, as its key wants it, if there is one.
fn fits_key(alloc: Global, key: Option<&Text>, script: &[u8]) -> Result<bool, Unwritten>
    ensures { IfOk result (λ r. r ≡ true → KeyFits (option_copied key.entry) script.now) }
{
    let Some(key) = key else {
        return Ok(true);
    };
    let _text = key.as_str();
    match name_of(alloc, script) {
        Ok(name) => Ok(name.is_some()),
        Err(OutOfMemory) => Err(Unwritten::OutOfMemory),
    }
}

/// The line of a commit around the text of its script.
fn line_around(
    alloc: Global,
    entry: &Entry<'_>,
    key: Option<&Text>,
    script: &[u8],
    time: u64,
) -> Result<Vec<u8>, OutOfMemory>
    ensures text { IfOk result (λ line. line.items
        ≡ commit_text entry.now.by.now (option_copied key.entry) script.now time entry.now.version) }
    ensures fits { IfOk result (λ _. (time < 2 ^ 64) × (entry.now.version < 2 ^ 64)) }
{
    let mut line = before_script(alloc, entry.by, key)?;
    line.extend_from_slice(b",\"script\":")?;
    line.extend_from_slice(script)?;
    line.extend_from_slice(b",\"sum\":\"")?;
    let version = entry.version;
    let behind = format!(in alloc; "\",\"time\":{time},\"version\":{version}}}")?;
    let mut digits = Vec::new(alloc);
    push_sum(&mut digits, line.as_slice(), behind.as_bytes())?;
    line.extend_from_slice(digits.as_slice())?;
    line.extend_from_slice(behind.as_bytes())?;
    Ok(line)
}

/// What stands in a commit's line before its script: its hand, and its key if it has one.
fn before_script(alloc: Global, by: &Text, key: Option<&Text>) -> Result<Vec<u8>, OutOfMemory>
    ensures { IfOk result (λ out. out.items
        ≡ codes "{\"by\":" ++ (quoted by.now ++ key_member (option_copied key.entry))) }
{
    let mut out = Vec::new(alloc);
    out.extend_from_slice(b"{\"by\":")?;
    let begun = with_string(out, by)?;
    match key {
        Some(key) => with_key(begun, key),
        None => Ok(begun),
    }
}

/// The bytes, and behind them the member of a commit's key.
fn with_key(bytes: Vec<u8>, key: &Text) -> Result<Vec<u8>, OutOfMemory>
    ensures { IfOk result (λ out. out.items ≡ bytes.items ++ key_member (Some key.now)) }
{
    let mut out = bytes;
    out.extend_from_slice(b",\"key\":")?;
    with_string(out, key)
}
