//! A line of a journal, read.
ghost use Rattle.std.specs.Prelude.{◌≡◌, ◌^◌, ◌<◌, ◌≤◌, ◌+◌, ◌++◌, ◌∷◌, [], ℕ, List, Bool, Option, codes, length};
ghost use Rattle.std.specs.Prelude.{option_copied, option_map, true, IfOk, IfSome, IsSomeAnd};
ghost use Rattle.json.specs.Print.{quoted};
ghost use Rattle.city_journal.specs.LineTexts.{Begins, base_text, before_sum, behind_sum, bool_text, commit_text};
ghost use Rattle.city_journal.specs.LineTexts.{key_member, key_text, saved_text, script_member, version_end};
ghost use Rattle.city_journal.specs.Said.{Fits, Said, SaysSame, said_text};
ghost use Rattle.city_journal.specs.Sums.{IsSum, hex_text, sum_text};

use crate::line_parts::{before, behind, number_at_end, string_at_start};
use crate::line_sum::{self, push_sum};
use crate::model_sum::{self, ModelSum};
use city_model::OutOfMemory;
use std::alloc::Global;

/// What a journal is over.
#[derive(Clone, Copy, Drop)]
pub(crate) struct Base {
    /// The sum of the model's text.
    pub sum: ModelSum,
    /// Whether its numbers are of any form.
    pub decimals: bool,
    /// How many commits wrote before.
    pub version: u64,
}

/// A commit as its line has it. Texts stand as JSON.
#[derive(Clone, Copy, Drop)]
pub(crate) struct CommitLine<'a> {
    pub key: Option<&'a [u8]>,
    pub script: &'a [u8],
    pub version: u64,
}

/// A key of a commit that was made before the journal began. Texts stand as JSON.
#[derive(Clone, Copy, Drop)]
pub(crate) struct KeyLine<'a> {
    pub key: &'a [u8],
    pub name: &'a [u8],
    pub version: u64,
}

/// A line of a journal.
#[derive(Clone, Copy, Drop)]
pub(crate) enum Line<'a> {
    Base(Base),
    /// The model with this sum was about to be put into place.
    Saved(ModelSum),
    Key(KeyLine<'a>),
    Commit(CommitLine<'a>),
}

impl<'a> Line<'a> {
    /// The line of these bytes, which have no newline, if they are one, and if it is a commit's, with its sum.
    pub fn of(alloc: Global, line: &'a [u8]) -> Result<Option<Line<'a>>, OutOfMemory>
        ensures written { (s : Said) → Fits s → line.now ≡ said_text s
            → IfOk result (λ o. IsSomeAnd o (λ l. SaysSame l s)) }
    {
        if let Some(commit) = commit_of(alloc, line)? {
            return Ok(Some(Line::Commit(commit)));
        }
        if let Some(key) = key_of(line) {
            return Ok(Some(Line::Key(key)));
        }
        if let Some(sum) = saved_of(line) {
            return Ok(Some(Line::Saved(sum)));
        }
        match base_of(line) {
            Some(base) => Ok(Some(Line::Base(base))),
            None => Ok(None),
        }
    }
}

/// What the first line of a journal says.
pub(crate) fn base_of(line: &[u8]) -> Option<Base>
    ensures found { IfSome result (λ b. line.now ≡ base_text b.sum.bytes b.decimals b.version) }
    ensures written { (sum : List ℕ) (decimals : Bool) (version : ℕ) → IsSum sum → version < 2 ^ 64
        → line.now ≡ base_text sum decimals version
        → IsSomeAnd result (λ b. (b.sum.bytes ≡ sum) × (b.decimals ≡ decimals) × (b.version ≡ version)) }
{
    let (sum, rest) = sum_at_start(behind(line, b"{\"base\":\"")?)?;
    let rest = behind(rest, b"\",\"cityed\":1,\"decimals\":")?;
    let (rest, version) = version_at_end(rest)?;
    let decimals = bool_of(rest)?;
    Some(Base {
        sum,
        decimals,
        version,
    })
}

/// The truth value of this text.
fn bool_of(text: &[u8]) -> Option<bool>
    ensures found { IfSome result (λ b. text.now ≡ bool_text b) }
    ensures written { (b : Bool) → text.now ≡ bool_text b → IsSomeAnd result (λ r. r ≡ b) }
{
    match text {
        b"true" => Some(true),
        b"false" => Some(false),
        _ => None,
    }
}

/// The sum in a line that says that a model is about to be put into place.
fn saved_of(line: &[u8]) -> Option<ModelSum>
    ensures found { IfSome result (λ s. line.now ≡ saved_text s.bytes) }
    ensures written { (sum : List ℕ) → IsSum sum → line.now ≡ saved_text sum
        → IsSomeAnd result (λ s. s.bytes ≡ sum) }
{
    let (sum, rest) = sum_at_start(behind(line, b"{\"saved\":\"")?)?;
    match rest {
        b"\"}" => Some(sum),
        _ => None,
    }
}

/// The sum whose digits stand at the begin, and what is behind them.
fn sum_at_start(bytes: &[u8]) -> Option<(ModelSum, &[u8])>
    ensures found { IfSome result (λ p. bytes.now ≡ hex_text p.0.bytes ++ p.1.now) }
    ensures written { (sum rest : List ℕ) → IsSum sum → bytes.now ≡ hex_text sum ++ rest
        → IsSomeAnd result (λ p. (p.0.bytes ≡ sum) × (p.1.now ≡ rest)) }
{
    if bytes.len() < model_sum::DIGITS {
        return None;
    }
    let sum = ModelSum::from_digits(&bytes[..model_sum::DIGITS])?;
    Some((sum, &bytes[model_sum::DIGITS..]))
}

/// What is before the version at the end of a line's object, and that version.
fn version_at_end(bytes: &[u8]) -> Option<(&[u8], u64)>
    ensures found { IfSome result (λ p. bytes.now ≡ p.0.now ++ version_end p.1) }
    ensures written { (front : List ℕ) (version : ℕ) → version < 2 ^ 64 → bytes.now ≡ front ++ version_end version
        → IsSomeAnd result (λ p. (p.0.now ≡ front) × (p.1 ≡ version)) }
{
    let (rest, version) = number_at_end(before(bytes, b"}")?)?;
    let rest = before(rest, b",\"version\":")?;
    Some((rest, version))
}

/// The key in a line that says which commit had it.
fn key_of(line: &[u8]) -> Option<KeyLine<'_>>
    ensures found { IfSome result (λ k. line.now ≡ codes "{\"key\":" ++ (k.key.now ++ (codes ",\"name\":"
        ++ (k.name.now ++ version_end k.version)))) }
    ensures written { (key name : List ℕ) (version : ℕ) → version < 2 ^ 64 → line.now ≡ key_text key name version
        → IsSomeAnd result (λ k. (k.key.now ≡ quoted key) × (k.name.now ≡ quoted name) × (k.version ≡ version)) }
{
    let (key, rest) = string_at_start(behind(line, b"{\"key\":")?)?;
    let (name, rest) = string_at_start(behind(rest, b",\"name\":")?)?;
    let (rest, version) = version_at_end(rest)?;
    if !rest.is_empty() {
        return None;
    }
    Some(KeyLine { key, name, version })
}

/// The commit of a line with the right sum.
fn commit_of(alloc: Global, line: &[u8]) -> Result<Option<CommitLine<'_>>, OutOfMemory>
    ensures begins { IfOk result (λ o. IfSome o (λ c. Begins (codes "{\"by\":") line.now)) }
    ensures written { (by : List ℕ) (key : Option (List ℕ)) (script : List ℕ) (time version : ℕ) → time < 2 ^ 64
        → version < 2 ^ 64 → line.now ≡ commit_text by key script time version
        → IfOk result (λ o. IsSomeAnd o (λ c. (option_copied c.key ≡ option_map quoted key)
        × (c.script.now ≡ script) × (c.version ≡ version))) }
{
    let Some((at, version)) = place_of_sum(line) else {
        return Ok(None);
    };
    if !has_sum(alloc, line, at)? {
        return Ok(None);
    }
    Ok(commit_before(&line[..at], version))
}

/// Whether the digits at this place of a line are the sum of what is before them and behind.
fn has_sum(alloc: Global, line: &[u8], at: usize) -> Result<bool, OutOfMemory>
    requires { at + 16 ≤ length line.now }
    ensures { (before behind : List ℕ) → line.now ≡ before ++ (sum_text before behind ++ behind) → at ≡ length before
        → IfOk result (λ r. r ≡ true) }
{
    let mut digits = Vec::new(alloc);
    push_sum(&mut digits, &line[..at], &line[at + line_sum::DIGITS..])?;
    Ok(digits.as_slice() == &line[at..at + line_sum::DIGITS])
}

/// Where the digits of the sum begin in a commit's line, and the line's version.
fn place_of_sum(line: &[u8]) -> Option<(usize, u64)>
    ensures within { IfSome result (λ r. r.0 + 16 ≤ length line.now) }
    ensures written { (before digits : List ℕ) (time version : ℕ) → length digits ≡ 16 → time < 2 ^ 64
        → version < 2 ^ 64 → line.now ≡ before ++ (digits ++ behind_sum time version)
        → IsSomeAnd result (λ r. (r.0 ≡ length before) × (r.1 ≡ version)) }
{
    let (rest, version) = version_at_end(line)?;
    let (rest, _time) = number_at_end(rest)?;
    let rest = before(rest, b"\",\"time\":")?;
    if rest.len() < line_sum::DIGITS {
        return None;
    }
    Some((rest.len() - line_sum::DIGITS, version))
}

/// The commit of what stands in its line before the sum.
fn commit_before(bytes: &[u8], version: u64) -> Option<CommitLine<'_>>
    ensures begins { IfSome result (λ c. Begins (codes "{\"by\":") bytes.now) }
    ensures written { (by : List ℕ) (key : Option (List ℕ)) (script : List ℕ)
        → bytes.now ≡ before_sum by key script
        → IsSomeAnd result (λ c. (option_copied c.key ≡ option_map quoted key)
        × (c.script.now ≡ script) × (c.version ≡ version)) }
{
    let rest = before(bytes, b",\"sum\":\"")?;
    let (_by, rest) = string_at_start(behind(rest, b"{\"by\":")?)?;
    let (key, rest) = key_at_start(rest)?;
    let script = behind(rest, b",\"script\":")?;
    Some(CommitLine {
        key,
        script,
        version,
    })
}

/// The key in the member at the begin, if there is one, and what is behind it.
fn key_at_start(bytes: &[u8]) -> Option<(Option<&[u8]>, &[u8])>
    ensures written { (key : Option (List ℕ)) (script : List ℕ) → bytes.now ≡ key_member key ++ script_member script
        → IsSomeAnd result (λ p. (option_copied p.0 ≡ option_map quoted key) × (p.1.now ≡ script_member script)) }
{
    match behind(bytes, b",\"key\":") {
        Some(rest) => {
            let (key, rest) = string_at_start(rest)?;
            Some((Some(key), rest))
        }
        None => Some((None, bytes)),
    }
}
