//! Errors as lines.
ghost use Rattle.std.specs.Prelude.{◌≡◌, ◌++◌, ◌∷◌, List, IfOk, OnOk, codes};
ghost use Rattle.std.specs.Prelude.{option_map};
ghost use Rattle.json.specs.Print.{IsPrintableOrBad};
ghost use Rattle.json.specs.Reads.{token_of};
ghost use Rattle.json.specs.Token.{Token as JsonToken, key};
ghost use Rattle.serde_json.specs.Data.{object, string, member};
ghost use Rattle.city_writer.specs.report.Ends.{count_data};
ghost use Rattle.city_writer.specs.internal.tree.PartTokens.{tokens_of_members};
ghost use Rattle.city_lines.specs.Answers.{line_text};
ghost use Rattle.city_lines.specs.Told.{one, fault_words, words_members};
ghost use Rattle.city_lines.specs.Errors.{TellsMore, TellsError};

use crate::fault::{LineError, LineFault};
use crate::front::{begun, ended, write_number, write_text};
use crate::words::{Words, engine_words, words_of};
use city_live::Fault;
use city_model::OutOfMemory;
use json::{Reader, Scratch, Token, Writer};
use simdutf8::compat::from_utf8;
use std::alloc::Global;

/// How deep the members of a told fault nest at most.
const DEPTH: usize = 127;

/// The bytes, and behind them the error of this line of the input, counted from 1.
pub fn append_error(
    alloc: Global,
    line: u64,
    error: &LineError,
    bytes: Vec<u8>,
) -> Result<Vec<u8>, OutOfMemory>
    ensures { IfOk result (λ b. (told : List JsonToken)
        × (b.items ≡ bytes.items ++ line_text error.now.hand error.now.tag (key (codes "error") ∷ told))) }
{
    let mut out = begun(hand_of(error), &error.tag, bytes)?;
    write_fault(alloc, line, &error.fault, &mut out)?;
    let written = ended(out)?;
    Ok(written)
}

/// The hand of a line that isn't done.
fn hand_of(error: &LineError) -> Option<&str>
    ensures { option_map (λ h. h.now) result ≡ error.now.hand }
{
    match &error.hand {
        Some(hand) => Some(hand.as_str()),
        None => None,
    }
}

/// Writes a request that the engine doesn't do.
pub fn write_engine_fault(line: u64, fault: Fault, out: &mut Writer) -> Result<(), OutOfMemory>
    ensures before { OnOk result (out.new.before ≡ out.old.before) }
    ensures tokens { OnOk result (out.new.tokens
        ≡ out.old.tokens ++ tokens_of_members (one (codes "error") (object (words_members line (fault_words fault))))) }
{
    out.key("error")?;
    out.begin_object()?;
    write_words(line, engine_words(fault), out)?;
    out.end_object()?;
    Ok(())
}

/// Writes a fault of a line.
#[tactic(auto, using(crate::proofs::More::error_then, crate::proofs::More::more_by, crate::proofs::More::more_then))]
fn write_fault(
    alloc: Global,
    line: u64,
    fault: &LineFault,
    out: &mut Writer,
) -> Result<(), OutOfMemory>
    ensures before { OnOk result (out.new.before ≡ out.old.before) }
    ensures told { OnOk result (TellsError out.old.tokens out.new.tokens) }
{
    out.key("error")?;
    out.begin_object()?;
    write_inside(alloc, line, fault, out)?;
    out.end_object()?;
    Ok(())
}

/// Writes the members of an error.
#[tactic(auto, using(crate::proofs::More::none_more, crate::proofs::More::more_by, crate::proofs::More::more_then))]
fn write_inside(
    alloc: Global,
    line: u64,
    fault: &LineFault,
    out: &mut Writer,
) -> Result<(), OutOfMemory>
    ensures before { OnOk result (out.new.before ≡ out.old.before) }
    ensures told { OnOk result (TellsMore out.old.tokens out.new.tokens) }
{
    match fault {
        LineFault::Refused(told) => write_refused(alloc, line, told.as_slice(), out)?,
        LineFault::NotJson(column) => write_not_json(line, *column as u64, words_of(fault), out)?,
        LineFault::BadMember(name, _) => write_bad(line, name.as_str(), words_of(fault), out)?,
        _ => write_words(line, words_of(fault), out)?,
    }
    Ok(())
}

/// Writes where a line ceases to be JSON, and the words.
fn write_not_json(line: u64, column: u64, words: Words, out: &mut Writer) -> Result<(), OutOfMemory>
    ensures before { OnOk result (out.new.before ≡ out.old.before) }
    ensures tokens { OnOk result (out.new.tokens ≡ out.old.tokens ++ tokens_of_members
        (member (codes "at") (object (one (codes "column") (count_data column)))
        (words_members line (words.name.now, (words.message.now, words.number))))) }
{
    out.key("at")?;
    out.begin_object()?;
    write_number("column", column, out)?;
    out.end_object()?;
    write_words(line, words, out)
}

/// Writes which member is wrong, and the words.
fn write_bad(line: u64, name: &str, words: Words, out: &mut Writer) -> Result<(), OutOfMemory>
    ensures before { OnOk result (out.new.before ≡ out.old.before) }
    ensures tokens { OnOk result (out.new.tokens ≡ out.old.tokens ++ tokens_of_members
        (member (codes "at") (object (one (codes "member") (string name.now)))
        (words_members line (words.name.now, (words.message.now, words.number))))) }
{
    out.key("at")?;
    out.begin_object()?;
    write_text("member", name, out)?;
    out.end_object()?;
    write_words(line, words, out)
}

/// Writes the members that each error has.
fn write_words(line: u64, words: Words, out: &mut Writer) -> Result<(), OutOfMemory>
    ensures before { OnOk result (out.new.before ≡ out.old.before) }
    ensures tokens { OnOk result (out.new.tokens
        ≡ out.old.tokens ++ tokens_of_members
        (words_members line (words.name.now, (words.message.now, words.number)))) }
{
    write_text("fault", words.name, out)?;
    write_number("line", line, out)?;
    write_text("message", words.message, out)?;
    write_number("number", words.number, out)
}

/// Writes what `check_scripts` tells of a refused script: its number, fault and message; all else is where.
#[tactic(auto, using(crate::proofs::More::none_more, crate::proofs::More::more_by, crate::proofs::More::more_then))]
fn write_refused(alloc: Global, line: u64, told: &[u8], out: &mut Writer) -> Result<(), OutOfMemory>
    ensures before { OnOk result (out.new.before ≡ out.old.before) }
    ensures told { OnOk result (TellsMore out.old.tokens out.new.tokens) }
{
    let Ok(text) = from_utf8(told) else {
        return Ok(());
    };
    let mut scratch = Scratch::new(alloc);
    write_place(text, &mut scratch, out)?;
    write_told("fault", text, &mut scratch, out)?;
    write_number("line", line, out)?;
    write_told("message", text, &mut scratch, out)?;
    write_told("number", text, &mut scratch, out)
}

/// Writes the member of this name of an object.
#[tactic(auto, using(crate::proofs::More::none_more, crate::proofs::More::more_by, crate::proofs::More::more_then))]
fn write_told(
    name: &str,
    text: &str,
    scratch: &mut Scratch,
    out: &mut Writer,
) -> Result<(), OutOfMemory>
    ensures before { OnOk result (out.new.before ≡ out.old.before) }
    ensures told { OnOk result (TellsMore out.old.tokens out.new.tokens) }
{
    let mut reader = Reader::new(text, scratch)?;
    let _ = reader.next();
    for _ in 0..=text.len() {
        let Ok(Some(key)) = reader.next_key() else {
            return Ok(());
        };
        if key == name {
            out.key(name)?;
            return write_value(text.len(), &mut reader, out);
        }
        let _ = reader.skip_value(DEPTH);
    }
    Ok(())
}

/// Writes the members of an object that say where a fault is.
#[tactic(auto, using(crate::proofs::More::none_more, crate::proofs::More::more_by, crate::proofs::More::more_then))]
fn write_place(text: &str, scratch: &mut Scratch, out: &mut Writer) -> Result<(), OutOfMemory>
    ensures before { OnOk result (out.new.before ≡ out.old.before) }
    ensures told { OnOk result (TellsMore out.old.tokens out.new.tokens) }
{
    let mut reader = Reader::new(text, scratch)?;
    let _ = reader.next();
    out.key("at")?;
    out.begin_object()?;
    write_places(text.len(), &mut reader, out)?;
    out.end_object()
}

/// Writes those of the next members, at most so many, that say where a fault is.
#[tactic(auto, using(crate::proofs::More::none_more, crate::proofs::More::more_by, crate::proofs::More::more_then))]
fn write_places(most: usize, reader: &mut Reader<'_>, out: &mut Writer) -> Result<(), OutOfMemory>
    ensures before { OnOk result (out.new.before ≡ out.old.before) }
    ensures told { OnOk result (TellsMore out.old.tokens out.new.tokens) }
{
    for _ in 0..most {
        let Ok(Some(key)) = reader.next_key() else {
            return Ok(());
        };
        if says_where(key) {
            out.key(key)?;
            write_value(most, reader, out)?;
        } else {
            let _ = reader.skip_value(DEPTH);
        }
    }
    Ok(())
}

/// Writes the next value, of at most so many tokens.
#[tactic(auto, using(crate::proofs::More::none_more, crate::proofs::More::more_by, crate::proofs::More::more_then))]
fn write_value(most: usize, reader: &mut Reader<'_>, out: &mut Writer) -> Result<(), OutOfMemory>
    ensures before { OnOk result (out.new.before ≡ out.old.before) }
    ensures told { OnOk result (TellsMore out.old.tokens out.new.tokens) }
{
    let mut depth: usize = 0;
    for _ in 0..most {
        let Some(token) = reader.next() else {
            return Ok(());
        };
        write_token(token, out)?;
        match token {
            Token::BeginObject | Token::BeginArray => depth = depth.saturating_add(1),
            Token::EndObject | Token::EndArray => depth = depth.saturating_sub(1),
            _ => {}
        }
        if depth == 0 {
            return Ok(());
        }
    }
    Ok(())
}

/// Writes a token that was read.
#[tactic(auto, using(crate::proofs::More::none_more, crate::proofs::More::more_by, crate::proofs::More::more_then))]
fn write_token(token: Token<'_>, out: &mut Writer) -> Result<(), OutOfMemory>
    requires { IsPrintableOrBad (token_of token) }
    ensures before { OnOk result (out.new.before ≡ out.old.before) }
    ensures told { OnOk result (TellsMore out.old.tokens out.new.tokens) }
{
    match token {
        Token::BeginObject => out.begin_object(),
        Token::EndObject => out.end_object(),
        Token::BeginArray => out.begin_array(),
        Token::EndArray => out.end_array(),
        Token::Key(name) => out.key(name),
        Token::String(text) => out.string(text),
        Token::Number(text) => out.number(text),
        Token::Bool(truth) => out.boolean(truth),
        Token::Null => out.null(),
        Token::Bad => Ok(()),
    }
}

/// Whether a member says where a fault is, and what is there.
fn says_where(name: &str) -> bool {
    !matches!(name, "cure" | "fault" | "message" | "number" | "text")
}
