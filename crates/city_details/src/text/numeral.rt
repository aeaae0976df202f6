//! A number as written in a text.
ghost use Rattle.std.specs.Prelude.{◌<◌, length, OnOk};

use crate::path::Step;
use city_model::OutOfMemory;
use json::{Invalid, MAX_DEPTH, Reader, Scratch, Token};
use std::alloc::Global;
use std::str;

/// Returns the number at the end of a path, as written in the text. Among members with one name the last counts.
///
/// The text is read once, token by token.
pub fn numeral_at(
    alloc: Global,
    text: &[u8],
    steps: &[Step<'_>],
) -> Result<Option<String>, OutOfMemory> {
    let Ok(text) = str::from_utf8(text) else {
        return Ok(None);
    };
    let mut scratch = Scratch::new(alloc);
    let mut reader = Reader::new(text, &mut scratch)?;
    match in_value(&mut reader, steps) {
        Ok(Some(numeral)) => Ok(Some(numeral.to_string(alloc)?)),
        Ok(None) => Ok(None),
        Err(Invalid) => Ok(None),
    }
}

/// Passes a value, and returns the number in it at the end of these steps.
#[cycle(numeral)]
fn in_value<'t>(reader: &mut Reader<'t>, steps: &[Step<'_>]) -> Result<Option<&'t str>, Invalid>
    ensures shorter { OnOk result (length reader.new < length reader.old) }
{
    match reader.next().ok_or(Invalid)? {
        Token::Number(numeral) if steps.is_empty() => Ok(Some(numeral)),
        Token::BeginObject => in_object(reader, steps),
        Token::BeginArray => in_array(reader, steps),
        _ => Ok(None),
    }
}

/// The same, in an object behind its brace.
#[cycle(numeral)]
fn in_object<'t>(reader: &mut Reader<'t>, steps: &[Step<'_>]) -> Result<Option<&'t str>, Invalid>
    ensures shorter { OnOk result (length reader.new < length reader.old) }
{
    let mut found = None;
    'members: while let Some(key) = reader.next_key()? {
        match steps.split_first() {
            Some((Step::Member(name), rest)) if *name == key => found = in_value(reader, rest)?,
            _ => reader.skip_value(MAX_DEPTH)?,
        }
    }
    Ok(found)
}

/// The same, in an array behind its bracket.
#[cycle(numeral)]
fn in_array<'t>(reader: &mut Reader<'t>, steps: &[Step<'_>]) -> Result<Option<&'t str>, Invalid>
    ensures shorter { OnOk result (length reader.new < length reader.old) }
{
    let mut found = None;
    let mut number = 0usize;
    'items: while !reader.take_end_array() {
        match steps.split_first() {
            Some((Step::Item(place), rest)) if *place == number => found = in_value(reader, rest)?,
            _ => reader.skip_value(MAX_DEPTH)?,
        }
        number = number.saturating_add(1);
    }
    Ok(found)
}
