//! How values are shown in messages.
use city_members::kept::kept_value::KeptValue;
use city_model::OutOfMemory;
use serde_json::Value;
use std::alloc::Global;

/// Most characters shown of a value.
const SHOWN: usize = 80;

/// What stands before the text of an encoded number: a number that isn't a whole one of 64 bits. Behind it come a quote
/// and a brace.
const OPENING: &str = "{\"#\":\"";

/// The JSON text of a value, cut short if it is long.
pub fn shown_value(alloc: Global, value: &Value) -> Result<String, OutOfMemory> {
    let text = value.to_string(alloc)?;
    let plain = without_encoding(alloc, text.as_str())?;
    cut(alloc, plain.as_str())
}

/// The same of a kept value.
pub fn shown_kept(alloc: Global, value: &KeptValue) -> Result<String, OutOfMemory> {
    let value = value.copied(alloc)?.into_value(alloc)?;
    shown_value(alloc, &value)
}

/// The text with each encoded number as it was given. No text inside it has such an opening: its quotes are escaped.
fn without_encoding(alloc: Global, text: &str) -> Result<String, OutOfMemory> {
    let mut plain = String::new(alloc);
    let mut rest = text;
    for _ in 0..text.len() {
        let Some(behind) = push_plain(&mut plain, rest)? else {
            break;
        };
        rest = behind;
    }
    plain.push_str(rest)?;
    Ok(plain)
}

/// Adds the text as far as an encoded number, as it was given, and answers what is behind it. `None` if there is none:
/// then nothing is added.
fn push_plain<'a>(plain: &mut String, text: &'a str) -> Result<Option<&'a str>, OutOfMemory> {
    let Some((before, behind)) = text.split_once(OPENING) else {
        return Ok(None);
    };
    plain.push_str(before)?;
    match numeral_before(behind) {
        Some((numeral, after)) => {
            plain.push_str(numeral)?;
            Ok(Some(after))
        }
        None => {
            plain.push_str(OPENING)?;
            Ok(Some(behind))
        }
    }
}

/// The number whose text begins here, and what is behind its closing. It looks no further than to the next quote.
fn numeral_before(text: &str) -> Option<(&str, &str)> {
    let (numeral, after) = text.split_once("\"")?;
    let after = after.strip_prefix("}")?;
    if is_numeral(numeral) {
        Some((numeral, after))
    } else {
        None
    }
}

/// Whether a text has the characters of a number alone.
fn is_numeral(text: &str) -> bool {
    !text.is_empty()
        && text.as_bytes().iter().all(|byte| matches!(
            *byte,
            b'0'..=b'9' | b'-' | b'+' | b'.' | b'e' | b'E'
        ))
}

/// The first characters of a text, and dots if there are more.
fn cut(alloc: Global, text: &str) -> Result<String, OutOfMemory> {
    let mut shown = String::new(alloc);
    for (place, c) in text.chars().enumerate() {
        if place == SHOWN {
            shown.push_str("...")?;
            break;
        }
        shown.push(c)?;
    }
    Ok(shown)
}
