//! Parts at the begin or at the end of a line.
ghost use Rattle.std.specs.Prelude.{◌≡◌, ◌≤◌, ◌<◌, ◌^◌, ◌++◌, ◌∷◌, [], ℕ, List, length, decimal, IfOk, IfSome};
ghost use Rattle.std.specs.Prelude.{IsSome, IsSomeAnd, Some, true};
ghost use Rattle.std.specs.Str.{IsUtf8};
ghost use Rattle.json.specs.Json.{read_key};
ghost use Rattle.json.specs.Print.{quoted};
ghost use Rattle.json.specs.Token.{Token as JsonToken};
ghost use Rattle.city_journal.specs.Names.{BeginsWith, HasName, IsAtName};
ghost use Rattle.city_journal.specs.Strings.{is_plain};

use city_members::text::Text;
use city_model::OutOfMemory;
use json::{Reader, Scratch, Token};
use memchr::memrchr;
use simdutf8::compat::from_utf8;
use std::alloc::Global;

/// What is behind this prefix, if it stands at the begin.
pub(crate) fn behind<'a>(bytes: &'a [u8], prefix: &[u8]) -> Option<&'a [u8]>
    ensures found { IfSome result (λ rest. bytes.now ≡ prefix.now ++ rest.now) }
    ensures written { (rest : List ℕ) → bytes.now ≡ prefix.now ++ rest → IsSomeAnd result (λ r. r.now ≡ rest) }
{
    bytes.strip_prefix(prefix)
}

/// What is before this suffix, if it stands at the end.
pub(crate) fn before<'a>(bytes: &'a [u8], suffix: &[u8]) -> Option<&'a [u8]>
    ensures found { IfSome result (λ front. bytes.now ≡ front.now ++ suffix.now) }
    ensures written { (front : List ℕ) → bytes.now ≡ front ++ suffix.now → IsSomeAnd result (λ r. r.now ≡ front) }
{
    bytes.strip_suffix(suffix)
}

/// Whether digits that are a number are so in the form in which numbers are written: without a sign or a further zero.
fn is_plain(digits: &[u8]) -> bool
    ensures { result ≡ is_plain digits.now }
{
    match digits {
        [b'0'] => true,
        [first, ..] => *first >= b'1' && *first <= b'9',
        [] => false,
    }
}

/// What is before the number at the end, behind a colon, and that number.
pub(crate) fn number_at_end(bytes: &[u8]) -> Option<(&[u8], u64)>
    ensures shorter { IfSome result (λ parts. length parts.0.now ≤ length bytes.now) }
    ensures found { IfSome result (λ parts. bytes.now ≡ parts.0.now ++ decimal parts.1) }
    ensures written { (front : List ℕ) (n : ℕ) → n < 2 ^ 64 → bytes.now ≡ front ++ 58 ∷ decimal n
        → IsSomeAnd result (λ parts. (parts.0.now ≡ front ++ 58 ∷ []) × (parts.1 ≡ n)) }
{
    let Some(colon) = memrchr(b':', bytes) else {
        return None;
    };
    let at = colon + 1;
    let Ok(digits) = from_utf8(&bytes[at..]) else {
        return None;
    };
    if !is_plain(digits.as_bytes()) {
        return None;
    }
    match digits.parse::<u64>() {
        Ok(number) => Some((&bytes[..at], number)),
        Err(_) => None,
    }
}

/// The JSON text of the string at the begin, with its quotes, and what is behind it.
pub(crate) fn string_at_start(bytes: &[u8]) -> Option<(&[u8], &[u8])>
    ensures found { IfSome result (λ parts. bytes.now ≡ parts.0.now ++ parts.1.now) }
    ensures written { (s rest : List ℕ) → bytes.now ≡ quoted s ++ rest
        → IsSomeAnd result (λ parts. (parts.0.now ≡ quoted s) × (parts.1.now ≡ rest)) }
{
    if bytes.first() != Some(&b'"') {
        return None;
    }
    let mut is_escaped = false;
    for i in 1..bytes.len() {
        if is_escaped {
            is_escaped = false;
        } else if bytes[i] == b'"' {
            return Some((&bytes[..i + 1], &bytes[i + 1..]));
        } else {
            is_escaped = bytes[i] == b'\\';
        }
    }
    None
}

/// The text of a string's JSON text, if it is one.
pub(crate) fn text_of(alloc: Global, json: &[u8]) -> Result<Option<Text>, OutOfMemory>
    ensures written { (s : List ℕ) → IsUtf8 s → json.now ≡ quoted s → IfOk result (λ o. IsSomeAnd o (λ t. t ≡ s)) }
{
    let Ok(text) = from_utf8(json) else {
        return Ok(None);
    };
    let mut scratch = Scratch::new(alloc);
    let mut reader = Reader::new(text, &mut scratch)?;
    next_text(alloc, &mut reader)
}

/// The name of a script as it stands in a line, as JSON text; `None` if it has none behind its commands.
pub(crate) fn name_of(alloc: Global, script: &[u8]) -> Result<Option<Text>, OutOfMemory>
    ensures written { HasName script.now → IfOk result (λ o. IsSome o) }
    ensures found { IfOk result (λ o. IsSome o → HasName script.now) }
{
    let Ok(text) = from_utf8(script) else {
        return Ok(None);
    };
    let mut scratch = Scratch::new(alloc);
    let mut reader = Reader::new(text, &mut scratch)?;
    if !is_at_name(&mut reader) {
        return Ok(None);
    }
    next_text(alloc, &mut reader)
}

/// The text of the string that comes next, if it is one.
fn next_text(alloc: Global, reader: &mut Reader<'_>) -> Result<Option<Text>, OutOfMemory>
    ensures written { (s : List ℕ) (rest : List JsonToken) → BeginsWith s rest reader.old
        → IfOk result (λ o. IsSomeAnd o (λ t. t ≡ s)) }
    ensures found { IfOk result (λ o. IfSome o (λ t. BeginsWith t reader.new reader.old)) }
{
    match reader.next() {
        Some(Token::String(text)) => Ok(Some(Text::new(text.to_string(alloc)?))),
        _ => Ok(None),
    }
}

/// How deep the commands of a script may nest.
const DEPTH: usize = 128;

/// Passes a script's commands and the key of its name.
fn is_at_name(reader: &mut Reader<'_>) -> bool
    ensures written { (t : List JsonToken) → IsAtName reader.old t → (result ≡ true) × (reader.new ≡ t) }
    ensures found { result ≡ true → IsAtName reader.old reader.new }
{
    let Some(Token::BeginObject) = reader.next() else {
        return false;
    };
    if !has_key(reader, b"commands") {
        return false;
    }
    if reader.skip_value(DEPTH).is_err() {
        return false;
    }
    has_key(reader, b"name")
}

/// Passes a key of an object, and tells whether it is this one.
fn has_key(reader: &mut Reader<'_>, key: &[u8]) -> bool
    ensures written { (t : List JsonToken) → read_key reader.old ≡ Some (Some key.now, t)
        → (result ≡ true) × (reader.new ≡ t) }
    ensures found { result ≡ true → read_key reader.old ≡ Some (Some key.now, reader.new) }
{
    match reader.next_key() {
        Ok(Some(found)) => found.as_bytes() == key,
        _ => false,
    }
}
