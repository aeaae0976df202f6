//! Changes values, token by token.
ghost use Rattle.std.specs.Prelude.{◌≡◌, ◌≢◌, ◌∷◌, ◌++◌, ◌<◌, ◌≤◌, ◌&&◌, OnOk, Some, None, Err, ℕ, length};
ghost use Rattle.json.specs.Token.{key};
ghost use Rattle.json.specs.Json.{number, array, value, items, members};
ghost use Rattle.json.specs.Print.{IsNumber, IsPrintable};
ghost use Rattle.json.specs.Reads.{token_of};
ghost use Rattle.json.specs.Tree.{json_tokens, items_tokens, members_tokens};
ghost use Rattle.city_decimals.specs.Shapes.{is_tag};
ghost use Rattle.city_decimals.specs.internal.Changes.{top_changed};
ghost use Rattle.city_decimals.specs.internal.Objects.{decoded_object};
ghost use Rattle.city_decimals.specs.internal.Streams.{written};
ghost use Rattle.city_decimals.specs.internal.Directions.{changed, items_changed, members_changed, member_changed};
ghost use Rattle.city_decimals.specs.internal.Directions.{attributes_changed, object_made, is_decode};
ghost use Rattle.city_decimals.specs.declared.fault.DecimalsFault.TheVariants.{NotJson};

use super::attributes::{write_attributes_number, write_single, write_tree};
use crate::OutOfMemory;
use crate::decoding::{decode_first_member, decode_member_tree};
use crate::direction::Direction;
use crate::encoding::{encode_member_tree, encode_number};
use crate::fault::DecimalsFault;
use crate::shapes::{can_have_form, is_attributes, is_tag};
use json::{Reader, Token, Value, Writer};
use std::alloc::Global;

/// Writes the value of a whole text, changed. Arrays and objects may nest `depth` deep.
pub(crate) fn transcode_top(
    alloc: Global,
    way: Direction,
    reader: &mut Reader<'_>,
    depth: usize,
    out: &mut Writer,
) -> Result<(), DecimalsFault>
    ensures before { OnOk result (out.new.before ≡ out.old.before) }
    ensures ok { OnOk result (written (λ j. json_tokens (top_changed way j)) out.old.tokens (value depth reader.old)
        ≡ Some (out.new.tokens, reader.new)) }
    ensures err { result ≡ Err NotJson → value depth reader.old ≡ None }
{
    let token = reader.next().ok_or(DecimalsFault::NotJson)?;
    match token {
        Token::BeginObject => {
            if depth == 0 {
                return Err(DecimalsFault::NotJson);
            }
            transcode_object(alloc, way, reader, depth - 1, true, out)
        }
        _ => transcode_from(alloc, way, token, reader, depth, out),
    }
}

/// Writes the next value, changed. Arrays and objects may nest `depth` deep.
#[cycle(transcode)]
#[inline(always)]
fn transcode_value(
    alloc: Global,
    way: Direction,
    reader: &mut Reader<'_>,
    depth: usize,
    out: &mut Writer,
) -> Result<(), DecimalsFault>
    ensures before { OnOk result (out.new.before ≡ out.old.before) }
    ensures ok { OnOk result (written (λ j. json_tokens (changed way j)) out.old.tokens (value depth reader.old)
        ≡ Some (out.new.tokens, reader.new)) }
    ensures err { result ≡ Err NotJson → value depth reader.old ≡ None }
{
    let token = reader.next().ok_or(DecimalsFault::NotJson)?;
    transcode_from(alloc, way, token, reader, depth, out)
}

/// Writes the value beginning with the token, changed.
#[cycle(transcode)]
#[inline(always)]
fn transcode_from(
    alloc: Global,
    way: Direction,
    token: Token<'_>,
    reader: &mut Reader<'_>,
    depth: usize,
    out: &mut Writer,
) -> Result<(), DecimalsFault>
    requires printable { token ≢ Token.Bad → IsPrintable (token_of token) }
    ensures before { OnOk result (out.new.before ≡ out.old.before) }
    ensures ok { OnOk result (written (λ j. json_tokens (changed way j)) out.old.tokens
        (value depth (token_of token.entry ∷ reader.old)) ≡ Some (out.new.tokens, reader.new)) }
    ensures err { result ≡ Err NotJson → value depth (token_of token.entry ∷ reader.old) ≡ None }
{
    match token {
        Token::Number(text) => Ok(write_number(way, text, out)?),
        Token::String(text) => Ok(out.string(text)?),
        Token::Bool(b) => Ok(out.boolean(b)?),
        Token::Null => Ok(out.null()?),
        Token::BeginArray => {
            if depth == 0 {
                return Err(DecimalsFault::NotJson);
            }
            out.begin_array()?;
            transcode_items(alloc, way, reader, depth - 1, out)
        }
        Token::BeginObject => {
            if depth == 0 {
                return Err(DecimalsFault::NotJson);
            }
            transcode_object(alloc, way, reader, depth - 1, false, out)
        }
        Token::EndObject | Token::EndArray | Token::Key(_) | Token::Bad => {
            Err(DecimalsFault::NotJson)
        }
    }
}

/// Writes the remaining items, changed, and the closing bracket.
#[cycle(transcode)]
#[inline(never)]
fn transcode_items(
    alloc: Global,
    way: Direction,
    reader: &mut Reader<'_>,
    depth: usize,
    out: &mut Writer,
) -> Result<(), DecimalsFault>
    ensures before { OnOk result (out.new.before ≡ out.old.before) }
    ensures ok { OnOk result ((n : ℕ) → length reader.old ≤ n
        → written (λ js. items_tokens (items_changed way js)) out.old.tokens (items (value depth) n reader.old)
        ≡ Some (out.new.tokens, reader.new)) }
    ensures err { result ≡ Err NotJson
        → (n : ℕ) → length reader.old ≤ n → items (value depth) n reader.old ≡ None }
{
    'items: while !reader.take_end_array() {
        transcode_value(alloc, way, reader, depth, out)?;
    }
    out.end_array()?;
    Ok(())
}

/// Writes the result of changing the remaining members: an object, or the number they encode.
#[cycle(transcode)]
#[inline(never)]
fn transcode_object(
    alloc: Global,
    way: Direction,
    reader: &mut Reader<'_>,
    depth: usize,
    top: bool,
    out: &mut Writer,
) -> Result<(), DecimalsFault>
    ensures before { OnOk result (out.new.before ≡ out.old.before) }
    ensures ok { OnOk result (written (λ ms. json_tokens (object_made way top ms)) out.old.tokens
        (members (value depth) (length reader.old) reader.old)
        ≡ Some (out.new.tokens, reader.new)) }
    ensures err { result ≡ Err NotJson
        → members (value depth) (length reader.old) reader.old ≡ None }
{
    match reader.next_key()? {
        Some(name) => if is_decoded_tag(way, name) {
            decode_tagged(alloc, name, reader, depth, top, out)
        } else {
            out.begin_object()?;
            transcode_members(alloc, way, name, reader, depth, top, out)
        },
        None => {
            out.begin_object()?;
            out.end_object()?;
            Ok(())
        }
    }
}

/// Writes the decoding of the members; the first has this name. Makes a tree of its value.
#[cycle(transcode)]
#[inline(always)]
fn decode_tagged(
    alloc: Global,
    name: &str,
    reader: &mut Reader<'_>,
    depth: usize,
    top: bool,
    out: &mut Writer,
) -> Result<(), DecimalsFault>
    ensures before { OnOk result (out.new.before ≡ out.old.before) }
    ensures ok { OnOk result ((n : ℕ) → length reader.old < n
        → written (λ ms. json_tokens (decoded_object top ms)) out.old.tokens
        (members (value depth) n (key name.now ∷ reader.old)) ≡ Some (out.new.tokens, reader.new)) }
    ensures err { result ≡ Err NotJson
        → (n : ℕ) → length reader.old < n → members (value depth) n (key name.now ∷ reader.old) ≡ None }
{
    let next = decode_first_member(alloc, name, reader, depth, top, out)?;
    match next {
        Some(next) => transcode_members(alloc, Direction::Decode, next, reader, depth, top, out),
        None => Ok(()),
    }
}

/// Writes the members, changed, and the closing brace; the first has this name.
#[cycle(transcode)]
#[inline(always)]
fn transcode_members(
    alloc: Global,
    way: Direction,
    name: &str,
    reader: &mut Reader<'_>,
    depth: usize,
    top: bool,
    out: &mut Writer,
) -> Result<(), DecimalsFault>
    ensures before { OnOk result (out.new.before ≡ out.old.before) }
    ensures ok { OnOk result ((n : ℕ) → length reader.old < n
        → written (λ ms. members_tokens (members_changed way top ms)) out.old.tokens
        (members (value depth) n (key name.now ∷ reader.old)) ≡ Some (out.new.tokens, reader.new)) }
    ensures err { result ≡ Err NotJson
        → (n : ℕ) → length reader.old < n → members (value depth) n (key name.now ∷ reader.old) ≡ None }
{
    out.key(name)?;
    transcode_member(alloc, way, name, reader, depth, top, out)?;
    transcode_more(alloc, way, reader, depth, top, out)
}

/// Writes the remaining members, changed, and the closing brace.
#[cycle(transcode)]
#[inline(always)]
fn transcode_more(
    alloc: Global,
    way: Direction,
    reader: &mut Reader<'_>,
    depth: usize,
    top: bool,
    out: &mut Writer,
) -> Result<(), DecimalsFault>
    ensures before { OnOk result (out.new.before ≡ out.old.before) }
    ensures ok { OnOk result ((n : ℕ) → length reader.old ≤ n
        → written (λ ms. members_tokens (members_changed way top ms)) out.old.tokens
        (members (value depth) n reader.old) ≡ Some (out.new.tokens, reader.new)) }
    ensures err { result ≡ Err NotJson
        → (n : ℕ) → length reader.old ≤ n → members (value depth) n reader.old ≡ None }
{
    'members: while let Some(name) = reader.next_key()? {
        out.key(name)?;
        transcode_member(alloc, way, name, reader, depth, top, out)?;
    }
    out.end_object()?;
    Ok(())
}

/// Writes the value of a member of this name, changed and into or out of its form.
#[cycle(transcode)]
#[inline(always)]
fn transcode_member(
    alloc: Global,
    way: Direction,
    name: &str,
    reader: &mut Reader<'_>,
    depth: usize,
    top: bool,
    out: &mut Writer,
) -> Result<(), DecimalsFault>
    ensures before { OnOk result (out.new.before ≡ out.old.before) }
    ensures ok { OnOk result (written (λ j. json_tokens (member_changed way top name.now j))
        out.old.tokens (value depth reader.old) ≡ Some (out.new.tokens, reader.new)) }
    ensures err { result ≡ Err NotJson → value depth reader.old ≡ None }
{
    if can_have_form(top, name) {
        transcode_member_tree(alloc, way, name, reader, depth, top, out)
    } else if is_attributes(name) {
        transcode_attributes(alloc, way, reader, depth, out)
    } else {
        transcode_value(alloc, way, reader, depth, out)
    }
}

/// Writes the value of a member `attributes`, changed and into or out of its shield.
#[cycle(transcode)]
#[inline(never)]
fn transcode_attributes(
    alloc: Global,
    way: Direction,
    reader: &mut Reader<'_>,
    depth: usize,
    out: &mut Writer,
) -> Result<(), DecimalsFault>
    ensures before { OnOk result (out.new.before ≡ out.old.before) }
    ensures ok { OnOk result (written (λ j. json_tokens (attributes_changed way j)) out.old.tokens
        (value depth reader.old) ≡ Some (out.new.tokens, reader.new)) }
    ensures err { result ≡ Err NotJson → value depth reader.old ≡ None }
{
    let token = reader.next().ok_or(DecimalsFault::NotJson)?;
    match token {
        Token::Number(text) => Ok(write_attributes_number(way, text, out)?),
        Token::BeginArray => {
            if depth == 0 {
                return Err(DecimalsFault::NotJson);
            }
            transcode_attributes_items(alloc, way, reader, depth - 1, out)
        }
        _ => transcode_from(alloc, way, token, reader, depth, out),
    }
}

/// Writes the remaining items of the array under `attributes`, changed and into or out of its
/// shield. Makes a tree of the first item.
#[cycle(transcode)]
#[inline(always)]
fn transcode_attributes_items(
    alloc: Global,
    way: Direction,
    reader: &mut Reader<'_>,
    depth: usize,
    out: &mut Writer,
) -> Result<(), DecimalsFault>
    ensures before { OnOk result (out.new.before ≡ out.old.before) }
    ensures ok { OnOk result ((n : ℕ) → length reader.old ≤ n
        → written (λ js. json_tokens (attributes_changed way (array js))) out.old.tokens
        (items (value depth) n reader.old) ≡ Some (out.new.tokens, reader.new)) }
    ensures err { result ≡ Err NotJson
        → (n : ℕ) → length reader.old ≤ n → items (value depth) n reader.old ≡ None }
{
    if reader.take_end_array() {
        out.begin_array()?;
        out.end_array()?;
        return Ok(());
    }
    let first = Value::read(alloc, reader, depth)?;
    if reader.take_end_array() {
        return Ok(write_single(way, &first, out)?);
    }
    out.begin_array()?;
    write_tree(way, &first, out)?;
    transcode_items(alloc, way, reader, depth, out)
}

/// Writes the value of a member of this name, changed and into or out of its form. Makes a tree of
/// it.
#[inline(always)]
fn transcode_member_tree(
    alloc: Global,
    way: Direction,
    name: &str,
    reader: &mut Reader<'_>,
    depth: usize,
    top: bool,
    out: &mut Writer,
) -> Result<(), DecimalsFault>
    ensures before { OnOk result (out.new.before ≡ out.old.before) }
    ensures ok { OnOk result (written (λ j. json_tokens (member_changed way top name.now j))
        out.old.tokens (value depth reader.old) ≡ Some (out.new.tokens, reader.new)) }
    ensures err { result ≡ Err NotJson → value depth reader.old ≡ None }
{
    match way {
        Direction::Encode => encode_member_tree(alloc, name, reader, depth, top, out),
        Direction::Decode => decode_member_tree(alloc, name, reader, depth, top, out),
    }
}

/// Writes a number, changed.
#[inline(always)]
fn write_number(way: Direction, text: &str, out: &mut Writer) -> Result<(), OutOfMemory>
    requires number { IsNumber text.now }
    ensures before { OnOk result (out.new.before ≡ out.old.before) }
    ensures tokens { OnOk result (out.new.tokens
        ≡ out.old.tokens ++ json_tokens (changed way (number text.now))) }
{
    match way {
        Direction::Encode => encode_number(text, out),
        Direction::Decode => out.number(text),
    }
}

/// Whether this is the tag in a text to decode.
#[inline(always)]
fn is_decoded_tag(way: Direction, name: &str) -> bool
    ensures { result ≡ (is_decode way && is_tag name.now) }
{
    match way {
        Direction::Encode => false,
        Direction::Decode => is_tag(name),
    }
}
