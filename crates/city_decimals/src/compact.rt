//! Copies compact texts, with numbers and the transform encoded or decoded.
ghost use Rattle.std.specs.Prelude.{◌≡◌, ◌<◌, ◌-◌, ◌++◌, ◌∷◌, [], ℕ, List, true, false, IfSome, IfOk};
ghost use Rattle.std.specs.Prelude.{IfErr};
ghost use Rattle.std.specs.Str.{IsUtf8};
ghost use Rattle.city_decimals.specs.internal.Compact.{IsCopied, IsItemCopied, AreItemsCopied, IsMemberCopied};
ghost use Rattle.city_decimals.specs.internal.Compact.{AreMembersCopied, IsFrameCopied, IsTopCopied, State};
ghost use Rattle.city_decimals.specs.internal.Copies.{Moves};
ghost use Rattle.city_decimals.specs.internal.Directions.{changed, items_changed, members_changed, member_changed};
ghost use Rattle.city_decimals.specs.internal.Directions.{frame_changed};
ghost use Rattle.city_decimals.specs.declared.direction.Direction.TheVariants.{Decode};

mod decoding;
mod encoding;
mod leaves;

use crate::copier::Copier;
use crate::direction::Direction;
use decoding::{copy_encoded_number, is_encoded_number};
use encoding::{copy_into_frame, encode_number};
use leaves::{copy_name, copy_string, is_framed, is_tag, may_be_shielded};

/// The bytes of an encoded number before its text, and after it.
pub(crate) const NUMBER_BEGIN: &[u8] = b"{\"#\":\"";

pub(crate) const NUMBER_END: &[u8] = b"\"}";

/// The bytes of a frame before the transform, and after it.
const FRAME_BEGIN: &[u8] = b"{\"#\":";

pub(crate) const FRAME_END: &[u8] = b",\"scale\":[1,1,1],\"translate\":[0,0,0]}";

/// Appends the changed text to the buffer, if the text is compact and of a form known here.
/// Otherwise returns `Err` with the buffer unchanged. Arrays and objects may nest `depth` deep.
pub(crate) fn copy_compact(
    way: Direction,
    text: &str,
    depth: usize,
    out: Vec<u8>,
) -> Result<Vec<u8>, Vec<u8>>
    ensures ok { IfOk result (λ v. (made : List ℕ)
        × IsTopCopied (members_changed way true) depth text.now made × IsUtf8 made × (v.items ≡ out.items ++ made)) }
    ensures err { IfErr result (λ v. v.items ≡ out.items) }
{
    let mut copier = Copier::new(text, out);
    if copy_top(&mut copier, depth, way).is_none() {
        return Err(copier.give_up());
    }
    copier.finish()
}

/// Copies the object of a whole text, changed.
fn copy_top(copier: &mut Copier<'_>, depth: usize, way: Direction) -> Option<()>
    ensures before { copier.new.0 ≡ copier.old.0 }
    ensures copied { IfSome result (λ _. (m : State) × (0 < depth) × Moves copier.old m (123 ∷ []) (123 ∷ [])
        × AreMembersCopied (members_changed way true) false (depth - 1) m copier.new) }
{
    if depth == 0 || !copier.take(b'{') {
        return None;
    }
    copy_members(copier, depth - 1, true, way)
}

/// Copies the next value, changed. Arrays and objects may nest `depth` deep.
#[cycle(copy)]
#[inline(always)]
fn copy_value(copier: &mut Copier<'_>, depth: usize, way: Direction) -> Option<()>
    ensures before { copier.new.0 ≡ copier.old.0 }
    ensures copied { IfSome result (λ _. IsCopied (changed way) depth copier.old copier.new) }
{
    match copier.peek() {
        b'"' => copy_string(copier, depth, way),
        b'[' => copy_array(copier, depth, way),
        b'{' => copy_object(copier, depth, way),
        b't' | b'f' | b'n' => copy_name(copier, depth, way),
        _ => copy_number(copier, depth, way),
    }
}

/// Copies a number, changed.
#[inline(always)]
fn copy_number(copier: &mut Copier<'_>, depth: usize, way: Direction) -> Option<()>
    ensures before { copier.new.0 ≡ copier.old.0 }
    ensures copied { IfSome result (λ _. IsCopied (changed way) depth copier.old copier.new) }
{
    match way {
        Direction::Encode => encode_number(copier),
        Direction::Decode => copier.pass_number(),
    }
}

/// Copies an array, changed.
#[cycle(copy)]
#[inline(always)]
fn copy_array(copier: &mut Copier<'_>, depth: usize, way: Direction) -> Option<()>
    ensures before { copier.new.0 ≡ copier.old.0 }
    ensures copied { IfSome result (λ _. IsCopied (changed way) depth copier.old copier.new) }
{
    if depth == 0 || !copier.take(b'[') {
        return None;
    }
    copy_items(copier, depth - 1, way)
}

/// Copies the items up to the bracket, changed.
#[cycle(copy)]
#[inline(never)]
fn copy_items(copier: &mut Copier<'_>, depth: usize, way: Direction) -> Option<()>
    ensures before { copier.new.0 ≡ copier.old.0 }
    ensures copied { IfSome result (λ _. AreItemsCopied (items_changed way) false depth copier.old copier.new) }
{
    let mut later = copier.pass_whole_items(false, depth);
    'items: while !copier.take(b']') {
        copy_item(copier, later, depth, way)?;
        later = copier.pass_whole_items(true, depth);
    }
    Some(())
}

/// Copies an item, changed, after a comma if `later`.
#[cycle(copy)]
#[inline(always)]
fn copy_item(copier: &mut Copier<'_>, later: bool, depth: usize, way: Direction) -> Option<()>
    ensures before { copier.new.0 ≡ copier.old.0 }
    ensures copied { IfSome result (λ _. IsItemCopied (changed way) later depth copier.old copier.new) }
{
    copier.pass_comma(later)?;
    copy_value(copier, depth, way)
}

/// Copies an object, changed, or the number it encodes.
#[cycle(copy)]
#[inline(always)]
fn copy_object(copier: &mut Copier<'_>, depth: usize, way: Direction) -> Option<()>
    ensures before { copier.new.0 ≡ copier.old.0 }
    ensures copied { IfSome result (λ _. IsCopied (changed way) depth copier.old copier.new) }
{
    if is_encoded_number(way, copier.rest()) {
        return copy_encoded_number(copier, depth);
    }
    if depth == 0 || !copier.take(b'{') {
        return None;
    }
    copy_members(copier, depth - 1, false, way)
}

/// Copies the members up to the brace, changed.
#[cycle(copy)]
#[inline(never)]
fn copy_members(copier: &mut Copier<'_>, depth: usize, top: bool, way: Direction) -> Option<()>
    ensures before { copier.new.0 ≡ copier.old.0 }
    ensures copied { IfSome result
        (λ _. AreMembersCopied (members_changed way top) false depth copier.old copier.new) }
{
    let mut later = false;
    'members: while !copier.take(b'}') {
        copy_member(copier, later, depth, top, way)?;
        later = true;
    }
    Some(())
}

/// Copies a member, changed, after a comma if `later`. Returns `None` for a member under the tag,
/// and for `attributes` that may be shielded or a shield.
#[cycle(copy)]
#[inline(always)]
fn copy_member(
    copier: &mut Copier<'_>,
    later: bool,
    depth: usize,
    top: bool,
    way: Direction,
) -> Option<()>
    ensures before { copier.new.0 ≡ copier.old.0 }
    ensures copied { IfSome result (λ _. IsMemberCopied (member_changed way top) later depth copier.old copier.new) }
{
    let key = copier.pass_key(later)?;
    if is_tag(key) {
        return None;
    }
    if is_framed(top, key) {
        return copy_frame(copier, depth, way);
    }
    if may_be_shielded(key, copier.rest()) {
        return None;
    }
    copy_value(copier, depth, way)
}

/// Copies a transform, encoded, into its frame, or out of it, decoded.
#[cycle(copy)]
#[inline(never)]
fn copy_frame(copier: &mut Copier<'_>, depth: usize, way: Direction) -> Option<()>
    ensures before { copier.new.0 ≡ copier.old.0 }
    ensures copied { IfSome result (λ _. IsFrameCopied (frame_changed way) depth copier.old copier.new) }
{
    match way {
        Direction::Encode => copy_into_frame(copier, depth),
        Direction::Decode => copy_out_of_frame(copier, depth),
    }
}

/// Copies a transform out of its frame, decoded.
#[cycle(copy)]
#[inline(always)]
fn copy_out_of_frame(copier: &mut Copier<'_>, depth: usize) -> Option<()>
    ensures before { copier.new.0 ≡ copier.old.0 }
    ensures copied { IfSome result (λ _. IsFrameCopied (frame_changed Decode) depth copier.old copier.new) }
{
    if depth < 2 {
        return None;
    }
    copier.skip(FRAME_BEGIN)?;
    if !copier.take(b'{') {
        return None;
    }
    copy_members(copier, depth - 2, false, Direction::Decode)?;
    copier.skip(FRAME_END)
}
