//! Encodes the numbers and the transform of a compact text.
ghost use Rattle.std.specs.Prelude.{◌≡◌, IfSome};
ghost use Rattle.city_decimals.specs.internal.Compact.{IsNumberCopied, IsTripleCopied, IsFrameCopied};
ghost use Rattle.city_decimals.specs.internal.Directions.{frame_changed};
ghost use Rattle.city_decimals.specs.declared.direction.Direction.TheVariants.{Encode};

use super::{FRAME_BEGIN, FRAME_END, NUMBER_BEGIN, NUMBER_END};
use crate::copier::Copier;
use crate::numbers::{is_number, is_whole};

/// Copies a number, encoded.
#[inline(always)]
pub(super) fn encode_number(copier: &mut Copier<'_>) -> Option<()>
    ensures before { copier.new.0 ≡ copier.old.0 }
    ensures number { IfSome result (λ _. IsNumberCopied copier.old copier.new) }
{
    if copier.take_plain() {
        return Some(());
    }
    encode_other_number(copier)
}

/// Copies a number, encoded, of any form.
#[inline(never)]
fn encode_other_number(copier: &mut Copier<'_>) -> Option<()>
    ensures before { copier.new.0 ≡ copier.old.0 }
    ensures number { IfSome result (λ _. IsNumberCopied copier.old copier.new) }
{
    let number = copier.next_number()?;
    if !is_number(number) {
        return None;
    }
    if is_whole(number) {
        copier.advance(number.len());
        Some(())
    } else {
        copier.insert(NUMBER_BEGIN)?;
        copier.advance(number.len());
        copier.insert(NUMBER_END)
    }
}

/// Copies an array of three numbers, encoded.
fn encode_triple(copier: &mut Copier<'_>) -> Option<()>
    ensures before { copier.new.0 ≡ copier.old.0 }
    ensures triple { IfSome result (λ _. IsTripleCopied copier.old copier.new) }
{
    copier.pass(b"[")?;
    encode_number(copier)?;
    copier.pass(b",")?;
    encode_number(copier)?;
    copier.pass(b",")?;
    encode_number(copier)?;
    copier.pass(b"]")
}

/// Copies a transform, encoded, into its frame.
#[inline(never)]
pub(super) fn copy_into_frame(copier: &mut Copier<'_>, depth: usize) -> Option<()>
    ensures before { copier.new.0 ≡ copier.old.0 }
    ensures copied { IfSome result (λ _. IsFrameCopied (frame_changed Encode) depth copier.old copier.new) }
{
    if depth < 2 {
        return None;
    }
    copier.insert(FRAME_BEGIN)?;
    copier.pass(b"{\"scale\":")?;
    encode_triple(copier)?;
    copier.pass(b",\"translate\":")?;
    encode_triple(copier)?;
    copier.pass(b"}")?;
    copier.insert(FRAME_END)
}
