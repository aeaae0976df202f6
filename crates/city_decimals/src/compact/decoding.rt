//! Decodes the encoded numbers of a compact text.
ghost use Rattle.std.specs.Prelude.{◌≡◌, true, IfSome};
ghost use Rattle.city_decimals.specs.Decoded.{decoded};
ghost use Rattle.city_decimals.specs.internal.Compact.{IsCopied};
ghost use Rattle.city_decimals.specs.declared.direction.Direction.TheVariants.{Decode};

use super::{NUMBER_BEGIN, NUMBER_END};
use crate::copier::Copier;
use crate::direction::Direction;

/// Whether the text is to be decoded and begins like an encoded number.
#[inline(always)]
pub(super) fn is_encoded_number(way: Direction, text: &[u8]) -> bool
    ensures { result ≡ true → way ≡ Decode }
{
    match way {
        Direction::Encode => false,
        Direction::Decode => text.starts_with(NUMBER_BEGIN),
    }
}

/// Copies the number encoded by an object.
#[inline(never)]
pub(super) fn copy_encoded_number(copier: &mut Copier<'_>, depth: usize) -> Option<()>
    ensures before { copier.new.0 ≡ copier.old.0 }
    ensures copied { IfSome result (λ _. IsCopied decoded depth copier.old copier.new) }
{
    if depth == 0 {
        return None;
    }
    copier.skip(NUMBER_BEGIN)?;
    copier.pass_number()?;
    copier.skip(NUMBER_END)
}
