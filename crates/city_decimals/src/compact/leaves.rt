//! Values of compact texts copied unchanged, and the names of members.
ghost use Rattle.std.specs.Prelude.{◌≡◌, ◌∷◌, [], ◌&&◌, codes, true, false, IfSome};
ghost use Rattle.std.specs.Bool.{OnTrue};
ghost use Rattle.std.specs.Str.{bytes_eq};
ghost use Rattle.city_decimals.specs.internal.Compact.{IsCopied};
ghost use Rattle.city_decimals.specs.internal.Forms.{BeginsBare};
ghost use Rattle.city_decimals.specs.internal.Directions.{changed};

use crate::copier::Copier;
use crate::direction::Direction;

/// Copies a string.
#[inline(always)]
pub(super) fn copy_string(copier: &mut Copier<'_>, depth: usize, way: Direction) -> Option<()>
    ensures before { copier.new.0 ≡ copier.old.0 }
    ensures copied { IfSome result (λ _. IsCopied (changed way) depth copier.old copier.new) }
{
    if !copier.take(b'"') {
        return None;
    }
    let _inside = copier.pass_inside()?;
    Some(())
}

/// Copies `true`, `false` or `null`.
pub(super) fn copy_name(copier: &mut Copier<'_>, depth: usize, way: Direction) -> Option<()>
    ensures before { copier.new.0 ≡ copier.old.0 }
    ensures copied { IfSome result (λ _. IsCopied (changed way) depth copier.old copier.new) }
{
    match copier.peek() {
        b't' => copier.pass(b"true"),
        b'f' => copier.pass(b"false"),
        _ => copier.pass(b"null"),
    }
}

/// Whether this is the tag, as written in a text.
#[inline(always)]
pub(super) fn is_tag(key: &[u8]) -> bool
    ensures { result ≡ bytes_eq key.now (35 ∷ []) }
{
    key == b"#".as_slice()
}

/// Whether a frame belongs under this name, as written in a text.
#[inline(always)]
pub(super) fn is_framed(top: bool, key: &[u8]) -> bool
    ensures { result ≡ (top && bytes_eq key.now (codes "transform")) }
{
    top && key == b"transform".as_slice()
}

/// Whether the next value under this name may be shielded or a shield, judged by the text. Every
/// value of `attributes` may be, except an object or an array that begins with a text.
#[inline(always)]
pub(super) fn may_be_shielded(key: &[u8], rest: &[u8]) -> bool
    ensures { result ≡ false → bytes_eq key.now (codes "attributes") ≡ true → BeginsBare rest.now }
{
    key == b"attributes".as_slice() && !begins_bare(rest)
}

/// Whether an object is next, or an array that begins with a text.
fn begins_bare(rest: &[u8]) -> bool
    ensures { OnTrue result (BeginsBare rest.now) }
{
    (!rest.is_empty() && rest[0] == b'{') || (rest.len() > 1 && rest[0] == b'[' && rest[1] == b'"')
}
