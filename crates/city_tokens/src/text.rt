//! Reads texts.
ghost use Rattle.std.specs.Prelude.{◌≡◌, ◌≢◌, ℕ, IfSome};
ghost use Rattle.std.specs.Bool.{MatchBool};
ghost use Rattle.serde_json.specs.Data.{string};
ghost use Rattle.city_tokens.specs.internal.Standing.{IsString};
ghost use Rattle.city_tokens.specs.internal.Taken.{IsValue};

use crate::list::FromTokens;
use city_members::text::{Id, Text};
use city_reader::Reader;
use json::Token;
use std::alloc::Global;

/// The next value, a text.
pub(crate) fn read_str<'t>(reader: &mut Reader<'t>) -> Option<&'t str>
    ensures { IfSome result (λ s. (depth : ℕ) → IsValue depth reader.old (string s.now) reader.new) }
{
    match reader.next()? {
        Token::String(text) => Some(text),
        _ => None,
    }
}

/// Whether a name is this one, told by their lengths first. Inlined, so that a literal is compared
/// byte by byte, without a call.
#[inline(always)]
pub(crate) fn is_name(name: &str, other: &str) -> bool
    ensures { MatchBool result (name.now ≡ other.now) (name.now ≢ other.now) }
{
    let bytes = name.as_bytes();
    let others = other.as_bytes();
    if bytes.len() != others.len() {
        return false;
    }
    for at in 0..others.len() {
        if bytes[at] != others[at] {
            return false;
        }
    }
    true
}

/// A copy of a text.
pub fn text_of(alloc: Global, text: &str) -> Option<Text>
    ensures { IfSome result (λ copy. copy ≡ text.now) }
{
    let copy = String::from_str(alloc, text).ok()?;
    Some(Text::new(copy))
}

impl FromTokens for Id {
    const ROOM: usize = 1;

    ghost stands = { IsString };

    fn from_tokens(alloc: Global, reader: &mut Reader<'_>, _depth: usize) -> Option<Id> {
        let text = read_str(reader)?;
        text_of(alloc, text)
    }
}
