//! Reads whole texts.
ghost use Rattle.std.specs.Prelude.{◌≡◌, [], true, IfSome};
ghost use Rattle.json.specs.Lex.{tokens};
ghost use Rattle.serde_json.specs.Data.{Data};
ghost use Rattle.city_members.specs.Integral.{is_integral};
ghost use Rattle.city_tokens.specs.internal.Standing.{IsReadAs};
ghost use Rattle.city_tokens.specs.tree.Texts.{HasTree};

use crate::limits::MAX_TEXT;
use crate::list::FromTokens;
use city_reader::Reader;
use json::Scratch;
use memchr::memchr;
use std::alloc::Global;

/// How deep a text's arrays and objects may nest.
pub const DEPTH: usize = 127;

/// The value of all the tokens.
fn read_tokens<T: FromTokens>(alloc: Global, reader: &mut Reader<'_>) -> Option<T>
    ensures { IfSome result (λ x. IsReadAs T.stands x 127 reader.old []) }
{
    let read = T::from_tokens(alloc, reader, DEPTH)?;
    if !reader.is_at_end() {
        return None;
    }
    Some(read)
}

/// The value of a text with escapes. Never inlined: a scratch is large, and cleared when it is made.
#[inline(never)]
fn read_escaped<T: FromTokens>(alloc: Global, text: &str) -> Option<T>
    ensures { IfSome result (λ x. IsReadAs T.stands x 127 (tokens text.now) []) }
{
    let mut scratch = Scratch::new(alloc);
    let mut reader = Reader::new(text, &mut scratch)?;
    let read = read_tokens::<T>(alloc, &mut reader)?;
    Some(read)
}

/// The value of a text without escapes.
fn read_plain<T: FromTokens>(alloc: Global, text: &str) -> Option<T>
    ensures { IfSome result (λ x. IsReadAs T.stands x 127 (tokens text.now) []) }
{
    let mut reader = Reader::plain(text);
    let read = read_tokens::<T>(alloc, &mut reader)?;
    Some(read)
}

/// The value of a text.
fn read_text<T: FromTokens>(alloc: Global, text: &str) -> Option<T>
    ensures { IfSome result (λ x. IsReadAs T.stands x 127 (tokens text.now) []) }
{
    if memchr(b'\\', text.as_bytes()).is_none() {
        read_plain::<T>(alloc, text)
    } else {
        read_escaped::<T>(alloc, text)
    }
}

/// The value of a text; `None` if anything about the text is odd, or memory runs out.
pub fn read_whole_text<T: FromTokens>(alloc: Global, bytes: &[u8]) -> Option<T>
    ensures { IfSome result (λ x. (d : Data) × HasTree bytes.now d × (is_integral d ≡ true) × T.stands x d) }
{
    if bytes.len() > MAX_TEXT {
        return None;
    }
    let Ok(text) = simdutf8::compat::from_utf8(bytes) else {
        return None;
    };
    let read = read_text::<T>(alloc, text)?;
    Some(read)
}
