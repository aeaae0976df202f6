//! Searches for bytes in a text by one of them that is rare there.
//!
//! The bytes of a name are among the most frequent of a model. A search that picks the rare byte by
//! other texts, as `memmem` does, stops at nearly all of them.
ghost use Rattle.std.specs.Prelude.{◌≡◌, ◌+◌, ◌<◌, ◌≤◌, length, true, IfSome};
ghost use Rattle.memchr.specs.Find.{FindsNeedle, IsFirstByte, is_byte, occurs_at};
ghost use Rattle.city_decimals.specs.internal.Needles.{Lacks, IsOnly};

use crate::copier::begins_with;
use memchr::memchr;

/// The first place of the bytes in the text. The byte at index `rare` of them is looked for first.
pub(crate) fn find(text: &[u8], needle: &[u8], rare: usize) -> Option<usize>
    requires { rare < length needle.now }
    ensures { FindsNeedle text.now needle.now 0 result }
{
    let byte = needle[rare];
    let mut from = rare;
    while from < text.len() {
        let Some(step) = next_byte(&text[from..], byte) else {
            return None;
        };
        let at = from + step - rare;
        if occurs_at(text, needle, at) {
            return Some(at);
        }
        from += step + 1;
    }
    None
}

/// The first place of the byte. Where the byte isn't rare, the next is at hand, and no search begins.
#[inline(always)]
pub(crate) fn next_byte(text: &[u8], byte: u8) -> Option<usize>
    ensures { IsFirstByte (is_byte byte) text.now result }
{
    if !text.is_empty() && text[0] == byte {
        return Some(0);
    }
    memchr(byte, text)
}

/// Whether the bytes occur at this place.
#[inline(always)]
fn occurs_at(text: &[u8], needle: &[u8], at: usize) -> bool
    requires { at ≤ length text.now }
    ensures { result ≡ occurs_at text.now needle.now at }
{
    begins_with(&text[at..], needle)
}

/// Whether the bytes occur nowhere in the text.
pub(crate) fn lacks(text: &[u8], needle: &[u8], rare: usize) -> bool
    requires { rare < length needle.now }
    ensures { result ≡ true → Lacks needle.now text.now }
{
    find(text, needle, rare).is_none()
}

/// Where the bytes occur in the text, if they do so once.
pub(crate) fn only_place(text: &[u8], needle: &[u8], rare: usize) -> Option<usize>
    requires { rare < length needle.now }
    ensures within { IfSome result (λ at. at + length needle.now ≤ length text.now) }
    ensures only { IfSome result (λ at. IsOnly needle.now text.now at) }
{
    let at = find(text, needle, rare)?;
    if !lacks(&text[at + 1..], needle, rare) {
        return None;
    }
    Some(at)
}
