//! Finds the ends of whole numbers.
ghost use Rattle.std.specs.Prelude.{◌≡◌, ◌≤◌, ◌||◌, length, drop};
ghost use Rattle.json.specs.Word.{is_operator, is_space, after_minus, after_whole};
ghost use Rattle.json.specs.Run.{EndsAt};
ghost use Rattle.city_reader.specs.Numbers.{AfterWholeNumber};

use crate::scans::{byte_at, digits_end};

/// Whether a word ends before this byte.
#[inline(always)]
pub fn is_delimiter(byte: u8) -> bool
    ensures { result ≡ (is_operator byte || is_space byte) }
{
    let operator = (byte == b'{')
        | (byte == b'}')
        | (byte == b'[')
        | (byte == b']')
        | (byte == b':')
        | (byte == b',');
    let space = (byte == b' ') | (byte == b'\t') | (byte == b'\n') | (byte == b'\r');
    operator | space
}

#[inline(always)]
fn minus_end(text: &[u8], from: usize) -> usize
    requires { from ≤ length text.now }
    ensures value { drop result text.now ≡ after_minus (drop from text.now) }
    ensures bounds { (from ≤ result) × (result ≤ length text.now) }
{
    if byte_at(text, from) == b'-' {
        from + 1
    } else {
        from
    }
}

#[inline(always)]
fn unsigned_end(text: &[u8], from: usize) -> Option<usize>
    requires { from ≤ length text.now }
    ensures { EndsAt text.now from result (after_whole (drop from text.now)) }
{
    if byte_at(text, from) == b'0' {
        return Some(from + 1);
    }
    let end = digits_end(text, from);
    if end == from { None } else { Some(end) }
}

/// The end of the whole number at `from`; `None` if anything else begins there, or more follows in
/// the same word.
#[inline(always)]
pub fn whole_end(text: &[u8], from: usize) -> Option<usize>
    requires { from ≤ length text.now }
    ensures { AfterWholeNumber text.now from result }
{
    let end = unsigned_end(text, minus_end(text, from))?;
    if is_delimiter(byte_at(text, end)) {
        Some(end)
    } else {
        None
    }
}
