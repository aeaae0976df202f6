//! Reads whole numbers of a few digits.
ghost use Rattle.std.specs.Prelude.{◌≡◌, ◌<◌, ◌≤◌, ◌^◌, ◌&&◌, ◌||◌, ◌==◌, length, take, drop, true, false};
ghost use Rattle.std.specs.Prelude.{Some, IfSome, IsTrue};
ghost use Rattle.std.specs.Char.{is_ascii_digit};
ghost use Rattle.std.specs.Str.Parse.{AllDigits};
ghost use Rattle.json.specs.Word.{head, is_operator, is_space};
ghost use Rattle.fast_float.specs.Text.{scan, digits_of, IsInteger};
ghost use Rattle.serde_json.specs.Find.{as_i64, of_integer};
ghost use Rattle.serde_json.specs.Read.{number_from};
ghost use Rattle.city_reader.specs.Numbers.{AreDigits, IsWholeFront, IsSmallWhole};

use crate::numbers::is_delimiter;
use crate::scans::byte_at;

/// How many digits are read one by one: any number of so many fits.
const FEW: usize = 18;

/// The value of the digits at the front of a text, of at most 18, and their count.
#[inline(always)]
fn few_digits(text: &[u8]) -> (u64, usize)
    requires { 18 < length text.now }
    ensures { AreDigits text.now result.1 result.0 }
{
    let mut n: u64 = 0;
    let mut count = 0;
    while count < FEW {
        let digit = (text[count] as u64).wrapping_sub(b'0' as u64);
        if digit > 9 {
            return (n, count);
        }
        n = n * 10 + digit;
        count += 1;
    }
    (n, count)
}

/// Whether a zero and another digit begin a text.
#[inline(always)]
fn has_needless_zero(text: &[u8]) -> bool
    ensures { result ≡ ((head text.now == 48) && is_ascii_digit (head (drop 1 text.now))) }
{
    byte_at(text, 0) == b'0' && byte_at(text, 1).is_ascii_digit()
}

/// The same as `is_delimiter`. Never inlined: most numbers end at a comma or a bracket.
#[inline(never)]
fn is_other_delimiter(byte: u8) -> bool
    ensures { result ≡ (is_operator byte || is_space byte) }
{
    is_delimiter(byte)
}

/// Whether a number ends before this byte.
#[inline(always)]
fn ends_number(byte: u8) -> bool
    ensures { result ≡ (is_operator byte || is_space byte) }
{
    byte == b',' || byte == b']' || is_other_delimiter(byte)
}

/// Whether so many digits before this byte are a whole number by themselves.
#[inline(always)]
fn stands_alone(text: &[u8], count: usize, next: u8) -> bool
    requires digits { (count ≤ length text.now) × AllDigits 10 (take count text.now) }
    requires zero { ((head text.now == 48) && is_ascii_digit (head (drop 1 text.now))) ≡ false }
    requires next { next ≡ head (drop count text.now) }
    ensures { IsTrue result → IsWholeFront text.now count }
{
    if count == 0 {
        return false;
    }
    ends_number(next)
}

/// The number of a few digits at the front of a text, their count, and the byte behind them; `None`
/// if there are more, if anything else is there, or if at most 18 bytes are left.
#[inline(always)]
fn digits_at_front(text: &[u8]) -> Option<(u64, usize, u8)>
    ensures integer { IfSome result (λ r. IsInteger (scan (take r.1 text.now))) }
    ensures value { IfSome result (λ r. digits_of (scan (take r.1 text.now)) ≡ r.0) }
    ensures small { IfSome result (λ r. r.0 < 10 ^ 18) }
    ensures front { IfSome result (λ r. IsWholeFront text.now r.1) }
    ensures next { IfSome result (λ r. r.2 ≡ head (drop r.1 text.now)) }
{
    if text.len() <= FEW || has_needless_zero(text) {
        return None;
    }
    let (n, count) = few_digits(text);
    let next = byte_at(text, count);
    if stands_alone(text, count, next) {
        Some((n, count, next))
    } else {
        None
    }
}

#[inline(always)]
fn below_zero(text: &[u8]) -> Option<(i64, usize, u8)>
    ensures value { IfSome result
        (λ r. number_from true (scan (take r.1 text.now)) ≡ Some (of_integer r.0)) }
    ensures in_range { IfSome result (λ r. as_i64 (of_integer r.0) ≡ Some r.0) }
    ensures front { IfSome result (λ r. IsWholeFront text.now r.1) }
    ensures next { IfSome result (λ r. r.2 ≡ head (drop r.1 text.now)) }
{
    let (n, count, next) = digits_at_front(text)?;
    if n == 0 {
        None
    } else {
        Some((-(n as i64), count, next))
    }
}

#[inline(always)]
fn not_below_zero(text: &[u8]) -> Option<(i64, usize, u8)>
    ensures value { IfSome result
        (λ r. number_from false (scan (take r.1 text.now)) ≡ Some (of_integer r.0)) }
    ensures in_range { IfSome result (λ r. as_i64 (of_integer r.0) ≡ Some r.0) }
    ensures front { IfSome result (λ r. IsWholeFront text.now r.1) }
    ensures next { IfSome result (λ r. r.2 ≡ head (drop r.1 text.now)) }
{
    let (n, count, next) = digits_at_front(text)?;
    Some((n as i64, count, next))
}

/// The whole number of at most 18 digits at the front of a text, its count of bytes, and the byte
/// behind it; `None` if anything else is there.
#[inline(always)]
pub fn small_whole(text: &[u8]) -> Option<(i64, usize, u8)>
    ensures whole { IfSome result (λ r. IsSmallWhole text.now r.1 r.0) }
    ensures next { IfSome result (λ r. r.2 ≡ head (drop r.1 text.now)) }
{
    if byte_at(text, 0) == b'-' {
        let (n, count, next) = below_zero(&text[1..])?;
        Some((n, 1 + count, next))
    } else {
        let (n, count, next) = not_below_zero(text)?;
        Some((n, count, next))
    }
}
