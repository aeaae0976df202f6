//! Recognizes whole numbers.
ghost use Rattle.std.specs.Prelude.{◌≡◌, ◌==◌, ◌<◌, ◌≤◌, true, false, IsTrue, length, take, slice_index, decimal};
ghost use Rattle.std.specs.Bool.{OnTrue};
ghost use Rattle.std.specs.Fmt.{signed_decimal};
ghost use Rattle.std.specs.Str.{bytes_eq};
ghost use Rattle.json.specs.Print.{IsNumber};
ghost use Rattle.serde_json.specs.Read.{number_from};
ghost use Rattle.city_decimals.specs.Numbers.{is_written_so, is_whole, is_number};
ghost use Rattle.city_decimals.specs.internal.PlainNumbers.{IsPlain};

use fast_float::Numeral;

/// Whether a number's text is exactly how an `i64` is written: no point, no exponent, no `-0`.
#[inline(always)]
pub(crate) fn is_whole(text: &str) -> bool
    ensures { result ≡ is_whole text.now }
{
    let bytes = text.as_bytes();
    if is_plain(bytes) {
        return true;
    }
    if has_minus(bytes) {
        is_negative_i64(&Numeral::scan(&bytes[1..]), text)
    } else {
        is_positive_i64(&Numeral::scan(bytes), text)
    }
}

/// Whether these are 1 to 18 digits without a leading zero: exactly how an `i64` is written.
#[inline(always)]
pub(crate) fn is_plain(bytes: &[u8]) -> bool
    ensures { OnTrue result (IsPlain bytes.now) }
{
    let len = bytes.len();
    if len == 0 || len > 18 || (bytes[0] == b'0' && len > 1) {
        return false;
    }
    for &byte in bytes {
        if byte < b'0' || byte > b'9' {
            return false;
        }
    }
    true
}

/// The number of digits of a plain number, if one is next and the end of an item or a member
/// follows; else 0.
#[inline(always)]
pub(crate) fn plain_len(text: &[u8]) -> usize
    ensures within { result ≤ length text.now }
    ensures plain { 0 < result → IsPlain (take result text.now) }
{
    let mut at = 0;
    while at < text.len() && is_digit(text[at]) {
        at += 1;
    }
    if at == 0
        || at > 18
        || at >= text.len()
        || !ends_value(text[at])
        || (text[0] == b'0' && at > 1)
    {
        return 0;
    }
    at
}

#[inline(always)]
fn is_digit(byte: u8) -> bool
    ensures { OnTrue result ((48 ≤ byte) × (byte ≤ 57)) }
{
    byte >= b'0' && byte <= b'9'
}

#[inline(always)]
fn ends_value(byte: u8) -> bool {
    byte == b',' || byte == b']' || byte == b'}'
}

#[inline(always)]
fn has_minus(bytes: &[u8]) -> bool
    ensures value { result ≡ (slice_index bytes.now 0 == 45) }
    ensures len { IsTrue result → 0 < length bytes.now }
{
    !bytes.is_empty() && bytes[0] == b'-'
}

#[inline(always)]
fn is_positive_i64(numeral: &Numeral<'_>, text: &str) -> bool
    ensures { result ≡ is_written_so text.now (number_from false numeral.now) }
{
    match numeral.to_u64() {
        Some(n) => n <= i64::MAX as u64 && is_decimal(n, text),
        None => false,
    }
}

#[inline(always)]
fn is_negative_i64(numeral: &Numeral<'_>, text: &str) -> bool
    ensures { result ≡ is_written_so text.now (number_from true numeral.now) }
{
    match numeral.to_i64(true) {
        Some(n) => n < 0 && is_signed_decimal(n, text),
        None => false,
    }
}

#[inline(always)]
fn is_decimal(n: u64, text: &str) -> bool
    ensures { result ≡ bytes_eq (decimal n) text.now }
{
    let mut buffer = itoa::Buffer::new();
    buffer.format(n) == text
}

#[inline(always)]
fn is_signed_decimal(n: i64, text: &str) -> bool
    ensures { result ≡ bytes_eq (signed_decimal n) text.now }
{
    let mut buffer = itoa::Buffer::new();
    buffer.format(n) == text
}

/// Whether a text is a number of JSON.
pub(crate) fn is_number(text: &str) -> bool
    ensures value { result ≡ is_number text.now }
    ensures number { result ≡ true → IsNumber text.now }
{
    json::is_number(text)
}
