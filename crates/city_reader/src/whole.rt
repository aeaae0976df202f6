//! Reads whole numbers.
ghost use Rattle.std.specs.Prelude.{◌≡◌, ◌==◌, ◌<◌, ◌≤◌, ◌^◌, length, slice_index, true, false, Some, IfSome, IsTrue};
ghost use Rattle.std.specs.Str.Parse.{AllDigits, digits_value};
ghost use Rattle.fast_float.specs.Text.{scan, digits_of, IsInteger};
ghost use Rattle.serde_json.specs.Find.{as_i64, of_integer};
ghost use Rattle.serde_json.specs.Read.{number_of, number_from};

use fast_float::Numeral;

/// How many digits are read one by one: any number of so many fits.
const FEW: usize = 18;

#[inline(always)]
fn has_minus(bytes: &[u8]) -> bool
    ensures value { result ≡ (slice_index bytes.now 0 == 45) }
    ensures len { IsTrue result → 0 < length bytes.now }
{
    !bytes.is_empty() && bytes[0] == b'-'
}

/// The number of a few digits, read one by one; `None` if a byte is no digit.
#[inline(always)]
fn value_of_digits(digits: &[u8]) -> Option<u64>
    requires { length digits.now ≤ 18 }
    ensures digits { IfSome result (λ _. AllDigits 10 digits.now) }
    ensures value { IfSome result (λ n. n ≡ digits_value 10 digits.now) }
    ensures small { IfSome result (λ n. n < 10 ^ 18) }
{
    let mut n: u64 = 0;
    for byte in digits {
        let digit = (*byte as u64).wrapping_sub(b'0' as u64);
        if digit > 9 {
            return None;
        }
        n = n * 10 + digit;
    }
    Some(n)
}

/// The number of a few digits alone; `None` if there are more, or anything else is there.
#[inline(always)]
fn few_digits(bytes: &[u8]) -> Option<u64>
    ensures integer { IfSome result (λ _. IsInteger (scan bytes.now)) }
    ensures value { IfSome result (λ n. digits_of (scan bytes.now) ≡ n) }
    ensures small { IfSome result (λ n. n < 10 ^ 18) }
{
    if bytes.is_empty() || bytes.len() > FEW {
        return None;
    }
    let n = value_of_digits(bytes)?;
    Some(n)
}

/// The number below zero of any digits.
#[cold]
fn long_below_zero(bytes: &[u8]) -> Option<i64>
    ensures value { IfSome result (λ n. number_from true (scan bytes.now) ≡ Some (of_integer n)) }
    ensures in_range { IfSome result (λ n. as_i64 (of_integer n) ≡ Some n) }
{
    let n = Numeral::scan(bytes).to_i64(true)?;
    if n < 0 { Some(n) } else { None }
}

/// The number below zero of these digits.
#[inline(always)]
fn below_zero(bytes: &[u8]) -> Option<i64>
    ensures value { IfSome result (λ n. number_from true (scan bytes.now) ≡ Some (of_integer n)) }
    ensures in_range { IfSome result (λ n. as_i64 (of_integer n) ≡ Some n) }
{
    let Some(n) = few_digits(bytes) else {
        return long_below_zero(bytes);
    };
    if n == 0 { None } else { Some(-(n as i64)) }
}

/// The number of any digits.
#[cold]
fn long_not_below_zero(bytes: &[u8]) -> Option<i64>
    ensures value { IfSome result (λ n. number_from false (scan bytes.now) ≡ Some (of_integer n)) }
    ensures in_range { IfSome result (λ n. as_i64 (of_integer n) ≡ Some n) }
{
    Numeral::scan(bytes).to_i64(false)
}

/// The number of these digits.
#[inline(always)]
fn not_below_zero(bytes: &[u8]) -> Option<i64>
    ensures value { IfSome result (λ n. number_from false (scan bytes.now) ≡ Some (of_integer n)) }
    ensures in_range { IfSome result (λ n. as_i64 (of_integer n) ≡ Some n) }
{
    match few_digits(bytes) {
        Some(n) => Some(n as i64),
        None => long_not_below_zero(bytes),
    }
}

/// The `i64` of a number's text; `None` if it is a fraction, too large or `-0`.
#[inline(always)]
pub fn whole_of(text: &str) -> Option<i64>
    ensures value { IfSome result (λ n. number_of text.now ≡ Some (of_integer n)) }
    ensures in_range { IfSome result (λ n. as_i64 (of_integer n) ≡ Some n) }
{
    let bytes = text.as_bytes();
    if has_minus(bytes) {
        below_zero(&bytes[1..])
    } else {
        not_below_zero(bytes)
    }
}
