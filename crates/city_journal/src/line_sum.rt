//! The sum of a commit's line, by which a torn one is known.
ghost use Rattle.std.specs.Prelude.{◌≡◌, ◌<◌, ◌++◌, OnOk};
ghost use Rattle.std.specs.Char.{digit_char};
ghost use Rattle.city_journal.specs.Sums.{hex_byte, hex_text, line_sum, sum_text};

use city_model::OutOfMemory;
use std::hash::{DefaultHasher, Hasher};

/// How many digits a line's sum has.
pub(crate) const DIGITS: usize = 16;

/// The sum of a line: SipHash-1-3 with the keys 0, of the bytes before its digits and then of those behind them.
/// Doesn't allocate.
#[tactic(auto, unfolding(crate::specs::Sums::line_sum))]
fn sum_of(before: &[u8], behind: &[u8]) -> u64
    ensures { result ≡ line_sum before.now behind.now }
{
    let mut hasher = DefaultHasher::new();
    hasher.write(before);
    hasher.write(behind);
    hasher.finish()
}

/// Appends the digits of a line's sum.
#[tactic(auto, unfolding(crate::specs::Sums::sum_text))]
pub(crate) fn push_sum(out: &mut Vec<u8>, before: &[u8], behind: &[u8]) -> Result<(), OutOfMemory>
    ensures { OnOk result (out.new.items ≡ out.old.items ++ sum_text before.now behind.now) }
{
    let bytes = sum_of(before, behind).to_be_bytes();
    push_hex(out, &bytes)
}

/// Appends the hexadecimal digits of these bytes, in lower case.
pub(crate) fn push_hex(out: &mut Vec<u8>, bytes: &[u8]) -> Result<(), OutOfMemory>
    ensures { OnOk result (out.new.items ≡ out.old.items ++ hex_text bytes.now) }
{
    for byte in bytes {
        push_byte(out, *byte)?;
    }
    Ok(())
}

/// Appends the two hexadecimal digits of a byte.
fn push_byte(out: &mut Vec<u8>, byte: u8) -> Result<(), OutOfMemory>
    ensures { OnOk result (out.new.items ≡ out.old.items ++ hex_byte byte) }
{
    let digits = [digit_of(byte / 16), digit_of(byte % 16)];
    out.extend_from_slice(&digits)?;
    Ok(())
}

/// The hexadecimal digit of a number below 16.
pub(crate) fn digit_of(n: u8) -> u8
    requires { n < 16 }
    ensures { result ≡ digit_char n }
{
    if n < 10 { b'0' + n } else { b'a' + (n - 10) }
}
