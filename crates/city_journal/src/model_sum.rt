//! The sum of a model's text.
ghost use Rattle.std.specs.Prelude.{◌≡◌, ◌≢◌, ◌<◌, ◌++◌, ◌∷◌, [], ℕ, List, get_or, IfNone, IfOk, IfSome};
ghost use Rattle.std.specs.Prelude.{IsSomeAnd, OnOk};
ghost use Rattle.std.specs.Char.{digit_char};
ghost use Rattle.sha2.specs.Sha256.{sha256};
ghost use Rattle.city_journal.specs.Sums.{IsSum, hex_byte, hex_text};

use crate::line_sum::push_hex;
use city_model::OutOfMemory;
use sha2::{Digest, Sha256};
use std::alloc::Global;
use std::fmt::{self, Display, Formatter, Write};

/// How many digits a sum has.
pub(crate) const DIGITS: usize = 64;

/// The SHA-256 of a model's text. It shows as 64 hexadecimal digits.
#[derive(Clone, Copy, Debug, Drop, PartialEq, Eq)]
pub struct ModelSum {
    bytes: [u8; 32],
}

impl ModelSum {
    /// The sum of a text. Doesn't allocate.
    pub fn of(text: &[u8]) -> ModelSum
        ensures { result.bytes ≡ sha256 text.now }
    {
        ModelSum {
            bytes: Sha256::digest(text),
        }
    }

    /// Appends the sum's digits, in lower case.
    pub(crate) fn push_to(&self, out: &mut Vec<u8>) -> Result<(), OutOfMemory>
        ensures { OnOk result (out.new.items ≡ out.old.items ++ hex_text self.now.bytes) }
    {
        push_hex(out, &self.bytes)
    }

    /// The sum's bytes.
    pub(crate) fn to_vec(&self, alloc: Global) -> Result<Vec<u8>, OutOfMemory>
        ensures bytes { IfOk result (λ v. v.items ≡ self.now.bytes) }
        ensures sum { IfOk result (λ v. IsSum v.items) }
    {
        let bytes = Vec::from_array(alloc, self.bytes)?;
        show_range(bytes.as_slice());
        Ok(bytes)
    }

    /// The sum of these digits, in lower case, if they are 64. Doesn't allocate.
    pub fn from_digits(digits: &[u8]) -> Option<ModelSum>
        ensures found { IfSome result (λ s. digits.now ≡ hex_text s.bytes) }
        ensures written { (sum : List ℕ) → IsSum sum → digits.now ≡ hex_text sum
            → IsSomeAnd result (λ s. s.bytes ≡ sum) }
    {
        if digits.len() != DIGITS {
            return None;
        }
        let mut bytes = [0; 32];
        for i in 0..32_usize {
            bytes[i] = byte_of(digits[2 * i], digits[2 * i + 1])?;
        }
        Some(ModelSum { bytes })
    }
}

impl Display for ModelSum {
    fn fmt<W: Write>(&self, f: &mut Formatter<W>) -> fmt::Result {
        for byte in &self.bytes {
            write!(f, "{byte:02x}")?;
        }
        Ok(())
    }
}

/// Does nothing: contracts see here that bytes are below 256.
fn show_range(bytes: &[u8])
    ensures { (k : ℕ) → get_or bytes.now k 0 < 256 }
{
    let _bytes = bytes;
}

/// The byte of these two hexadecimal digits in lower case.
fn byte_of(high: u8, low: u8) -> Option<u8>
    ensures found { IfSome result (λ b. hex_byte b ≡ high ∷ low ∷ []) }
    ensures other { IfNone result ((b : ℕ) → b < 256 → hex_byte b ≢ high ∷ low ∷ []) }
{
    let high = value_of(high)?;
    let low = value_of(low)?;
    Some(16 * high + low)
}

/// What a hexadecimal digit in lower case stands for.
fn value_of(digit: u8) -> Option<u8>
    ensures small { IfSome result (λ n. n < 16) }
    ensures found { IfSome result (λ n. digit_char n ≡ digit) }
    ensures other { IfNone result ((n : ℕ) → n < 16 → digit_char n ≢ digit) }
{
    match digit {
        b'0'..=b'9' => Some(digit - b'0'),
        b'a'..=b'f' => Some(digit - b'a' + 10),
        _ => None,
    }
}
