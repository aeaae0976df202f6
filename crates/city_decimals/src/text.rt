//! Bytes as text.
ghost use Rattle.std.specs.Prelude.{◌≡◌, IfOk, IfErr};
ghost use Rattle.std.specs.Bool.{OnTrue};
ghost use Rattle.std.specs.Str.{IsUtf8};
ghost use Rattle.city_decimals.specs.internal.Newlines.{IsBody};
ghost use Rattle.city_decimals.specs.declared.fault.DecimalsFault.TheVariants.{NotJson};

use crate::fault::DecimalsFault;
use simdutf8::compat::from_utf8;

/// The bytes as text.
pub(crate) fn text_of(bytes: &[u8]) -> Result<&str, DecimalsFault>
    ensures ok { IfOk result (λ text. (text.now ≡ bytes.now) × IsUtf8 bytes.now) }
    ensures err { IfErr result (λ f. (f ≡ NotJson) × ¬ IsUtf8 bytes.now) }
{
    match from_utf8(bytes) {
        Ok(text) => Ok(text),
        Err(_) => Err(DecimalsFault::NotJson),
    }
}

/// The text without the newline at its end, if it has one.
pub(crate) fn without_newline(text: &str) -> &str
    ensures { IsBody text.now result.now }
{
    let bytes = text.as_bytes();
    if bytes.is_empty() || bytes[bytes.len() - 1] != b'\n' {
        return text;
    }
    match text.get(0..text.len() - 1) {
        Some(body) => body,
        None => text,
    }
}

/// Whether the bytes are text.
pub(crate) fn is_text(bytes: &[u8]) -> bool
    ensures { OnTrue result (IsUtf8 bytes.now) }
{
    match text_of(bytes) {
        Ok(_) => true,
        Err(_) => false,
    }
}
