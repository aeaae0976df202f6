//! The first member of an object.
ghost use Rattle.std.specs.Prelude.{◌≡◌, ◌∷◌, ◌<◌, OnOk, IfOk, None, Err, ℕ, length, option_map};
ghost use Rattle.json.specs.Token.{key};
ghost use Rattle.json.specs.Json.{value, members};
ghost use Rattle.city_decimals.specs.internal.Objects.{IsFirstWritten};
ghost use Rattle.city_decimals.specs.declared.fault.DecimalsFault.TheVariants.{NotJson};

use super::tree::{decode_alone, decode_first};
use crate::fault::DecimalsFault;
use json::{Reader, Value, Writer};
use std::alloc::Global;

/// Writes the first member, decoded, behind the brace of its object; if it is alone, the decoding
/// of the whole object. Makes a tree of its value. Returns the name of the next member.
#[inline(never)]
pub(crate) fn decode_first_member<'a>(
    alloc: Global,
    name: &str,
    reader: &mut Reader<'a>,
    depth: usize,
    top: bool,
    out: &mut Writer,
) -> Result<Option<&'a str>, DecimalsFault>
    ensures before { OnOk result (out.new.before ≡ out.old.before) }
    ensures written { IfOk result (λ next. IsFirstWritten top depth name.now reader.old out.old.tokens
        (option_map (λ s. s.now) next) reader.new out.new.tokens) }
    ensures err { result ≡ Err NotJson
        → (n : ℕ) → length reader.old < n → members (value depth) n (key name.now ∷ reader.old) ≡ None }
{
    let value = Value::read(alloc, reader, depth)?;
    match reader.next_key()? {
        Some(next) => {
            decode_first(top, name, &value, out)?;
            Ok(Some(next))
        }
        None => {
            decode_alone(top, name, &value, out)?;
            Ok(None)
        }
    }
}
