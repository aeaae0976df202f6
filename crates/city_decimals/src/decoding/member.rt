//! The value of a member that may have a form.
ghost use Rattle.std.specs.Prelude.{◌≡◌, OnOk, Some, None, Err};
ghost use Rattle.json.specs.Json.{value};
ghost use Rattle.json.specs.Tree.{json_tokens};
ghost use Rattle.city_decimals.specs.Decoded.{decoded, out_of_form};
ghost use Rattle.city_decimals.specs.internal.Streams.{written};
ghost use Rattle.city_decimals.specs.declared.fault.DecimalsFault.TheVariants.{NotJson};

use super::inner::inner;
use super::tree::decode_tree;
use crate::fault::DecimalsFault;
use json::{Reader, Value, Writer};
use std::alloc::Global;

/// Reads the value of a member of this name as a tree, and writes it decoded and out of its form.
#[inline(never)]
pub(crate) fn decode_member_tree(
    alloc: Global,
    name: &str,
    reader: &mut Reader<'_>,
    depth: usize,
    top: bool,
    out: &mut Writer,
) -> Result<(), DecimalsFault>
    ensures before { OnOk result (out.new.before ≡ out.old.before) }
    ensures ok { OnOk result (written (λ j. json_tokens (out_of_form top name.now j (decoded j)))
        out.old.tokens (value depth reader.old) ≡ Some (out.new.tokens, reader.new)) }
    ensures err { result ≡ Err NotJson → value depth reader.old ≡ None }
{
    let value = Value::read(alloc, reader, depth)?;
    decode_tree(inner(top, name, &value), out)?;
    Ok(())
}
