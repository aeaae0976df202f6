//! The value of a member that may get a form.
ghost use Rattle.std.specs.Prelude.{◌≡◌, OnOk, Some, None, Err};
ghost use Rattle.json.specs.Json.{value};
ghost use Rattle.json.specs.Tree.{json_tokens};
ghost use Rattle.city_decimals.specs.Shapes.{form_of, in_form};
ghost use Rattle.city_decimals.specs.Encoded.{encoded};
ghost use Rattle.city_decimals.specs.internal.Streams.{written};
ghost use Rattle.city_decimals.specs.declared.fault.DecimalsFault.TheVariants.{NotJson};

use super::form::{begin_form, end_form};
use super::tree::encode_tree;
use crate::fault::DecimalsFault;
use crate::shapes::form_of;
use json::{Reader, Value, Writer};
use std::alloc::Global;

/// Reads the value of a member of this name as a tree, and writes it encoded and in its form.
#[inline(never)]
pub(crate) fn encode_member_tree(
    alloc: Global,
    key: &str,
    reader: &mut Reader<'_>,
    depth: usize,
    top: bool,
    out: &mut Writer,
) -> Result<(), DecimalsFault>
    ensures before { OnOk result (out.new.before ≡ out.old.before) }
    ensures ok { OnOk result (written (λ j. json_tokens (in_form (form_of top key.now j) (encoded j)))
        out.old.tokens (value depth reader.old) ≡ Some (out.new.tokens, reader.new)) }
    ensures err { result ≡ Err NotJson → value depth reader.old ≡ None }
{
    let value = Value::read(alloc, reader, depth)?;
    let form = form_of(top, key, &value);
    begin_form(form, out)?;
    encode_tree(&value, out)?;
    end_form(form, out)?;
    Ok(())
}
