//! A tree, encoded.
ghost use Rattle.std.specs.Prelude.{◌≡◌, ◌++◌, false, OnOk};
ghost use Rattle.json.specs.Tree.{json_tokens, items_tokens, members_tokens, HasNumbers, ItemsHaveNumbers};
ghost use Rattle.json.specs.Tree.{MembersHaveNumbers};
ghost use Rattle.json.specs.Value.{value_view, items_view, members_view};
ghost use Rattle.city_decimals.specs.Encoded.{encoded, encoded_items, encoded_members};

use super::form::{begin_form, end_form};
use super::number::encode_number;
use crate::OutOfMemory;
use crate::shapes::form_of;
use json::{Value, Writer};

/// Writes an encoded value.
#[cycle(encode)]
pub(crate) fn encode_tree(value: &Value<'_>, out: &mut Writer) -> Result<(), OutOfMemory>
    requires numbers { HasNumbers (value_view value.now) }
    ensures before { OnOk result (out.new.before ≡ out.old.before) }
    ensures tokens { OnOk result (out.new.tokens
        ≡ out.old.tokens ++ json_tokens (encoded (value_view value.now))) }
{
    match value {
        Value::Null => out.null(),
        Value::Bool(b) => out.boolean(*b),
        Value::Number(text) => encode_number(text, out),
        Value::String(text) => out.string(text),
        Value::Array(items) => {
            out.begin_array()?;
            encode_tree_items(items, out)
        }
        Value::Object(members) => {
            out.begin_object()?;
            encode_tree_members(members, out)
        }
    }
}

/// Writes encoded items, and the closing bracket.
#[cycle(encode)]
fn encode_tree_items(items: &Vec<Value<'_>>, out: &mut Writer) -> Result<(), OutOfMemory>
    requires numbers { ItemsHaveNumbers (items_view items.now.items) }
    ensures before { OnOk result (out.new.before ≡ out.old.before) }
    ensures tokens { OnOk result (out.new.tokens
        ≡ out.old.tokens ++ items_tokens (encoded_items (items_view items.now.items))) }
{
    for item in items {
        encode_tree(item, out)?;
    }
    out.end_array()
}

/// Writes encoded members, and the closing brace.
#[cycle(encode)]
fn encode_tree_members(
    members: &Vec<(&str, Value<'_>)>,
    out: &mut Writer,
) -> Result<(), OutOfMemory>
    requires numbers { MembersHaveNumbers (members_view members.now.items) }
    ensures before { OnOk result (out.new.before ≡ out.old.before) }
    ensures tokens { OnOk result (out.new.tokens
        ≡ out.old.tokens ++ members_tokens (encoded_members false (members_view members.now.items))) }
{
    for member in members {
        out.key(member.0)?;
        let form = form_of(false, member.0, &member.1);
        begin_form(form, out)?;
        encode_tree(&member.1, out)?;
        end_form(form, out)?;
    }
    out.end_object()
}
