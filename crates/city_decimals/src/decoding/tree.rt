//! A tree, decoded.
ghost use Rattle.std.specs.Prelude.{◌≡◌, ◌∷◌, ◌++◌, false, OnOk, option_map, IfSome};
ghost use Rattle.json.specs.Token.{begin_object, key};
ghost use Rattle.json.specs.Json.{no_members, member};
ghost use Rattle.json.specs.Print.{IsNumber};
ghost use Rattle.json.specs.Tree.{json_tokens, items_tokens, HasNumbers, ItemsHaveNumbers, MembersHaveNumbers};
ghost use Rattle.json.specs.Value.{value_view, items_view, members_view};
ghost use Rattle.city_decimals.specs.Decoded.{number_in, number_under, decoded, decoded_items, out_of_form};
ghost use Rattle.city_decimals.specs.internal.Objects.{decoded_object};

use super::inner::inner;
use crate::OutOfMemory;
use crate::numbers::is_number;
use crate::shapes::is_tag;
use json::{Value, Writer};

/// Writes a decoded value.
#[cycle(decode)]
pub(crate) fn decode_tree(value: &Value<'_>, out: &mut Writer) -> Result<(), OutOfMemory>
    requires numbers { HasNumbers (value_view value.now) }
    ensures before { OnOk result (out.new.before ≡ out.old.before) }
    ensures tokens { OnOk result (out.new.tokens
        ≡ out.old.tokens ++ json_tokens (decoded (value_view value.now))) }
{
    match value {
        Value::Null => out.null(),
        Value::Bool(b) => out.boolean(*b),
        Value::Number(text) => out.number(text),
        Value::String(text) => out.string(text),
        Value::Array(items) => {
            out.begin_array()?;
            decode_tree_items(items, out)
        }
        Value::Object(members) => decode_tree_object(members, out),
    }
}

/// Writes decoded items, and the closing bracket.
#[cycle(decode)]
fn decode_tree_items(items: &Vec<Value<'_>>, out: &mut Writer) -> Result<(), OutOfMemory>
    requires numbers { ItemsHaveNumbers (items_view items.now.items) }
    ensures before { OnOk result (out.new.before ≡ out.old.before) }
    ensures tokens { OnOk result (out.new.tokens
        ≡ out.old.tokens ++ items_tokens (decoded_items (items_view items.now.items))) }
{
    for item in items {
        decode_tree(item, out)?;
    }
    out.end_array()
}

/// Writes the decoding of an object's members: an object, or the number they encode.
#[cycle(decode)]
fn decode_tree_object<'a>(
    members: &Vec<(&'a str, Value<'a>)>,
    out: &mut Writer,
) -> Result<(), OutOfMemory>
    requires numbers { MembersHaveNumbers (members_view members.now.items) }
    ensures before { OnOk result (out.new.before ≡ out.old.before) }
    ensures tokens { OnOk result (out.new.tokens
        ≡ out.old.tokens ++ json_tokens (decoded_object false (members_view members.now.items))) }
{
    if let Some(text) = number_in(members) {
        return out.number(text);
    }
    out.begin_object()?;
    for member in members {
        out.key(member.0)?;
        decode_tree(inner(false, member.0, &member.1), out)?;
    }
    out.end_object()
}

/// Writes the brace of an object and its first member, decoded and out of its form.
pub(super) fn decode_first(
    top: bool,
    name: &str,
    value: &Value<'_>,
    out: &mut Writer,
) -> Result<(), OutOfMemory>
    requires numbers { HasNumbers (value_view value.now) }
    ensures before { OnOk result (out.new.before ≡ out.old.before) }
    ensures tokens { OnOk result (out.new.tokens ≡ out.old.tokens ++ begin_object ∷ key name.now
        ∷ json_tokens (out_of_form top name.now (value_view value.now) (decoded (value_view value.now)))) }
{
    out.begin_object()?;
    out.key(name)?;
    decode_tree(inner(top, name, value), out)
}

/// Writes the decoding of a member alone: an object, or the number it encodes.
pub(super) fn decode_alone(
    top: bool,
    name: &str,
    value: &Value<'_>,
    out: &mut Writer,
) -> Result<(), OutOfMemory>
    requires numbers { HasNumbers (value_view value.now) }
    ensures before { OnOk result (out.new.before ≡ out.old.before) }
    ensures tokens { OnOk result (out.new.tokens ≡ out.old.tokens
        ++ json_tokens (decoded_object top (member name.now (value_view value.now) no_members))) }
{
    if let Some(text) = number_under(name, value) {
        return out.number(text);
    }
    decode_first(top, name, value, out)?;
    out.end_object()
}

/// The number encoded by the members.
fn number_in<'a>(members: &Vec<(&'a str, Value<'a>)>) -> Option<&'a str>
    ensures value { option_map (λ s. s.now) result ≡ number_in (members_view members.now.items) }
    ensures number { IfSome result (λ s. IsNumber s.now) }
{
    if members.len() != 1 {
        return None;
    }
    let member = &members[0];
    number_under(member.0, &member.1)
}

/// The number encoded by a member.
fn number_under<'a>(key: &str, value: &Value<'a>) -> Option<&'a str>
    ensures value { option_map (λ s. s.now) result ≡ number_under key.now (value_view value.now) }
    ensures number { IfSome result (λ s. IsNumber s.now) }
{
    match value {
        Value::String(text) => if is_tag(key) && is_number(text) {
            Some(*text)
        } else {
            None
        },
        _ => None,
    }
}
