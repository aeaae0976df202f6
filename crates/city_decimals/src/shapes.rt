//! The shapes of values with an encoding of their own.
ghost use Rattle.std.specs.Prelude.{◌≡◌, Some};
ghost use Rattle.json.specs.Find.{get};
ghost use Rattle.json.specs.Value.{value_view};
ghost use Rattle.city_decimals.specs.Shapes.{is_tag, is_triple, is_number_at, is_frame, is_transform};
ghost use Rattle.city_decimals.specs.Shapes.{is_attributes, is_text_or_array, is_text, is_single, is_fraction};
ghost use Rattle.city_decimals.specs.Shapes.{is_shielded, form_of, has_shield};
ghost use Rattle.city_decimals.specs.internal.Forms.{can_have_form};

use crate::numbers::is_whole;
use json::Value;

/// The name of the member with a number's text.
pub(crate) const TAG: &str = "#";

/// The form of a member.
#[derive(Clone, Copy, Drop)]
pub(crate) enum Form {
    /// As it is.
    Plain,
    /// In an array.
    Shielded,
    /// In a frame: the identity, with the value under the tag.
    Framed,
}

/// The form of the member of this name.
pub(crate) fn form_of(top: bool, key: &str, value: &Value<'_>) -> Form
    ensures { result ≡ form_of top key.now (value_view value.now) }
{
    if top && is_transform(key, value) {
        Form::Framed
    } else if is_shielded(key, value) {
        Form::Shielded
    } else {
        Form::Plain
    }
}

/// Whether a member can have a form by its name alone, other than under `attributes`.
#[inline(always)]
pub(crate) fn can_have_form(top: bool, key: &str) -> bool
    ensures { result ≡ can_have_form top key.now }
{
    (top && key == "transform") || is_tag(key)
}

pub(crate) fn is_tag(key: &str) -> bool
    ensures { result ≡ is_tag key.now }
{
    key == "#"
}

/// Whether this is the name of the attributes of an object.
#[inline(always)]
pub(crate) fn is_attributes(key: &str) -> bool
    ensures { result ≡ is_attributes key.now }
{
    key == "attributes"
}

/// Whether the member of this name is shielded.
fn is_shielded(key: &str, value: &Value<'_>) -> bool
    ensures { result ≡ is_shielded key.now (value_view value.now) }
{
    (is_tag(key) && is_text_or_array(value))
        || (is_attributes(key) && (is_fraction(value) || is_single(value)))
}

/// Whether the member of this name may be a shield.
pub(crate) fn has_shield(key: &str, value: &Value<'_>) -> bool
    ensures { result ≡ has_shield key.now (value_view value.now) }
{
    is_tag(key) || (is_attributes(key) && is_single(value))
}

/// Whether this is an array of one item other than a text.
fn is_single(value: &Value<'_>) -> bool
    ensures { result ≡ is_single (value_view value.now) }
{
    match value {
        Value::Array(items) => items.len() == 1 && !is_text(&items[0]),
        _ => false,
    }
}

pub(crate) fn is_text(value: &Value<'_>) -> bool
    ensures { result ≡ is_text (value_view value.now) }
{
    matches!(value, Value::String(_))
}

/// Whether this is a number that isn't whole.
fn is_fraction(value: &Value<'_>) -> bool
    ensures { result ≡ is_fraction (value_view value.now) }
{
    match value {
        Value::Number(text) => !is_whole(text),
        _ => false,
    }
}

fn is_text_or_array(value: &Value<'_>) -> bool
    ensures { result ≡ is_text_or_array (value_view value.now) }
{
    matches!(value, Value::String(_) | Value::Array(_))
}

/// Whether this is a `transform` with a scale and a translation.
pub(crate) fn is_transform(key: &str, value: &Value<'_>) -> bool
    ensures { result ≡ is_transform key.now (value_view value.now) }
{
    key == "transform" && is_frame(value)
}

fn is_frame(value: &Value<'_>) -> bool
    ensures { result ≡ is_frame (value_view value.now) }
{
    has_triple(value, "scale") && has_triple(value, "translate")
}

/// Whether the member of this name is an array of three numbers.
fn has_triple(value: &Value<'_>, name: &str) -> bool
    ensures { result ≡ is_triple (get name.now (value_view value.now)) }
{
    match value.get(name) {
        Some(found) => is_triple(found),
        None => false,
    }
}

/// Whether this is an array of three numbers.
fn is_triple(value: &Value<'_>) -> bool
    ensures { result ≡ is_triple (Some (value_view value.now)) }
{
    is_number_at(value, 0)
        && is_number_at(value, 1)
        && is_number_at(value, 2)
        && value.at(3).is_none()
}

fn is_number_at(value: &Value<'_>, index: usize) -> bool
    ensures { result ≡ is_number_at index (value_view value.now) }
{
    match value.at(index) {
        Some(item) => item.as_number().is_some(),
        None => false,
    }
}
