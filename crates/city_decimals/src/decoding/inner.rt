//! The value of a member, out of its form.
ghost use Rattle.std.specs.Prelude.{◌≡◌};
ghost use Rattle.json.specs.Value.{value_view};
ghost use Rattle.city_decimals.specs.Shapes.{only};
ghost use Rattle.city_decimals.specs.internal.Inner.{front, inner};

use crate::shapes::{has_shield, is_tag, is_transform};
use json::Value;

/// The value to decode for a member: the one in its form.
pub(super) fn inner<'v, 'a>(top: bool, key: &str, value: &'v Value<'a>) -> &'v Value<'a>
    ensures { value_view result.now ≡ inner top key.now (value_view value.now) }
{
    if top && is_transform(key, value) {
        front(value)
    } else if has_shield(key, value) {
        only(value)
    } else {
        value
    }
}

/// The value of the first member, out of its array, if its name is the tag; any other value
/// unchanged.
fn front<'v, 'a>(value: &'v Value<'a>) -> &'v Value<'a>
    ensures { value_view result.now ≡ front (value_view value.now) }
{
    match value {
        Value::Object(members) => {
            if members.is_empty() {
                return value;
            }
            let member = &members[0];
            if is_tag(member.0) {
                only(&member.1)
            } else {
                value
            }
        }
        _ => value,
    }
}

/// The item of an array of one; any other value unchanged.
fn only<'v, 'a>(value: &'v Value<'a>) -> &'v Value<'a>
    ensures { value_view result.now ≡ only (value_view value.now) }
{
    match value {
        Value::Array(items) => if items.len() == 1 { &items[0] } else { value },
        _ => value,
    }
}
