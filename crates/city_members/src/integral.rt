//! Whether every number of a tree is an `i64`.
ghost use Rattle.std.specs.Prelude.{◌≡◌};
ghost use Rattle.serde_json.specs.View.{view, items_view, members_view};
ghost use Rattle.city_members.specs.Integral.{is_integral, items_integral, members_integral};

use crate::kept::size::Size;
use serde_json::{Map, Value};

/// Whether every number of the tree is an `i64`.
pub fn is_integral(value: &Value) -> bool
    ensures { result ≡ is_integral (view value.now) }
{
    let mut size = Size::new();
    is_integral_in(value, &mut size)
}

/// Whether every number of the tree is an `i64`. If so, its size is counted.
#[cycle(integral)]
fn is_integral_in(value: &Value, size: &mut Size) -> bool
    ensures { result ≡ is_integral (view value.now) }
{
    match value {
        Value::Number(number) => number.is_i64(),
        Value::Array(items) => are_integral(items, size),
        Value::Object(members) => have_integral(members, size),
        Value::String(text) => {
            size.count_text(text.as_str());
            true
        }
        Value::Null | Value::Bool(_) => true,
    }
}

#[cycle(integral)]
fn are_integral(items: &Vec<Value>, size: &mut Size) -> bool
    ensures { result ≡ items_integral (items_view items.now.items) }
{
    size.count_items(items.len());
    for item in items {
        if !is_integral_in(item, size) {
            return false;
        }
    }
    true
}

/// Whether every number in the members is an `i64`. If so, their size is counted.
#[cycle(integral)]
pub fn have_integral(members: &Map<String, Value>, size: &mut Size) -> bool
    ensures { result ≡ members_integral (members_view members.now.entries) }
{
    for (name, member) in members.iter() {
        size.count_member(name.as_str());
        if !is_integral_in(member, size) {
            return false;
        }
    }
    true
}
