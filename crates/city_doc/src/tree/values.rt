//! Texts and items of values: looked up, taken out, and copied.
ghost use Rattle.std.specs.Prelude.{◌≡◌, IfOk, map, option_map};
ghost use Rattle.serde_json.specs.Find.{as_str, as_array};
ghost use Rattle.serde_json.specs.View.{view, items_view};
ghost use Rattle.city_tokens.specs.tree.Lists.{array_of};
ghost use Rattle.city_tokens.specs.tree.Members.{text_at};

use city_members::text::Text;
use city_model::OutOfMemory;
use serde_json::Value;
use std::alloc::Global;

/// The text of a member, if it is one.
pub fn text_at<'v>(object: &'v Value, name: &str) -> Option<&'v str>
    ensures { option_map (λ s. s.now) result ≡ text_at name.now (view object.now) }
{
    object.get(name)?.as_str()
}

/// The text of a value; consumes it.
pub fn into_text(value: Value) -> Option<Text>
    ensures { result ≡ as_str (view value) }
{
    match value {
        Value::String(text) => Some(Text::new(text)),
        _ => None,
    }
}

/// The items of an array; consumes it.
pub fn into_array(value: Value) -> Option<Vec<Value>>
    ensures items { option_map (λ v. items_view v.items) result ≡ as_array (view value) }
    ensures list { option_map (λ v. map view v.items) result ≡ array_of (view value) }
{
    match value {
        Value::Array(items) => Some(items),
        _ => None,
    }
}

/// A copy of a name.
pub fn to_text(alloc: Global, name: &str) -> Result<Text, OutOfMemory>
    ensures { IfOk result (λ text. text ≡ name.now) }
{
    Ok(Text::new(name.to_string(alloc)?))
}
