//! Arrays of texts.
ghost use Rattle.std.specs.Prelude.{◌≡◌, IfOk, is_none};
ghost use Rattle.serde_json.specs.Find.{as_str};
ghost use Rattle.serde_json.specs.View.{view, items_view};
ghost use Rattle.city_tokens.specs.tree.Lists.{read_items, list_of};

use crate::tree::values::{into_array, into_text};
use city_members::sequence::Sequence;
use city_members::text::Text;
use city_model::OutOfMemory;
use serde_json::Value;
use std::alloc::Global;

/// Whether an item isn't a text.
pub fn has_other_item(items: &Vec<Value>) -> bool
    ensures { result ≡ is_none (read_items as_str (items_view items.now.items)) }
{
    for item in items {
        if item.as_str().is_none() {
            return true;
        }
    }
    false
}

/// The texts of an array's items, if each is one; consumes them.
fn read_texts(alloc: Global, items: Vec<Value>) -> Result<Option<Sequence<Text>>, OutOfMemory>
    ensures { IfOk result (λ o. o ≡ read_items as_str (items_view items.items)) }
{
    let mut texts = Sequence::with_capacity(alloc, items.len())?;
    for item in items {
        match into_text(item) {
            Some(text) => texts.push(text)?,
            None => return Ok(None),
        }
    }
    Ok(Some(texts))
}

/// The texts of an array, if each item is one; consumes it.
pub fn texts_of(alloc: Global, value: Value) -> Result<Option<Sequence<Text>>, OutOfMemory>
    ensures { IfOk result (λ o. o ≡ list_of as_str (view value)) }
{
    match into_array(value) {
        Some(items) => read_texts(alloc, items),
        None => Ok(None),
    }
}
