//! Reads the lists of ids of an object.
ghost use Rattle.std.specs.Prelude.{◌≡◌, IfOk, option_map, option_and_then, is_none};
ghost use Rattle.serde_json.specs.Find.{as_str};
ghost use Rattle.serde_json.specs.View.{view, items_view};
ghost use Rattle.city_tokens.specs.tree.Lists.{read_items, list_or_absent};
ghost use Rattle.city_doc.specs.document.CityFaults.{or_empty};
ghost use Rattle.city_doc.specs.object.Faults.{has_bad_list};

use crate::tree::texts::{has_other_item, texts_of};
use city_members::sequence::Sequence;
use city_members::text::Id;
use city_model::OutOfMemory;
use city_model::shared_ids::SharedIds;
use serde_json::Value;
use std::alloc::Global;

fn is_other_list(items: Option<&Vec<Value>>) -> bool
    ensures { result ≡ is_none (option_and_then (read_items as_str)
        (option_map (λ v. items_view v.now.items) items.entry)) }
{
    match items {
        None => true,
        Some(items) => has_other_item(items),
    }
}

/// Whether a member is there and isn't an array of texts.
fn is_bad_list(member: Option<&Value>) -> bool
    ensures { result ≡ is_none (list_or_absent as_str (option_map (λ v. view v.now) member.entry)) }
{
    match member {
        None => false,
        Some(value) => is_other_list(value.as_array()),
    }
}

/// Whether the parents or the children of an object are there and aren't an array of texts.
pub fn has_bad_list(object: &Value) -> bool
    ensures { result ≡ has_bad_list (view object.now) }
{
    is_bad_list(object.get("parents")) || is_bad_list(object.get("children"))
}

/// The ids of a member; consumes it.
fn ids_of(alloc: Global, member: Option<Value>) -> Result<Option<Sequence<Id>>, OutOfMemory>
    ensures { IfOk result (λ o. o ≡ list_or_absent as_str (option_map view member)) }
{
    match member {
        None => Ok(Some(Sequence::new(alloc))),
        Some(value) => texts_of(alloc, value),
    }
}

/// The ids of a member; consumes it. None if it is absent or isn't an array of texts.
pub fn ids_or_none(alloc: Global, member: Option<Value>) -> Result<SharedIds, OutOfMemory>
    ensures { IfOk result (λ ids. ids ≡ or_empty (list_or_absent as_str (option_map view member))) }
{
    match ids_of(alloc, member)? {
        Some(ids) => SharedIds::from_sequence(alloc, ids),
        None => Ok(SharedIds::new(alloc)),
    }
}
