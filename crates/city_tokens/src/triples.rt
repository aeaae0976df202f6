//! Reads three whole numbers, and recognises lists of them.
ghost use Rattle.std.specs.Prelude.{◌≡◌, option_map};
ghost use Rattle.serde_json.specs.View.{view, items_view};
ghost use Rattle.city_tokens.specs.tree.Triples.{triple_of, all_triples, are_all_triples, are_triples};

use serde_json::Value;

/// The numbers of an array of three whole ones.
pub fn triple_of(value: &Value) -> Option<[i64; 3]>
    ensures { result ≡ triple_of (view value.now) }
{
    if value.get(3).is_some() {
        return None;
    }
    let x = value.get(0)?.as_i64()?;
    let y = value.get(1)?.as_i64()?;
    let z = value.get(2)?.as_i64()?;
    Some([x, y, z])
}

/// Whether a value is an array of arrays of three whole numbers.
pub fn are_triples(value: &Value) -> bool
    ensures { result ≡ are_triples (view value.now) }
{
    are_all_triples(value.as_array())
}

fn are_all_triples(items: Option<&Vec<Value>>) -> bool
    ensures { result ≡ are_all_triples (option_map (λ v. items_view v.now.items) items.entry) }
{
    match items {
        None => false,
        Some(items) => all_triples(items),
    }
}

fn all_triples(items: &Vec<Value>) -> bool
    ensures { result ≡ all_triples (items_view items.now.items) }
{
    for item in items {
        if triple_of(item).is_none() {
            return false;
        }
    }
    true
}
