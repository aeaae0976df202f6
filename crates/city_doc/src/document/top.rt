//! The top of a document: its first wrong member.
ghost use Rattle.std.specs.Prelude.{◌≡◌, option_map};
ghost use Rattle.serde_json.specs.View.{view, members_view};
ghost use Rattle.city_doc.specs.document.Top.{is_transform};
ghost use Rattle.city_doc.specs.document.Top.{all_objects, are_all_objects, are_objects, are_vertices, wrong_member};

use city_members::kept::site::is_empty_object_or_absent;
use city_texts::is_text;
use city_tokens::{are_triples, triple_at};
use serde_json::{Map, Value};

fn is_transform(member: Option<&Value>) -> bool
    ensures { result ≡ is_transform (option_map (λ v. view v.now) member.entry) }
{
    match member {
        None => false,
        Some(value) => {
            triple_at(value, "scale").is_some() && triple_at(value, "translate").is_some()
        }
    }
}

fn are_objects(member: Option<&Value>) -> bool
    ensures { result ≡ are_objects (option_map (λ v. view v.now) member.entry) }
{
    are_all_objects(member.and_then(Value::as_object))
}

fn are_all_objects(members: Option<&Map<String, Value>>) -> bool
    ensures { result ≡ are_all_objects (option_map (λ m. members_view m.now.entries) members.entry) }
{
    match members {
        None => false,
        Some(members) => all_objects(members),
    }
}

fn all_objects(members: &Map<String, Value>) -> bool
    ensures { result ≡ all_objects (members_view members.now.entries) }
{
    for (_, member) in members.iter() {
        if !member.is_object() {
            return false;
        }
    }
    true
}

fn are_vertices(member: Option<&Value>) -> bool
    ensures { result ≡ are_vertices (option_map (λ v. view v.now) member.entry) }
{
    match member {
        None => false,
        Some(value) => are_triples(value),
    }
}

/// The first wrong member.
pub fn wrong_member(tree: &Value) -> Option<&'static str>
    ensures { option_map (λ s. s.now) result ≡ wrong_member (view tree.now) }
{
    if !is_text(tree.get("type"), "CityJSON") {
        Some("type")
    } else if !is_text(tree.get("version"), "2.0") {
        Some("version")
    } else if !is_transform(tree.get("transform")) {
        Some("transform")
    } else if !are_objects(tree.get("CityObjects")) {
        Some("CityObjects")
    } else if !are_vertices(tree.get("vertices")) {
        Some("vertices")
    } else if !is_empty_object_or_absent(tree.get("extensions")) {
        Some("extensions")
    } else {
        None
    }
}
