//! The verb `members`: members kept at a place.
use crate::written::Written;
use city_members::kept::extra::Extra;
use city_members::kept::site::{AtAttributes, AtGeometry, AtObject, AtTop, AtTransform, Site};
use serde_json::{Map, Value};
use std::alloc::Global;

/// Answers whether the members of a text are kept at a place.
pub fn play_members(alloc: Global, place: &str, text: &[u8], answer: &mut Written) {
    match Value::from_slice(alloc, text) {
        Ok(Value::Object(members)) => answer.add_line(kept_at(place, members)),
        _ => answer.add_line("no members"),
    }
}

fn kept_at(place: &str, members: Map<String, Value>) -> &'static str {
    match place {
        "top" => kept::<AtTop>(members),
        "transform" => kept::<AtTransform>(members),
        "object" => kept::<AtObject>(members),
        "geometry" => kept::<AtGeometry>(members),
        "attributes" => kept::<AtAttributes>(members),
        _ => "no such place",
    }
}

fn kept<P: Site>(members: Map<String, Value>) -> &'static str {
    match Extra::<P>::new(members) {
        Ok(_) => "kept",
        Err(_) => "refused",
    }
}
