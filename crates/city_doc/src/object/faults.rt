//! The faults of the tree of one object.
ghost use Rattle.std.specs.Prelude.{◌≡◌, option_map, option_and_then, codes};
ghost use Rattle.std.specs.List.{list_any};
ghost use Rattle.std.specs.Str.{bytes_eq};
ghost use Rattle.serde_json.specs.Find.{get, as_array};
ghost use Rattle.serde_json.specs.View.{view, items_view};
ghost use Rattle.city_tokens.specs.object.Bodies.{type_of};
ghost use Rattle.city_doc.specs.object.Faults.{unsupported_types, unsupported_type, first_unsupported};
ghost use Rattle.city_doc.specs.object.Faults.{unsupported_name, is_bad_geometry, has_bad_vertex};

use crate::shape::form::are_geometries;
use crate::shape::nested::{AnyNumber, PositionBelow};
use crate::tree::values::text_at;
use city_members::kept::site::has_location;
use city_model::object_type::{ObjectType, type_named};
use serde_json::Value;

/// The type of an object, if it is a known one.
pub fn type_of(object: &Value) -> Option<ObjectType>
    ensures { result ≡ type_of (view object.now) }
{
    type_named(text_at(object, "type")?)
}

/// Whether a geometry of this type isn't supported.
fn is_unsupported(kind: &str) -> bool
    ensures { result ≡ list_any (bytes_eq kind.now) unsupported_types }
{
    matches!(kind, "MultiPoint" | "MultiLineString" | "GeometryInstance")
}

fn unsupported_type(geometry: &Value) -> Option<&str>
    ensures { option_map (λ s. s.now) result ≡ unsupported_type (view geometry.now) }
{
    let kind = text_at(geometry, "type")?;
    if is_unsupported(kind) {
        Some(kind)
    } else {
        None
    }
}

fn first_unsupported(geometries: &Vec<Value>) -> Option<&str>
    ensures { option_map (λ s. s.now) result ≡ first_unsupported (items_view geometries.now.items) }
{
    for geometry in geometries {
        if let Some(kind) = unsupported_type(geometry) {
            return Some(kind);
        }
    }
    None
}

/// The items of an object's geometry, if it is an array.
fn geometries_in(object: &Value) -> Option<&Vec<Value>>
    ensures { option_map (λ v. items_view v.now.items) result
        ≡ option_and_then as_array (get (codes "geometry") (view object.now)) }
{
    object.get("geometry")?.as_array()
}

/// The first unsupported thing in an object: a `location` in its address, or the type of a geometry.
pub fn unsupported_name(object: &Value) -> Option<&str>
    ensures { option_map (λ s. s.now) result ≡ unsupported_name (view object.now) }
{
    if has_location(object.get("address")) {
        return Some("location");
    }
    first_unsupported(geometries_in(object)?)
}

/// Whether an object has a geometry of a wrong form, whatever its positions.
pub fn is_bad_geometry(object: &Value) -> bool
    ensures { result ≡ is_bad_geometry (view object.now) }
{
    !are_geometries(&AnyNumber, object.get("geometry"))
}

/// Whether a position in an object's geometry is negative or isn't less than the count; of an object
/// with a bad geometry it is true too.
pub fn has_bad_vertex(count: usize, object: &Value) -> bool
    ensures { result ≡ has_bad_vertex count (view object.now) }
{
    !are_geometries(&PositionBelow(count), object.get("geometry"))
}
