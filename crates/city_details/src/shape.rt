//! Diagnostics of an object's type and geometry, in a document or in a command.
//!
//! - `nesting`: the nesting of boundaries; `walk`: their lists of surfaces and their rings; `place`: their places
//! - `geometry`: unreadable geometries; `position`: positions without a vertex
//! - `point_rings`: rings by their points, in a tree or in a model
//! - `ring`: short rings, and rings with equal neighbours; `shell`: open shells
mod geometry;
mod nesting;
mod place;
mod point_rings;
mod points;
mod position;
pub mod ring;
pub mod shell;
mod walk;

use crate::diagnostic::Diagnostic;
use crate::quoted::Quoted;
use city_members::kept::site::has_location;
use city_model::OutOfMemory;
pub use geometry::tell_bad_geometry;
pub use position::tell_bad_vertex;
use serde_json::Value;
use std::fmt::Write;
use walk::geometries_of;

const USE_TYPE: &str = "Use a type of CityJSON 2.0, or GenericCityObject.";

/// Says whether an object's type is missing, no text, or unknown.
pub fn tell_unknown_type(object: &Value, diagnostic: &mut Diagnostic) -> Result<(), OutOfMemory> {
    let Some(kind) = object.get("type") else {
        return diagnostic.tell("It has no type.", USE_TYPE);
    };
    let Some(kind) = kind.as_str() else {
        return diagnostic.tell("Its type isn't a text.", USE_TYPE);
    };
    diagnostic.details.text("given", kind)?;
    let why = if kind == "CityObjectGroup" || kind.starts_with("+") {
        "never read"
    } else {
        "no type of CityJSON 2.0"
    };
    let kind = Quoted(kind);
    write!(diagnostic.told(USE_TYPE), "Its type {kind} is {why}.")?;
    Ok(())
}

/// Tells the first unsupported part of an object: its address's location, or a geometry.
pub fn tell_unsupported(object: &Value, diagnostic: &mut Diagnostic) -> Result<(), OutOfMemory> {
    if has_location(object.get("address")) {
        diagnostic.details.text("name", "location")?;
        return diagnostic.tell(
            "Its address has a location, which is never read.",
            "Drop the location.",
        );
    }
    match unsupported_geometry(object) {
        Some((number, kind)) => tell_unsupported_geometry(number, kind, diagnostic),
        None => Ok(()),
    }
}

fn tell_unsupported_geometry(
    number: usize,
    kind: &str,
    diagnostic: &mut Diagnostic,
) -> Result<(), OutOfMemory> {
    write!(diagnostic.narrowed()?, "geometry {number}")?;
    diagnostic.details.number("geometry", number)?;
    diagnostic.details.text("name", kind)?;
    write!(
        diagnostic.told("Drop it, or triangulate it into a MultiSurface."),
        "Geometry {number} is a {kind}, which is never read."
    )?;
    Ok(())
}

/// Whether an object has an unsupported part.
pub fn is_unsupported(object: &Value) -> bool {
    has_location(object.get("address")) || unsupported_geometry(object).is_some()
}

/// The number and the type of the first geometry of an unsupported type.
fn unsupported_geometry(object: &Value) -> Option<(usize, &'static str)> {
    let geometries = geometries_of(object);
    for number in 0..geometries.len() {
        if let Some(kind) = unsupported_type(&geometries[number]) {
            return Some((number, kind));
        }
    }
    None
}

/// The type of a geometry, if it is unsupported.
fn unsupported_type(geometry: &Value) -> Option<&'static str> {
    match geometry.get("type")?.as_str()? {
        "MultiPoint" => Some("MultiPoint"),
        "MultiLineString" => Some("MultiLineString"),
        "GeometryInstance" => Some("GeometryInstance"),
        _ => None,
    }
}
