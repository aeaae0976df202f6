//! Diagnostics of unreadable geometries.
use crate::diagnostic::Diagnostic;
use crate::quoted::Quoted;
use crate::shape::nesting::Nesting;
use city_model::OutOfMemory;
use city_model::shape_type::ShapeType;
use serde_json::Value;
use std::fmt::{self, Display, Formatter, Write};

const CURE: &str = "Repair the geometry; a lod is a text.";

/// A fault of a geometry.
#[derive(Clone, Copy)]
enum Wrong<'v> {
    NoObject,
    NoLod,
    LodNoText,
    NoType,
    TypeNoText,
    UnknownType(&'v str),
    NoBoundaries,
    /// The boundaries don't have the nesting of this type.
    Nested(ShapeType),
}

impl Wrong<'_> {
    /// The wrong part of the geometry.
    fn part(&self) -> &'static str {
        match self {
            Wrong::NoObject => "geometry",
            Wrong::NoLod | Wrong::LodNoText => "lod",
            Wrong::NoType | Wrong::TypeNoText | Wrong::UnknownType(_) => "type",
            Wrong::NoBoundaries | Wrong::Nested(_) => "boundaries",
        }
    }
}

/// Shows a geometry's number and its fault.
#[derive(Clone, Copy)]
struct Message<'v>(usize, Wrong<'v>);

impl Display for Message<'_> {
    fn fmt<W: Write>(&self, f: &mut Formatter<W>) -> fmt::Result {
        let n = self.0;
        match self.1 {
            Wrong::NoObject => write!(f, "Geometry {n} isn't an object."),
            Wrong::NoLod | Wrong::NoType | Wrong::NoBoundaries => {
                let part = self.1.part();
                write!(f, "Geometry {n} has no {part}.")
            }
            Wrong::LodNoText | Wrong::TypeNoText => {
                let part = self.1.part();
                write!(f, "The {part} of geometry {n} isn't a text.")
            }
            Wrong::UnknownType(kind) => {
                let kind = Quoted(kind);
                write!(f, "Geometry {n} is of type {kind}, which isn't read.")
            }
            Wrong::Nested(kind) => {
                let (kind, depth) = (kind.name(), Nesting::of(kind).depth());
                write!(
                    f,
                    "The boundaries of geometry {n}, a {kind}, aren't positions in {depth} arrays."
                )
            }
        }
    }
}

/// Tells the first unreadable geometry, and its wrong part.
pub fn tell_bad_geometry(object: &Value, diagnostic: &mut Diagnostic) -> Result<(), OutOfMemory> {
    let Some(geometry) = object.get("geometry") else {
        return Ok(());
    };
    let Some(geometries) = geometry.as_array() else {
        diagnostic.details.text("part", "geometry")?;
        return diagnostic.tell("Its geometry isn't an array.", CURE);
    };
    for number in 0..geometries.len() {
        if let Some(wrong) = wrong_with(&geometries[number]) {
            return tell(number, wrong, diagnostic);
        }
    }
    Ok(())
}

fn tell(number: usize, wrong: Wrong<'_>, diagnostic: &mut Diagnostic) -> Result<(), OutOfMemory> {
    write!(diagnostic.narrowed()?, "geometry {number}")?;
    diagnostic.details.number("geometry", number)?;
    diagnostic.details.text("part", wrong.part())?;
    if let Wrong::UnknownType(kind) = wrong {
        diagnostic.details.text("given", kind)?;
    }
    let message = Message(number, wrong);
    write!(diagnostic.told(CURE), "{message}")?;
    Ok(())
}

/// The first fault of a geometry, if any.
fn wrong_with(geometry: &Value) -> Option<Wrong<'_>> {
    if !geometry.is_object() {
        return Some(Wrong::NoObject);
    }
    match geometry.get("lod") {
        None => Some(Wrong::NoLod),
        Some(lod) if !lod.is_string() => Some(Wrong::LodNoText),
        Some(_) => wrong_with_type(geometry),
    }
}

/// The first fault of a geometry with a valid lod, if any.
fn wrong_with_type(geometry: &Value) -> Option<Wrong<'_>> {
    let Some(kind) = geometry.get("type") else {
        return Some(Wrong::NoType);
    };
    let Some(name) = kind.as_str() else {
        return Some(Wrong::TypeNoText);
    };
    let Some(kind) = ShapeType::of_name(name) else {
        return Some(Wrong::UnknownType(name));
    };
    match geometry.get("boundaries") {
        None => Some(Wrong::NoBoundaries),
        Some(boundaries) if !Nesting::of(kind).has(boundaries) => Some(Wrong::Nested(kind)),
        Some(_) => None,
    }
}
