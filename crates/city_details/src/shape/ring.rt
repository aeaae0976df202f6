//! Diagnostics of short rings, of rings with equal neighbours, and of surfaces without rings.
use crate::diagnostic::Diagnostic;
use crate::shape::place::{SurfacesPlace, narrow_to_ring};
use crate::shape::point_rings::{PointRing, rings_in_model, rings_in_tree, surfaces_in_model};
use crate::shape::points::Coordinates;
use crate::shape::walk::surfaces_of;
use city_model::OutOfMemory;
use city_model::object::{Geometry, Point};
use serde_json::Value;
use std::alloc::Global;
use std::fmt::{self, Display, Formatter, Write};

/// A fault of a ring.
#[derive(Clone, Copy)]
enum Wrong {
    /// This surface has no ring.
    NoRing(usize),
    /// It has only so many points.
    Short(usize),
    /// These two, by their places in the ring, are this point.
    Equal(usize, usize, Point),
}

impl Wrong {
    fn rule(&self) -> &'static str {
        match self {
            Wrong::NoRing(_) => "no ring",
            Wrong::Short(_) => "short ring",
            Wrong::Equal(_, _, _) => "equal neighbours",
        }
    }
}

impl Display for Wrong {
    fn fmt<W: Write>(&self, f: &mut Formatter<W>) -> fmt::Result {
        match *self {
            Wrong::NoRing(surface) => write!(f, "Surface {surface} has no ring."),
            Wrong::Short(points) => {
                write!(
                    f,
                    "The ring has {points} of the three points that it needs."
                )
            }
            Wrong::Equal(one, next, point) => {
                let point = Coordinates(point);
                write!(
                    f,
                    "The neighbours {one} and {next} of the ring are equal: {point}."
                )
            }
        }
    }
}

/// The faults of rings that are looked for.
#[derive(Clone, Copy, PartialEq, Eq)]
pub enum Sought {
    Any,
    /// Rings that are too short, and surfaces without rings.
    Short,
    /// Equal neighbours.
    Equal,
}

/// Tells the first ring that is too short or has equal neighbours, or the first surface without rings.
pub fn tell_bad_ring(
    alloc: Global,
    object: &Value,
    vertices: &[Point],
    diagnostic: &mut Diagnostic,
) -> Result<(), OutOfMemory> {
    let lists = surfaces_of(alloc, object)?;
    for surfaces in &lists {
        let rings = rings_in_tree(alloc, surfaces, vertices)?;
        if is_told(Sought::Any, &surfaces.place(), rings.as_slice(), diagnostic)? {
            return Ok(());
        }
    }
    Ok(())
}

/// Tells the first ring of these geometries with a sought fault.
pub fn tell_ring_in_model(
    alloc: Global,
    sought: Sought,
    geometries: &[Geometry],
    diagnostic: &mut Diagnostic,
) -> Result<(), OutOfMemory> {
    let lists = surfaces_in_model(alloc, geometries)?;
    for surfaces in &lists {
        let rings = rings_in_model(alloc, surfaces)?;
        if is_told(sought, &surfaces.place, rings.as_slice(), diagnostic)? {
            return Ok(());
        }
    }
    Ok(())
}

/// Tells the first ring of surfaces with a sought fault. Returns whether there is one.
fn is_told(
    sought: Sought,
    place: &SurfacesPlace<'_>,
    rings: &[PointRing],
    diagnostic: &mut Diagnostic,
) -> Result<bool, OutOfMemory> {
    for ring in rings {
        if let Some(wrong) = wrong_with(sought, ring) {
            narrow_to_ring(place, ring.surface, ring.ring, diagnostic)?;
            tell(wrong, diagnostic)?;
            return Ok(true);
        }
    }
    Ok(false)
}

fn tell(wrong: Wrong, diagnostic: &mut Diagnostic) -> Result<(), OutOfMemory> {
    diagnostic.details.text("rule", wrong.rule())?;
    match wrong {
        Wrong::NoRing(_) => {}
        Wrong::Short(points) => diagnostic.details.number("points", points)?,
        Wrong::Equal(_, _, point) => diagnostic.details.point("point", point)?,
    }
    write!(
        diagnostic.told("Drop repeated points, and rings that are too short."),
        "{wrong}"
    )?;
    Ok(())
}

/// The sought fault of a ring, if it has one.
fn wrong_with(sought: Sought, ring: &PointRing) -> Option<Wrong> {
    let short = too_short(ring);
    match sought {
        Sought::Short => short,
        Sought::Equal => equal_neighbours(ring.points.as_slice()),
        Sought::Any => short.or_else(|| equal_neighbours(ring.points.as_slice())),
    }
}

fn too_short(ring: &PointRing) -> Option<Wrong> {
    let points = ring.points.len();
    if ring.ring.is_none() {
        Some(Wrong::NoRing(ring.surface))
    } else if points < 3 {
        Some(Wrong::Short(points))
    } else {
        None
    }
}

/// The first point equal to the next one; the last point is followed by the first.
fn equal_neighbours(points: &[Point]) -> Option<Wrong> {
    for next in 1..points.len() {
        if points[next - 1] == points[next] {
            return Some(Wrong::Equal(next - 1, next, points[next]));
        }
    }
    match points {
        [first, .., last] if first == last => Some(Wrong::Equal(points.len() - 1, 0, *first)),
        _ => None,
    }
}
