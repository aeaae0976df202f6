//! Points of rings, and in messages.
use city_model::OutOfMemory;
use city_model::object::Point;
use serde_json::Value;
use std::alloc::Global;
use std::fmt::{self, Display, Formatter, Write};

/// Shows a point as an array of its coordinates.
#[derive(Clone, Copy)]
pub struct Coordinates(pub Point);

impl Display for Coordinates {
    fn fmt<W: Write>(&self, f: &mut Formatter<W>) -> fmt::Result {
        let Point { x, y, z } = self.0;
        write!(f, "[{x},{y},{z}]")
    }
}

/// The points at a ring's positions, without positions out of range.
pub fn points_of(
    alloc: Global,
    positions: &[Value],
    vertices: &[Point],
) -> Result<Vec<Point>, OutOfMemory> {
    let mut points = Vec::with_capacity(alloc, positions.len())?;
    for position in positions {
        if let Some(point) = point_of(position, vertices) {
            points.push(point)?;
        }
    }
    Ok(points)
}

fn point_of(position: &Value, vertices: &[Point]) -> Option<Point> {
    let position = usize::try_from(position.as_i64()?).ok()?;
    vertices.get(position).copied()
}
