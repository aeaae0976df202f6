//! Diagnostics of positions without a vertex.
use crate::diagnostic::Diagnostic;
use crate::shape::place::narrow_to_ring;
use crate::shape::walk::{Surfaces, rings_of, surfaces_of};
use city_model::OutOfMemory;
use serde_json::Value;
use std::alloc::Global;
use std::fmt::Write;

const CURE: &str = "Repair the positions.";

/// A position of a ring, and its place in it.
#[derive(Clone, Copy)]
struct Found {
    item: usize,
    position: i64,
}

/// Tells the first position out of the range of `count` vertices.
pub fn tell_bad_vertex(
    alloc: Global,
    object: &Value,
    count: usize,
    diagnostic: &mut Diagnostic,
) -> Result<(), OutOfMemory> {
    let lists = surfaces_of(alloc, object)?;
    for surfaces in &lists {
        if is_told(alloc, surfaces, count, diagnostic)? {
            return Ok(());
        }
    }
    Ok(())
}

/// Tells the first such position of surfaces. Returns whether there is one.
fn is_told(
    alloc: Global,
    surfaces: &Surfaces<'_>,
    count: usize,
    diagnostic: &mut Diagnostic,
) -> Result<bool, OutOfMemory> {
    let rings = rings_of(alloc, surfaces)?;
    for ring in &rings {
        if let Some(found) = in_ring(ring.positions, count) {
            narrow_to_ring(&surfaces.place(), ring.surface, ring.ring, diagnostic)?;
            tell(found, count, diagnostic)?;
            return Ok(true);
        }
    }
    Ok(false)
}

fn tell(found: Found, count: usize, diagnostic: &mut Diagnostic) -> Result<(), OutOfMemory> {
    let Found { item, position } = found;
    diagnostic.details.number("item", item)?;
    diagnostic.details.integer("position", position)?;
    diagnostic.details.number("vertices", count)?;
    if position < 0 {
        write!(
            diagnostic.told(CURE),
            "Item {item} of the ring is {position}, but no position is negative."
        )?;
        return Ok(());
    }
    write!(
        diagnostic.told(CURE),
        "Item {item} of the ring is {position}, but there are {count} vertices, from 0 on."
    )?;
    Ok(())
}

/// The first position out of the range of `count` vertices.
fn in_ring(positions: &[Value], count: usize) -> Option<Found> {
    for (item, position) in positions.iter().enumerate() {
        if let Some(position) = position.as_i64() {
            if !is_below(position, count) {
                return Some(Found { item, position });
            }
        }
    }
    None
}

fn is_below(position: i64, count: usize) -> bool {
    match usize::try_from(position) {
        Ok(position) => position < count,
        Err(_) => false,
    }
}
