//! Diagnostics of open shells, with their open edges.
ghost use Rattle.std.specs.Prelude.{◌<◌, length};

use crate::details::Details;
use crate::diagnostic::Diagnostic;
use crate::shape::place::{SurfacesPlace, narrow_to_surfaces};
use crate::shape::point_rings::{PointRing, rings_in_model, rings_in_tree, surfaces_in_model};
use crate::shape::points::Coordinates;
use crate::shape::walk::surfaces_of;
use city_model::OutOfMemory;
use city_model::object::{Geometry, Point};
use serde_json::Value;
use std::alloc::Global;
use std::fmt::Write;

/// Most open edges told one by one; the others are counted.
const MOST_TOLD: usize = 100;

/// A point of a ring and the next one.
type Edge = (Point, Point);

/// The open edges of a shell.
#[derive(Drop)]
struct OpenEdges {
    first: Option<Edge>,
    count: usize,
    /// The first ones, with their surfaces and rings.
    told: Vec<Details>,
}

/// Tells the first open shell, and its open edges.
pub fn tell_open_shell(
    alloc: Global,
    object: &Value,
    vertices: &[Point],
    diagnostic: &mut Diagnostic,
) -> Result<(), OutOfMemory> {
    let lists = surfaces_of(alloc, object)?;
    for surfaces in &lists {
        if surfaces.shell.is_some() {
            let rings = rings_in_tree(alloc, surfaces, vertices)?;
            if is_told(alloc, &surfaces.place(), rings.as_slice(), diagnostic)? {
                return Ok(());
            }
        }
    }
    Ok(())
}

/// Tells the first open shell of these geometries.
pub fn tell_shell_in_model(
    alloc: Global,
    geometries: &[Geometry],
    diagnostic: &mut Diagnostic,
) -> Result<(), OutOfMemory> {
    let lists = surfaces_in_model(alloc, geometries)?;
    for surfaces in &lists {
        if surfaces.place.shell.is_some() {
            let rings = rings_in_model(alloc, surfaces)?;
            if is_told(alloc, &surfaces.place, rings.as_slice(), diagnostic)? {
                return Ok(());
            }
        }
    }
    Ok(())
}

/// Tells a shell with its open edges. Returns whether it has any.
fn is_told(
    alloc: Global,
    place: &SurfacesPlace<'_>,
    rings: &[PointRing],
    diagnostic: &mut Diagnostic,
) -> Result<bool, OutOfMemory> {
    let edges = open_edges(alloc, rings)?;
    if edges.count == 0 {
        return Ok(false);
    }
    narrow_to_surfaces(place, diagnostic)?;
    tell(edges, diagnostic)?;
    Ok(true)
}

fn tell(edges: OpenEdges, diagnostic: &mut Diagnostic) -> Result<(), OutOfMemory> {
    let OpenEdges { first, count, told } = edges;
    diagnostic.details.list("edges", told)?;
    if count > MOST_TOLD {
        diagnostic.details.number("more", count - MOST_TOLD)?;
    }
    let Some((from, to)) = first else {
        return Ok(());
    };
    let (from, to) = (Coordinates(from), Coordinates(to));
    write!(
        diagnostic.told(
            "Close it, turn the face that is the wrong way round, or make it a MultiSurface."
        ),
        "The shell has {count} open edges, the first from {from} to {to}."
    )?;
    Ok(())
}

/// Returns the open edges of a shell. An edge is closed if it and its reverse occur once each.
fn open_edges(alloc: Global, rings: &[PointRing]) -> Result<OpenEdges, OutOfMemory> {
    let edges = sorted_edges(alloc, rings)?;
    let mut found = OpenEdges {
        first: None,
        count: 0,
        told: Vec::new(alloc),
    };
    for ring in rings {
        push_open(alloc, ring, edges.as_slice(), &mut found)?;
    }
    Ok(found)
}

/// All edges of these rings, in order.
fn sorted_edges(alloc: Global, rings: &[PointRing]) -> Result<Vec<Edge>, OutOfMemory> {
    let mut edges = Vec::new(alloc);
    for ring in rings {
        push_edges(ring.points.as_slice(), &mut edges)?;
    }
    edges.sort_unstable();
    Ok(edges)
}

/// Adds the edges of a ring.
fn push_edges(points: &[Point], edges: &mut Vec<Edge>) -> Result<(), OutOfMemory> {
    for at in 0..points.len() {
        edges.push(edge_at(points, at))?;
    }
    Ok(())
}

/// The edge from a point of a ring to the next one.
fn edge_at(points: &[Point], at: usize) -> Edge
    requires { at < length points.now }
{
    if at + 1 < points.len() {
        (points[at], points[at + 1])
    } else {
        (points[at], points[0])
    }
}

/// Adds the open edges of a ring, by the sorted edges of all rings.
fn push_open(
    alloc: Global,
    ring: &PointRing,
    edges: &[Edge],
    found: &mut OpenEdges,
) -> Result<(), OutOfMemory> {
    let points = ring.points.as_slice();
    for at in 0..points.len() {
        let edge = edge_at(points, at);
        if is_open(edges, edge) {
            push_edge(alloc, ring, edge, found)?;
        }
    }
    Ok(())
}

fn push_edge(
    alloc: Global,
    ring: &PointRing,
    edge: Edge,
    found: &mut OpenEdges,
) -> Result<(), OutOfMemory> {
    if found.first.is_none() {
        found.first = Some(edge);
    }
    found.count = found.count.saturating_add(1);
    if found.count <= MOST_TOLD {
        let (from, to) = edge;
        let mut details = Details::new(alloc);
        details.point("from", from)?;
        details.point("to", to)?;
        details.number("surface", ring.surface)?;
        details.number("ring", ring.ring.unwrap_or(0))?;
        found.told.push(details)?;
    }
    Ok(())
}

fn is_open(edges: &[Edge], edge: Edge) -> bool {
    let (from, to) = edge;
    !occurs_once(edges, edge) || !occurs_once(edges, (to, from))
}

/// Whether an edge stands once among sorted ones.
fn occurs_once(edges: &[Edge], edge: Edge) -> bool {
    match edges.binary_search(&edge) {
        Err(_) => false,
        Ok(at) => !(at > 0 && edges[at - 1] == edge) && edges.get(at + 1) != Some(&edge),
    }
}
