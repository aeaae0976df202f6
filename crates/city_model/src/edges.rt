//! The directed edges of a shell (CityJSON 2.0, section 3.2).
ghost use Rattle.std.specs.Prelude.{◌≡◌, [], ◌∷◌, ◌++◌, map, IfOk, OnOk};
ghost use Rattle.city_model.specs.Shells.{ring_edges, surface_edges, edges_of, flipped};
ghost use Rattle.city_model.specs.internal.RisingEdges.{rising};

use crate::OutOfMemory;
use crate::object::{Point, Ring, Shell, Surface};
use std::alloc::Global;
use std::cmp::Ordering;

/// A point of a ring and the next one.
pub type Edge = (Point, Point);

/// Edges, each noted from its lower point to its higher one.
#[derive(Drop)]
pub struct Edges {
    /// The edges that a ring runs from the lower point to the higher one.
    pub up: Vec<Edge>,
    /// The edges that a ring runs from the higher point to the lower one.
    pub down: Vec<Edge>,
}

impl Edges {
    /// Notes an edge, in both lists if its points are the same.
    fn push(&mut self, from: Point, to: Point) -> Result<(), OutOfMemory>
        ensures up { OnOk result (self.new.up.items ≡ self.old.up.items ++ rising ((from, to) ∷ [])) }
        ensures down { OnOk result (self.new.down.items ≡ self.old.down.items ++ rising ((to, from) ∷ [])) }
    {
        match from.cmp(&to) {
            Ordering::Less => self.up.push((from, to))?,
            Ordering::Greater => self.down.push((to, from))?,
            Ordering::Equal => {
                self.up.push((from, to))?;
                self.down.push((to, from))?;
            }
        }
        Ok(())
    }
}

fn push_ring(edges: &mut Edges, ring: &Ring) -> Result<(), OutOfMemory>
    ensures up { OnOk result (edges.new.up.items ≡ edges.old.up.items ++ rising (ring_edges ring.now)) }
    ensures down { OnOk result
        (edges.new.down.items ≡ edges.old.down.items ++ rising (map flipped (ring_edges ring.now))) }
{
    let [first, rest @ ..] = ring.as_slice() else {
        return Ok(());
    };
    let mut last = *first;
    for point in rest {
        edges.push(last, *point)?;
        last = *point;
    }
    edges.push(last, *first)
}

fn push_surface(edges: &mut Edges, surface: &Surface) -> Result<(), OutOfMemory>
    ensures up { OnOk result (edges.new.up.items ≡ edges.old.up.items ++ rising (surface_edges surface.now)) }
    ensures down { OnOk result
        (edges.new.down.items ≡ edges.old.down.items ++ rising (map flipped (surface_edges surface.now))) }
{
    let rings = surface.as_slice();
    for ring in rings {
        push_ring(edges, ring)?;
    }
    Ok(())
}

/// The number of points of the rings, at most `usize::MAX`.
fn points_of(surface: &Surface) -> usize {
    let mut count: usize = 0;
    let rings = surface.as_slice();
    for ring in rings {
        count = count.saturating_add(ring.len());
    }
    count
}

/// The number of points of the rings of all surfaces, at most `usize::MAX`.
fn points_in(shell: &Shell) -> usize {
    let mut count: usize = 0;
    let surfaces = shell.as_slice();
    for surface in surfaces {
        count = count.saturating_add(points_of(surface));
    }
    count
}

/// Notes the edges of all rings of the shell, one after another.
pub fn edges_of(alloc: Global, shell: &Shell) -> Result<Edges, OutOfMemory>
    ensures up { IfOk result (λ es. es.up.items ≡ rising (edges_of shell.now)) }
    ensures down { IfOk result (λ es. es.down.items ≡ rising (map flipped (edges_of shell.now))) }
{
    // a closed shell has equally many edges of both kinds
    let room = points_in(shell) / 2;
    let mut edges = Edges {
        up: Vec::with_capacity(alloc, room)?,
        down: Vec::with_capacity(alloc, room)?,
    };
    let surfaces = shell.as_slice();
    for surface in surfaces {
        push_surface(&mut edges, surface)?;
    }
    Ok(edges)
}
