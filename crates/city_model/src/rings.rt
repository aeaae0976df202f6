//! The faults of a ring (CityJSON 2.0, section 3.2).
ghost use Rattle.std.specs.Prelude.{◌≡◌};
ghost use Rattle.std.specs.List.{list_any};
ghost use Rattle.city_model.specs.Shells.{is_short_ring, is_short_surface, has_same_neighbours};
ghost use Rattle.city_model.specs.internal.RingFaults.{is_faulty, has_ring_fault};

use crate::object::{Ring, Shape, Shell, Solid, Surface};
use crate::shape::Bounds;

/// A fault of the rings of a surface.
#[derive(Clone, Copy)]
pub(crate) enum RingFault {
    /// There is no ring, or one of fewer than three points.
    Short,
    /// A ring has two equal neighbours, the last and the first point among them.
    SameTwice,
}

/// Whether a surface of the shape has the fault. Doesn't allocate.
pub(crate) fn has_ring_fault(fault: RingFault, shape: &Shape) -> bool
    ensures { result ≡ has_ring_fault fault shape.now }
{
    match shape.bounds() {
        Bounds::Surfaces(surfaces) => any_surface(fault, surfaces.as_slice()),
        Bounds::Shells(shells) => any_shell(fault, shells.as_slice()),
        Bounds::Solids(solids) => any_solid(fault, solids.as_slice()),
    }
}

fn any_solid(fault: RingFault, solids: &[Solid]) -> bool
    ensures { result ≡ list_any (list_any (list_any (is_faulty fault))) solids.now }
{
    for solid in solids {
        if any_shell(fault, solid.as_slice()) {
            return true;
        }
    }
    false
}

fn any_shell(fault: RingFault, shells: &[Shell]) -> bool
    ensures { result ≡ list_any (list_any (is_faulty fault)) shells.now }
{
    for shell in shells {
        if any_surface(fault, shell.as_slice()) {
            return true;
        }
    }
    false
}

fn any_surface(fault: RingFault, surfaces: &[Surface]) -> bool
    ensures { result ≡ list_any (is_faulty fault) surfaces.now }
{
    for surface in surfaces {
        if is_faulty(fault, surface) {
            return true;
        }
    }
    false
}

fn is_faulty(fault: RingFault, surface: &Surface) -> bool
    ensures { result ≡ is_faulty fault surface.now }
{
    match fault {
        RingFault::Short => is_short_surface(surface),
        RingFault::SameTwice => any_same_ring(surface.as_slice()),
    }
}

fn is_short_surface(surface: &Surface) -> bool
    ensures { result ≡ is_short_surface surface.now }
{
    surface.len() == 0 || any_short_ring(surface.as_slice())
}

fn any_short_ring(rings: &[Ring]) -> bool
    ensures { result ≡ list_any is_short_ring rings.now }
{
    for ring in rings {
        if ring.len() < 3 {
            return true;
        }
    }
    false
}

fn any_same_ring(rings: &[Ring]) -> bool
    ensures { result ≡ list_any has_same_neighbours rings.now }
{
    for ring in rings {
        if has_same_neighbours(ring) {
            return true;
        }
    }
    false
}

fn has_same_neighbours(ring: &Ring) -> bool
    ensures { result ≡ has_same_neighbours ring.now }
{
    let [first, rest @ ..] = ring.as_slice() else {
        return false;
    };
    let mut last = *first;
    for point in rest {
        if last == *point {
            return true;
        }
        last = *point;
    }
    last == *first
}
