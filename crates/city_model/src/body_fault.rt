//! The faults of geometries and of bodies (CityJSON 2.0, section 3.2).
ghost use Rattle.std.specs.Prelude.{◌≡◌, false, IfOk, OnErr};
ghost use Rattle.std.specs.List.{list_any};
ghost use Rattle.city_model.specs.Shells.{has_short_ring, has_same_twice, has_open_shell, any_shape, geometry_fault};
ghost use Rattle.city_model.specs.Shells.{some_shape, body_fault};
ghost use Rattle.city_model.specs.internal.RingFaults.{has_ring_fault};

use crate::OutOfMemory;
use crate::command::Cause;
use crate::object::{Body, Geometry};
use crate::rings::{RingFault, has_ring_fault};
use crate::shells::has_open_shell;
use std::alloc::Global;

/// The first of `ShortRing`, `SameTwice` and `OpenShell` in some geometry of the body, or `None`.
/// Fails only when out of memory, and only if no ring is at fault: judging rings doesn't allocate.
pub fn body_fault(alloc: Global, body: &Body) -> Result<Option<Cause>, OutOfMemory>
    ensures fault { IfOk result (λ f. f ≡ body_fault body.now) }
    ensures no_short_ring { OnErr result (some_shape has_short_ring body.now ≡ false) }
    ensures no_same_twice { OnErr result (some_shape has_same_twice body.now ≡ false) }
{
    geometry_fault(alloc, body.geometry.get().as_slice())
}

/// The first of `ShortRing`, `SameTwice` and `OpenShell` in some of the geometries, or `None`.
/// Fails only when out of memory, and only if no ring is at fault: judging rings doesn't allocate.
pub fn geometry_fault(alloc: Global, geometry: &[Geometry]) -> Result<Option<Cause>, OutOfMemory>
    ensures fault { IfOk result (λ f. f ≡ geometry_fault geometry.now) }
    ensures no_short_ring { OnErr result (any_shape has_short_ring geometry.now ≡ false) }
    ensures no_same_twice { OnErr result (any_shape has_same_twice geometry.now ≡ false) }
{
    if any_short_ring(geometry) {
        return Ok(Some(Cause::ShortRing));
    }
    if any_same_twice(geometry) {
        return Ok(Some(Cause::SameTwice));
    }
    if any_open_shell(alloc, geometry)? {
        return Ok(Some(Cause::OpenShell));
    }
    Ok(None)
}

/// Whether a surface of some geometry has no ring, or has a ring of fewer than
/// three points. Doesn't allocate.
pub fn any_short_ring(geometry: &[Geometry]) -> bool
    ensures { result ≡ list_any (λ g. has_short_ring g.shape) geometry.now }
{
    any_faulty(RingFault::Short, geometry)
}

/// Whether a ring of some geometry has two equal neighbours. Doesn't allocate.
pub fn any_same_twice(geometry: &[Geometry]) -> bool
    ensures { result ≡ list_any (λ g. has_same_twice g.shape) geometry.now }
{
    any_faulty(RingFault::SameTwice, geometry)
}

fn any_faulty(fault: RingFault, geometry: &[Geometry]) -> bool
    ensures { result ≡ list_any (λ g. has_ring_fault fault g.shape) geometry.now }
{
    for g in geometry {
        if has_ring_fault(fault, &g.shape) {
            return true;
        }
    }
    false
}

/// Whether a shell of some geometry is open.
pub fn any_open_shell(alloc: Global, geometry: &[Geometry]) -> Result<bool, OutOfMemory>
    ensures { IfOk result (λ b. b ≡ list_any (λ g. has_open_shell g.shape) geometry.now) }
{
    for g in geometry {
        if has_open_shell(alloc, &g.shape)? {
            return Ok(true);
        }
    }
    Ok(false)
}
