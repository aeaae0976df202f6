//! Replaces positions by their points.
ghost use Rattle.std.specs.Prelude.{◌≡◌, ℕ, List, Option, Some, None, IfSome};
ghost use Rattle.serde_json.specs.Data.{Data};
ghost use Rattle.city_model.specs.declared.object.Point as p;
ghost use Rattle.city_model.specs.Shells.{body_fault};
ghost use Rattle.city_tokens.specs.object.Bodies.{object_of};
ghost use Rattle.city_tokens.specs.shape.Geometries.{point_at, shape_of, geometry_of};
ghost use Rattle.city_tokens.specs.internal.Geometries.{IsShape, IsGeometry};
ghost use Rattle.city_tokens.specs.internal.Objects.{IsObject, IsResolvedObject};
ghost use Rattle.city_tokens.specs.internal.Positions.{IsResolved, IsPosition, points_of};
ghost use Rattle.city_tokens.specs.internal.Standing.{Pairs, IsArrayOf};
ghost use Rattle.city_tokens.specs.tree.Lists.{list_of};

use crate::object::UnresolvedObject;
use crate::vertices::Vertex;
use city_members::sequence::Sequence;
use city_members::shared::Shared;
use city_members::text::Id;
use city_model::body_fault::body_fault;
use city_model::object::{Geometries, Geometry, Object, Point, Shape};
use std::alloc::Global;
use std::mem::replace;

/// A value with positions, each to be replaced by its point.
pub trait ResolvePositions: Sized + Drop {
    ghost stands: { Self → Data → Type 0 };

    ghost reads: { List p.Point → Data → Option Self };

    /// Replaces each position by the point of its vertex; `None` if a position names no vertex.
    fn resolve_positions(&mut self, alloc: Global, vertices: &[Vertex]) -> Option<()>
        ensures { IfSome result
            (λ _. IsResolved stands (reads (points_of vertices.now)) self.old self.new) };
}

impl ResolvePositions for Point {
    ghost stands = { IsPosition };

    ghost reads = { point_at };

    fn resolve_positions(&mut self, _alloc: Global, vertices: &[Vertex]) -> Option<()> {
        let position = self.x;
        if position < 0 {
            return None;
        }
        let vertex = vertices.get(position as usize)?;
        *self = vertex.point;
        Some(())
    }
}

fn resolve_all<T: ResolvePositions>(
    alloc: Global,
    vertices: &[Vertex],
    unresolved: Vec<T>,
) -> Option<Vec<T>>
    ensures { IfSome result (λ resolved. Pairs (IsResolved T.stands (T.reads (points_of vertices.now)))
        unresolved.items resolved.items) }
{
    let mut items = unresolved;
    for item in items.iter_mut() {
        item.resolve_positions(alloc, vertices)?;
    }
    Some(items)
}

impl<T: ResolvePositions> ResolvePositions for Sequence<T> {
    ghost stands = { IsArrayOf T.stands };

    ghost reads = { λ points. list_of (T.reads points) };

    fn resolve_positions(&mut self, alloc: Global, vertices: &[Vertex]) -> Option<()> {
        let unresolved = replace(self, Sequence::new(alloc)).into_vec();
        let items = resolve_all(alloc, vertices, unresolved)?;
        *self = Sequence::from_vec(items);
        Some(())
    }
}

fn resolve_shape(alloc: Global, vertices: &[Vertex], shape: &mut Shape) -> Option<()>
    ensures { IfSome result (λ _. (name : List ℕ) (d : Data) → IsShape shape.old name d
        → shape_of (points_of vertices.now) name d ≡ Some shape.new) }
{
    match shape {
        Shape::MultiSurface(surfaces) => surfaces.resolve_positions(alloc, vertices),
        Shape::CompositeSurface(surfaces) => surfaces.resolve_positions(alloc, vertices),
        Shape::Solid(shells) => shells.resolve_positions(alloc, vertices),
        Shape::MultiSolid(solids) => solids.resolve_positions(alloc, vertices),
        Shape::CompositeSolid(solids) => solids.resolve_positions(alloc, vertices),
    }
}

impl ResolvePositions for Geometry {
    ghost stands = { IsGeometry };

    ghost reads = { geometry_of };

    fn resolve_positions(&mut self, alloc: Global, vertices: &[Vertex]) -> Option<()> {
        resolve_shape(alloc, vertices, &mut self.shape)
    }
}

/// The list stands by itself until its points are in their places. From then on all copies share it.
impl ResolvePositions for Geometries {
    ghost stands = { IsArrayOf IsGeometry };

    ghost reads = { λ points. list_of (geometry_of points) };

    fn resolve_positions(&mut self, alloc: Global, vertices: &[Vertex]) -> Option<()> {
        if self.get().len() == 0 {
            return Some(());
        }
        let unresolved = replace(self, Shared::unshared(Sequence::new(alloc)));
        let mut geometry = unresolved.into_owned(alloc).ok()?;
        geometry.resolve_positions(alloc, vertices)?;
        *self = Shared::new(alloc, geometry).ok()?;
        Some(())
    }
}

/// Puts points in place of an object's positions, and judges its body at once; `None` if a position
/// names no vertex, or the body has a fault.
fn resolve_object(alloc: Global, vertices: &[Vertex], object: UnresolvedObject) -> Option<Object>
    ensures resolved { IfSome result
        (λ resolved. IsResolved IsObject (object_of (points_of vertices.now)) object resolved) }
    ensures faultless { IfSome result (λ resolved. body_fault resolved.body ≡ None) }
{
    let (mut body, parents, children) = object.into_parts();
    body.geometry.resolve_positions(alloc, vertices)?;
    let Ok(None) = body_fault(alloc, &body) else {
        return None;
    };
    let body = Shared::new(alloc, body).ok()?;
    Some(Object {
        body,
        parents,
        children,
    })
}

/// Puts points in place of the positions of all objects; `None` if a position names no vertex, or a
/// body has a fault.
pub fn resolve_objects(
    alloc: Global,
    vertices: &[Vertex],
    unresolved: Vec<(Id, UnresolvedObject)>,
) -> Option<Vec<(Id, Object)>>
    ensures { IfSome result
        (λ resolved. Pairs (IsResolvedObject (points_of vertices.now)) unresolved.items resolved.items) }
{
    let mut resolved = Vec::with_capacity(alloc, unresolved.len()).ok()?;
    for (id, object) in unresolved {
        let object = resolve_object(alloc, vertices, object)?;
        resolved.push((id, object)).ok()?;
    }
    Some(resolved)
}
