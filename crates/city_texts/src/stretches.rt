//! Replaces the positions of objects by their points, by several workers: each takes a stretch of the objects.
ghost use Rattle.std.specs.Prelude.{◌≡◌, IfSome, flat_map};
ghost use Rattle.std.specs.Vec.{vec_items};
ghost use Rattle.city_tokens.specs.internal.Objects.{IsResolvedObject};
ghost use Rattle.city_tokens.specs.internal.Positions.{points_of};
ghost use Rattle.city_tokens.specs.internal.Standing.{Pairs};
ghost use Rattle.city_tokens.specs.internal.Stretches.{AreJoined, PairsIfResolved};

use city_members::text::Id;
use city_model::object::Object;
use city_tokens::object::UnresolvedObject;
use city_tokens::resolve::resolve_objects;
use city_tokens::vertices::Vertex;
use std::alloc::Global;
use std::mem::replace;
use std::thread::{Threads, map_vec};

/// The objects in at most so many stretches, one after another. All but the last are of one length.
fn stretches_of(
    alloc: Global,
    objects: Vec<(Id, UnresolvedObject)>,
    count: usize,
) -> Option<Vec<Vec<(Id, UnresolvedObject)>>>
    ensures { IfSome result (λ stretches. objects.items ≡ flat_map vec_items stretches.items) }
{
    let size = objects.len().checked_div(count)?.saturating_add(1);
    let mut stretches = Vec::new(alloc);
    let mut stretch = Vec::with_capacity(alloc, size).ok()?;
    'objects: for object in objects {
        stretch.push(object).ok()?;
        if stretch.len() == size {
            let next = Vec::with_capacity(alloc, size).ok()?;
            stretches.push(replace(&mut stretch, next)).ok()?;
        }
    }
    stretches.push(stretch).ok()?;
    Some(stretches)
}

/// Puts points in place of the positions of each stretch, by a thread.
fn resolve_each<R: Threads + Sync>(
    rt: &R,
    alloc: Global,
    vertices: &[Vertex],
    stretches: Vec<Vec<(Id, UnresolvedObject)>>,
) -> Option<Vec<Option<Vec<(Id, Object)>>>>
    ensures { IfSome result (λ resolved. PairsIfResolved (points_of vertices.now) stretches.items resolved.items) }
{
    let resolve = |stretch: Vec<(Id, UnresolvedObject)>|
        ensures { IfSome result
            (λ resolved. Pairs (IsResolvedObject (points_of vertices.entry.now)) stretch.items resolved.items) }
    { resolve_objects(alloc, vertices, stretch) };
    let resolved = map_vec(rt, stretches, &resolve).ok()?;
    Some(resolved)
}

/// The objects of all stretches; `None` if a stretch is missing.
fn joined(alloc: Global, stretches: Vec<Option<Vec<(Id, Object)>>>) -> Option<Vec<(Id, Object)>>
    ensures { IfSome result (λ all. AreJoined stretches.items all.items) }
{
    let mut all = Vec::new(alloc);
    for stretch in stretches {
        let mut objects = stretch?;
        all.append(&mut objects).ok()?;
    }
    Some(all)
}

/// Puts points in place of the positions of all objects as `resolve_objects` does, by so many
/// threads.
pub fn resolve_objects_by<R: Threads + Sync>(
    rt: &R,
    alloc: Global,
    vertices: &[Vertex],
    unresolved: Vec<(Id, UnresolvedObject)>,
    count: usize,
) -> Option<Vec<(Id, Object)>>
    ensures { IfSome result
        (λ resolved. Pairs (IsResolvedObject (points_of vertices.now)) unresolved.items resolved.items) }
{
    let stretches = stretches_of(alloc, unresolved, count)?;
    let resolved = resolve_each(rt, alloc, vertices, stretches)?;
    joined(alloc, resolved)
}
