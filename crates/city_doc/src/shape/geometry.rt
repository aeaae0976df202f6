//! Builds geometries from their trees, with points in place of positions.
ghost use Rattle.std.specs.Prelude.{◌≡◌, IfOk, option_map, option_and_then, codes};
ghost use Rattle.serde_json.specs.Find.{as_str, get_member};
ghost use Rattle.serde_json.specs.View.{view, items_view, members_view};
ghost use Rattle.city_members.specs.Kept.{kept_at_geometry};
ghost use Rattle.city_members.specs.Members.{without};
ghost use Rattle.city_tokens.specs.tree.Lists.{read_items, list_or_absent};
ghost use Rattle.city_tokens.specs.shape.Geometries.{shape_of, geometry_of};
ghost use Rattle.city_doc.specs.internal.shape.Geometries.{shape_in, geometry_with};
ghost use Rattle.city_tokens.specs.tree.Members.{kept_if};

use crate::shape::nested::Nested;
use crate::tree::values::{into_array, into_text, text_at};
use city_members::kept::extra::Extra;
use city_members::kept::site::AtGeometry;
use city_members::members::{into_object, take};
use city_members::sequence::Sequence;
use city_members::shared::Shared;
use city_members::text::Text;
use city_model::OutOfMemory;
use city_model::object::{Geometries, Geometry, Point, Shape};
use city_model::shape_type::ShapeType;
use serde_json::{Map, Value};
use std::alloc::Global;

/// The shape of boundaries, if they have the form of the type.
fn shape_of(
    alloc: Global,
    points: &[Point],
    kind: &str,
    boundaries: &Value,
) -> Result<Option<Shape>, OutOfMemory>
    ensures { IfOk result (λ o. o ≡ shape_of points.now kind.now (view boundaries.now)) }
{
    let Some(kind) = ShapeType::of_name(kind) else {
        return Ok(None);
    };
    match kind {
        ShapeType::MultiSurface => match Nested::read(alloc, points, boundaries)? {
            Some(surfaces) => Ok(Some(Shape::MultiSurface(surfaces))),
            None => Ok(None),
        },
        ShapeType::CompositeSurface => match Nested::read(alloc, points, boundaries)? {
            Some(surfaces) => Ok(Some(Shape::CompositeSurface(surfaces))),
            None => Ok(None),
        },
        ShapeType::Solid => match Nested::read(alloc, points, boundaries)? {
            Some(shells) => Ok(Some(Shape::Solid(shells))),
            None => Ok(None),
        },
        ShapeType::MultiSolid => match Nested::read(alloc, points, boundaries)? {
            Some(solids) => Ok(Some(Shape::MultiSolid(solids))),
            None => Ok(None),
        },
        ShapeType::CompositeSolid => match Nested::read(alloc, points, boundaries)? {
            Some(solids) => Ok(Some(Shape::CompositeSolid(solids))),
            None => Ok(None),
        },
    }
}

/// The shape of a geometry.
fn shape_in(alloc: Global, points: &[Point], geometry: &Value) -> Result<Option<Shape>, OutOfMemory>
    ensures { IfOk result (λ o. o ≡ shape_in points.now (view geometry.now)) }
{
    let Some(kind) = text_at(geometry, "type") else {
        return Ok(None);
    };
    let Some(boundaries) = geometry.get("boundaries") else {
        return Ok(None);
    };
    shape_of(alloc, points, kind, boundaries)
}

/// The kept members of a geometry, from its members but `type` and `lod`.
fn kept(mut members: Map<String, Value>) -> Option<Extra<AtGeometry>>
    ensures { result ≡ kept_if kept_at_geometry
        (without (codes "boundaries") (members_view members.entries)) }
{
    drop(take(&mut members, "boundaries"));
    Extra::new(members).ok()
}

/// Removes the type and the level of detail, and returns the latter if it is a text.
fn take_lod(members: &mut Map<String, Value>) -> Option<Text>
    ensures found { result
        ≡ option_and_then as_str (get_member (codes "lod") (members_view members.old.entries)) }
    ensures left { members_view members.new.entries
        ≡ without (codes "lod") (without (codes "type") (members_view members.old.entries)) }
{
    drop(take(members, "type"));
    take(members, "lod").and_then(into_text)
}

/// The geometry of this shape and of the members of its tree; consumes them.
fn geometry_with(shape: Shape, mut members: Map<String, Value>) -> Option<Geometry>
    ensures { result ≡ geometry_with shape (members_view members.entries) }
{
    let lod = take_lod(&mut members)?;
    let extra = kept(members)?;
    Some(Geometry { lod, shape, extra })
}

/// The geometry of a tree; consumes it.
fn geometry_of(
    alloc: Global,
    points: &[Point],
    geometry: Value,
) -> Result<Option<Geometry>, OutOfMemory>
    ensures { IfOk result (λ o. o ≡ geometry_of points.now (view geometry)) }
{
    let Some(shape) = shape_in(alloc, points, &geometry)? else {
        return Ok(None);
    };
    let Some(members) = into_object(geometry) else {
        return Ok(None);
    };
    Ok(geometry_with(shape, members))
}

/// The geometries of an array's items; consumes them.
fn read_geometries(
    alloc: Global,
    points: &[Point],
    items: Vec<Value>,
) -> Result<Option<Sequence<Geometry>>, OutOfMemory>
    ensures { IfOk result (λ o. o ≡ read_items (geometry_of points.now) (items_view items.items)) }
{
    let mut found = Sequence::with_capacity(alloc, items.len())?;
    for item in items {
        match geometry_of(alloc, points, item)? {
            Some(geometry) => found.push(geometry)?,
            None => return Ok(None),
        }
    }
    Ok(Some(found))
}

/// The geometries of a member, shared by all copies; consumes it. An absent member has none.
/// None if it isn't an array, or one of its items is no geometry.
pub fn geometries_of(
    alloc: Global,
    points: &[Point],
    member: Option<Value>,
) -> Result<Option<Geometries>, OutOfMemory>
    ensures { IfOk result (λ o. o ≡ list_or_absent (geometry_of points.now) (option_map view member)) }
{
    let Some(value) = member else {
        return Ok(Some(Shared::unshared(Sequence::new(alloc))));
    };
    let Some(items) = into_array(value) else {
        return Ok(None);
    };
    match read_geometries(alloc, points, items)? {
        Some(geometries) => Ok(Some(Shared::new(alloc, geometries)?)),
        None => Ok(None),
    }
}
