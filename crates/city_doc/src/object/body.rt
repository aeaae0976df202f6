//! Builds the body of an object from its tree.
ghost use Rattle.std.specs.Prelude.{◌≡◌, IfOk, codes};
ghost use Rattle.serde_json.specs.View.{view, members_view};
ghost use Rattle.city_members.specs.Kept.{kept_at_object};
ghost use Rattle.city_members.specs.Members.{without};
ghost use Rattle.city_tokens.specs.object.Bodies.{body_of};
ghost use Rattle.city_tokens.specs.tree.Members.{kept_if};

use crate::object::faults::type_of;
use crate::shape::geometry::geometries_of;
use city_members::kept::extra::Extra;
use city_members::kept::shared_extra::SharedExtra;
use city_members::kept::site::AtObject;
use city_members::members::{into_object, take};
use city_model::OutOfMemory;
use city_model::object::{Body, Point};
use serde_json::{Map, Value};
use std::alloc::Global;

/// The kept members of an object, from its members but `type` and `geometry`.
fn kept(mut members: Map<String, Value>) -> Option<Extra<AtObject>>
    ensures { result ≡ kept_if kept_at_object
        (without (codes "children") (without (codes "parents") (members_view members.entries))) }
{
    drop(take(&mut members, "parents"));
    drop(take(&mut members, "children"));
    Extra::new(members).ok()
}

/// The body of an object's tree, if it stands for one; consumes the tree. Its positions index these points. It fails
/// only when out of memory.
pub fn body_of(alloc: Global, points: &[Point], object: Value) -> Result<Option<Body>, OutOfMemory>
    ensures { IfOk result (λ o. o ≡ body_of points.now (view object)) }
{
    let Some(kind) = type_of(&object) else {
        return Ok(None);
    };
    let Some(mut members) = into_object(object) else {
        return Ok(None);
    };
    drop(take(&mut members, "type"));
    let Some(geometry) = geometries_of(alloc, points, take(&mut members, "geometry"))? else {
        return Ok(None);
    };
    let Some(extra) = kept(members) else {
        return Ok(None);
    };
    let shared = SharedExtra::new(alloc, extra)?;
    Ok(Some(Body {
        kind,
        geometry,
        extra: shared,
    }))
}
