//! Takes the tree of a document apart: into what the trees of its objects show, and into its city.
ghost use Rattle.std.specs.Prelude.{◌≡◌, IfOk, OnOk, option_map};
ghost use Rattle.serde_json.specs.View.{view, members_view};
ghost use Rattle.city_members.specs.Members.{AreOrdered};
ghost use Rattle.city_doc.specs.document.CityFaults.{lenient_object_of};
ghost use Rattle.city_doc.specs.internal.document.ReadObjects.{read_of, read_entries, objects_taken, all_built};
ghost use Rattle.city_doc.specs.internal.document.ReadObjects.{listed, city_from};
ghost use Rattle.city_doc.specs.object.Faults.{unsupported_name};

use crate::document::indexed::{IndexedObject, ReadObject, ReadObjects};
use crate::object::body::body_of;
use crate::object::faults::{has_bad_vertex, is_bad_geometry, type_of, unsupported_name};
use crate::object::ids::{has_bad_list, ids_or_none};
use crate::tree::values::to_text;
use city_members::members::{into_object, take};
use city_members::shared::Shared;
use city_members::text::{Id, Text};
use city_model::OutOfMemory;
use city_model::city::City;
use city_model::object::{Object, Point};
use city_tokens::frame_of_rest;
use serde_json::{Map, Value};
use std::alloc::Global;
use std::collections::BTreeMap;

/// The object of a tree; consumes the tree. A list counts as empty unless it is an array of texts.
fn lenient_object_of(
    alloc: Global,
    points: &[Point],
    object: Value,
) -> Result<Option<Object>, OutOfMemory>
    ensures { IfOk result (λ o. o ≡ lenient_object_of points.now (view object)) }
{
    let Some(mut members) = into_object(object) else {
        return Ok(None);
    };
    let parents = ids_or_none(alloc, take(&mut members, "parents"))?;
    let children = ids_or_none(alloc, take(&mut members, "children"))?;
    let Some(body) = body_of(alloc, points, Value::Object(members))? else {
        return Ok(None);
    };
    let shared = Shared::new(alloc, body)?;
    Ok(Some(Object {
        body: shared,
        parents,
        children,
    }))
}

/// What the tree of an object shows; consumes the tree. Its positions index these points.
fn read_object(alloc: Global, points: &[Point], object: Value) -> Result<ReadObject, OutOfMemory>
    ensures { IfOk result (λ o. o ≡ read_of points.now (view object)) }
{
    let has_unknown_type = type_of(&object).is_none();
    let unsupported = unsupported_in(alloc, &object)?;
    let has_bad_geometry = is_bad_geometry(&object);
    let is_misplaced = !has_bad_geometry && has_bad_vertex(points.len(), &object);
    let has_bad_list = has_bad_list(&object);
    let object = indexed(alloc, lenient_object_of(alloc, points, object)?)?;
    Ok(ReadObject {
        has_unknown_type,
        unsupported,
        has_bad_geometry,
        is_misplaced,
        has_bad_list,
        object,
    })
}

/// The name of the first unsupported thing in an object.
fn unsupported_in(alloc: Global, object: &Value) -> Result<Option<Text>, OutOfMemory>
    ensures { IfOk result (λ o. o ≡ unsupported_name (view object.now)) }
{
    let Some(name) = unsupported_name(object) else {
        return Ok(None);
    };
    Ok(Some(to_text(alloc, name)?))
}

/// The object with its relatives in sets, if there is one.
fn indexed(alloc: Global, object: Option<Object>) -> Result<Option<IndexedObject>, OutOfMemory>
    ensures { IfOk result (λ o. o ≡ object) }
{
    match object {
        None => Ok(None),
        Some(object) => Ok(Some(IndexedObject::new(alloc, object)?)),
    }
}

/// What the trees of all objects show, by their ids; consumes them.
pub fn read_objects(
    alloc: Global,
    points: &[Point],
    members: Map<String, Value>,
) -> Result<ReadObjects, OutOfMemory>
    ensures read { IfOk result (λ objects. objects.entries
        ≡ read_entries points.now (members_view members.entries)) }
    ensures ordered { OnOk result (AreOrdered (members_view members.entries)) }
{
    let mut listed = Vec::with_capacity(alloc, members.len())?;
    for (name, value) in members {
        let object = read_object(alloc, points, value)?;
        listed.push((Id::new(name), object))?;
    }
    let objects = listed.into_iter().collect(alloc)?;
    Ok(objects)
}

/// Removes the objects of a tree, and returns them and the other members of the top.
pub fn take_objects(tree: Value) -> Option<(Map<String, Value>, Map<String, Value>)>
    ensures { option_map (λ p. (members_view p.0.entries, members_view p.1.entries)) result
        ≡ objects_taken (view tree) }
{
    let mut top = into_object(tree)?;
    let objects = into_object(take(&mut top, "CityObjects")?)?;
    Some((objects, top))
}

/// The city of these objects and of the other members of the top, if all objects can be built.
pub fn city_from(
    alloc: Global,
    objects: ReadObjects,
    rest: Map<String, Value>,
) -> Result<Option<City>, OutOfMemory>
    ensures { IfOk result (λ o. option_map listed o ≡ city_from objects.entries (members_view rest.entries)) }
{
    let Some(objects) = built_objects(alloc, objects)? else {
        return Ok(None);
    };
    let Some(frame) = frame_of_rest(rest) else {
        return Ok(None);
    };
    Ok(Some(City::from_parts(frame, objects)))
}

/// The object, if it can be built.
fn built_object(read: ReadObject) -> Option<Object>
    ensures { result ≡ read.object }
{
    let ReadObject { object, .. } = read;
    match object {
        None => None,
        Some(object) => Some(object.into_object()),
    }
}

/// The objects by their ids, if all can be built.
fn built_objects(
    alloc: Global,
    objects: ReadObjects,
) -> Result<Option<BTreeMap<Id, Object>>, OutOfMemory>
    ensures { IfOk result (λ o. option_map (λ m. m.entries) o ≡ all_built objects.entries) }
{
    let mut listed = Vec::with_capacity(alloc, objects.len())?;
    for (id, read) in objects {
        let Some(object) = built_object(read) else {
            return Ok(None);
        };
        listed.push((id, object))?;
    }
    let objects = listed.into_iter().collect(alloc)?;
    Ok(Some(objects))
}
