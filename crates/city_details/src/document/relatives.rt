//! The parents and children of objects, in sets: a long list is searched as fast as a short one.
use crate::document::{ModelFault, ObjectFault};
use city_model::OutOfMemory;
use city_model::object_type::{ObjectType, type_named};
use serde_json::{Map, Value};
use std::alloc::Global;
use std::collections::{BTreeMap, BTreeSet};

/// The type of a readable object, and the ids of its relatives.
#[derive(Drop)]
pub struct Relatives {
    pub kind: ObjectType,
    pub parents: BTreeSet<String>,
    pub children: BTreeSet<String>,
}

/// Readable objects by their ids.
pub type RelativesById = BTreeMap<String, Relatives>;

/// The items of a list of ids: none if the list is absent. Returns None if it isn't an array of texts.
pub fn list_at<'t>(object: &'t Value, name: &str) -> Option<&'t [Value]> {
    let Some(value) = object.get(name) else {
        return Some(&[]);
    };
    let items = value.as_array()?;
    if items.iter().all(Value::is_string) {
        Some(items.as_slice())
    } else {
        None
    }
}

/// The relatives of all readable objects of a document with these faults.
pub fn all_relatives(
    alloc: Global,
    tree: &Value,
    faults: &[ModelFault<'_>],
) -> Result<RelativesById, OutOfMemory> {
    match tree.get("CityObjects").and_then(Value::as_object) {
        None => Ok(BTreeMap::new(alloc)),
        Some(objects) => {
            let unread = unread_ids(alloc, faults)?;
            relatives_of(alloc, objects, &unread)
        }
    }
}

/// The ids of unreadable objects.
fn unread_ids(alloc: Global, faults: &[ModelFault<'_>]) -> Result<BTreeSet<String>, OutOfMemory> {
    let mut ids = BTreeSet::new(alloc);
    for fault in faults {
        if let ModelFault::WrongObject(id, fault) = fault {
            if is_unread(*fault) {
                let id = id.to_string(alloc)?;
                ids.insert(id)?;
            }
        }
    }
    Ok(ids)
}

/// Whether an object with this fault can't be read.
fn is_unread(fault: ObjectFault) -> bool {
    matches!(
        fault,
        ObjectFault::UnknownType
            | ObjectFault::Unsupported
            | ObjectFault::BadGeometry
            | ObjectFault::BadVertex
    )
}

fn relatives_of(
    alloc: Global,
    objects: &Map<String, Value>,
    unread: &BTreeSet<String>,
) -> Result<RelativesById, OutOfMemory> {
    let mut relatives = BTreeMap::new(alloc);
    for (id, object) in objects.iter() {
        if !unread.contains(id.as_str()) {
            if let Some(one) = relatives_at(alloc, object)? {
                let id = id.as_str().to_string(alloc)?;
                relatives.insert(id, one)?;
            }
        }
    }
    Ok(relatives)
}

/// The relatives of one object, if its type is known.
fn relatives_at(alloc: Global, object: &Value) -> Result<Option<Relatives>, OutOfMemory> {
    let kind = object.get("type").and_then(Value::as_str);
    let Some(kind) = kind.and_then(type_named) else {
        return Ok(None);
    };
    Ok(Some(Relatives {
        kind,
        parents: id_set(alloc, list_at(object, "parents").unwrap_or(&[]))?,
        children: id_set(alloc, list_at(object, "children").unwrap_or(&[]))?,
    }))
}

fn id_set(alloc: Global, list: &[Value]) -> Result<BTreeSet<String>, OutOfMemory> {
    let mut ids = BTreeSet::new(alloc);
    for item in list {
        if let Some(id) = item.as_str() {
            let id = id.to_string(alloc)?;
            ids.insert(id)?;
        }
    }
    Ok(ids)
}

/// The first repeated id of a list.
pub fn repeated_in(alloc: Global, list: &[Value]) -> Result<Option<&str>, OutOfMemory> {
    let mut ids = BTreeSet::new(alloc);
    for item in list {
        if let Some(id) = item.as_str() {
            if !ids.insert(id)? {
                return Ok(Some(id));
            }
        }
    }
    Ok(None)
}
