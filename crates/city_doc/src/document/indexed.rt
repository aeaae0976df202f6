//! Objects with sets of relatives, and whether their relations agree.
//!
//! City_model's own test of relations scans a whole list if an id is missing from it. It does so once in a city, since
//! it ends at the first fault. Here each object is judged, so a set finds a missing id as quickly as any other.
ghost use Rattle.std.specs.Prelude.{◌≡◌, IfOk, option_map};
ghost use Rattle.city_model.specs.Chunks.{ids_left};
ghost use Rattle.city_model.specs.CityMap.{has_id, parents_of};
ghost use Rattle.city_model.specs.Relations.{same_family};
ghost use Rattle.city_model.specs.internal.RelationTests.{children_fit, is_misrelated, level_fits, parent_fits};
ghost use Rattle.city_model.specs.internal.RelationTests.{parents_fit, relatives_once};
ghost use Rattle.city_doc.specs.internal.document.IdSets.{IsSetOf};
ghost use Rattle.city_doc.specs.internal.document.ReadObjects.{built_in};

use city_members::copied::Copied;
use city_members::text::{Id, Text};
use city_model::OutOfMemory;
use city_model::id_list::{Ids, is_same_id};
use city_model::object::{Body, Object};
use city_model::object_type::{self, ObjectType, family, level};
use city_model::orphans::is_orphan;
use std::alloc::Global;
use std::collections::{BTreeMap, BTreeSet};
use std::marker::Model;

/// The ids of a list.
#[derive(Drop)]
struct IdSet {
    ids: BTreeSet<Id>,
    /// Whether the list has none twice.
    once: bool,
}

/// The set of these ids.
fn id_set(alloc: Global, ids: Ids<'_>) -> Result<IdSet, OutOfMemory>
    ensures { IfOk result (λ set. IsSetOf (ids_left ids.entry) set.ids.keys set.once) }
{
    let mut set = BTreeSet::new(alloc);
    let mut once = true;
    for id in ids {
        let is_new = set.insert(id.copy(alloc)?)?;
        once = once && is_new;
    }
    Ok(IdSet { ids: set, once })
}

/// An object with its relatives in sets.
#[derive(Drop)]
pub struct IndexedObject {
    object: Object,
    parents: IdSet,
    children: IdSet,
}

impl Model for IndexedObject {
    ghost use Rattle.city_model.specs.declared.object.Object.{Object};

    ghost Value = { Object };

    ghost use Rattle.std.specs.Coded.{codes};
    ghost use Rattle.city_members.specs.internal.DataCode.{coded_members};

    ghost coded = { Prim.hlevel (codes, coded_members) };

    ghost view = { λ c. c.object };

    ghost use Rattle.city_doc.specs.internal.document.IdSets.{IsSetOf};

    ghost invariant = { λ c. IsSetOf c.object.parents c.parents.ids.keys c.parents.once
        × IsSetOf c.object.children c.children.ids.keys c.children.once };
}

/// What the tree of an object shows.
#[derive(Drop)]
pub struct ReadObject {
    /// Whether its type is missing or unknown.
    pub has_unknown_type: bool,
    /// The first unsupported thing in it.
    pub unsupported: Option<Text>,
    /// Whether a geometry is of a wrong form.
    pub has_bad_geometry: bool,
    /// Whether its geometries are of a right form, and a position in them has no vertex.
    pub is_misplaced: bool,
    /// Whether a list of ids is no array of texts.
    pub has_bad_list: bool,
    /// The object, if it can be built. A bad list counts as empty.
    pub object: Option<IndexedObject>,
}

/// What the trees of all objects show, by their ids.
pub type ReadObjects = BTreeMap<Id, ReadObject>;

/// The object of an id, if it is there and can be built.
pub fn built<'o>(objects: &'o ReadObjects, id: &Id) -> Option<&'o IndexedObject>
    ensures { option_map (λ o. o.now) result ≡ built_in objects.now.entries id.now }
{
    objects.get(id)?.object.as_ref()
}

impl IndexedObject {
    /// Puts the relatives of an object into sets.
    pub fn new(alloc: Global, object: Object) -> Result<Self, OutOfMemory>
        ensures { IfOk result (λ o. o ≡ object) }
    {
        let parents = id_set(alloc, object.parents.iter())?;
        let children = id_set(alloc, object.children.iter())?;
        Ok(IndexedObject {
            object,
            parents,
            children,
        })
    }

    /// The body.
    pub fn body(&self) -> &Body
        ensures { result.now ≡ self.now.body }
    {
        self.object.body.get()
    }

    /// The object, without the sets.
    pub fn into_object(self) -> Object
        ensures { result ≡ self }
    {
        self.object
    }

    fn kind(&self) -> ObjectType
        ensures { result ≡ self.now.body.kind }
    {
        self.body().kind
    }

    fn has_parent(&self, id: &Id) -> bool
        ensures { result ≡ has_id self.now.parents id.now }
    {
        self.parents.ids.contains(id)
    }

    fn has_child(&self, id: &Id) -> bool
        ensures { result ≡ has_id self.now.children id.now }
    {
        self.children.ids.contains(id)
    }

    /// Whether neither list repeats an id.
    fn has_relatives_once(&self) -> bool
        ensures { result ≡ relatives_once self.now }
    {
        self.parents.once && self.children.once
    }

    /// Whether the object is second-level or has no parent.
    fn fits_its_level(&self) -> bool
        ensures { result ≡ level_fits self.now }
    {
        level(self.kind()) == 2 || self.object.parents.is_empty()
    }
}

/// Whether the object isn't in order, or is an orphan.
pub fn is_misrelated(objects: &ReadObjects, id: &Id, object: &IndexedObject) -> bool
    ensures { result ≡ is_misrelated (built_in objects.now.entries) id.now object.now }
{
    is_orphan(&object.object)
        || !(object.has_relatives_once()
            && object.fits_its_level()
            && parents_fit(objects, id, object)
            && children_fit(objects, id, object))
}

/// Whether each parent is there, is another object, has this one as a child and is of its family.
fn parents_fit(objects: &ReadObjects, id: &Id, object: &IndexedObject) -> bool
    ensures { result ≡ parents_fit (built_in objects.now.entries) id.now object.now }
{
    for parent in object.object.parents.iter() {
        if !parent_fits(objects, id, object, parent) {
            return false;
        }
    }
    true
}

fn parent_fits(objects: &ReadObjects, id: &Id, object: &IndexedObject, parent: &Id) -> bool
    ensures { result ≡ parent_fits id.now object.now parent.now (built_in objects.now.entries parent.now) }
{
    match built(objects, parent) {
        None => false,
        Some(other) => {
            !is_same_id(parent, id)
                && other.has_child(id)
                && is_same_family(other.kind(), object.kind())
        }
    }
}

/// Whether each child has the object as a parent.
fn children_fit(objects: &ReadObjects, id: &Id, object: &IndexedObject) -> bool
    ensures { result ≡ children_fit (built_in objects.now.entries) id.now object.now }
{
    for child in object.object.children.iter() {
        if !child_fits(objects, id, child) {
            return false;
        }
    }
    true
}

fn child_fits(objects: &ReadObjects, id: &Id, child: &Id) -> bool
    ensures { result ≡ has_id (parents_of (built_in objects.now.entries child.now)) id.now }
{
    match built(objects, child) {
        None => false,
        Some(other) => other.has_parent(id),
    }
}

fn is_same_family(kind: ObjectType, other: ObjectType) -> bool
    ensures { result ≡ same_family kind other }
{
    object_type::is_same(family(kind), family(other))
}
