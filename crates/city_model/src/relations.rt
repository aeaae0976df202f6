//! Whether parents and children agree (CityJSON 2.0, section 2).
ghost use Rattle.std.specs.Prelude.{◌≡◌, IfSome, IfNone};
ghost use Rattle.city_model.specs.CityMap.{object_at, has_id, parents_of};
ghost use Rattle.city_model.specs.Actions.{is_wrong_family};
ghost use Rattle.city_model.specs.Misrelated.{IsLeastMisrelated};
ghost use Rattle.city_model.specs.internal.RelationTests.{relatives_once, level_fits, parent_fits, parents_fit};
ghost use Rattle.city_model.specs.internal.RelationTests.{children_fit, is_in_order, is_misrelated};
ghost use Rattle.city_model.specs.Relations.{IsRelated, is_second_level, same_family};

use crate::city::City;
use crate::id_list::is_same_id;
use crate::object::Object;
use crate::object_type::{self, ObjectType, family, level};
use crate::orphans::is_orphan;
use city_members::text::Id;

/// The least id, in byte order, of an object out of order or of an orphan; `None` if all relations
/// agree. Doesn't allocate.
///
/// Each parent and each child is looked up once, and one list of it is searched. A short list is
/// compared id by id for repeats, and a long one is read once in byte order.
pub fn relations_fault(city: &City) -> Option<&Id>
    ensures fault { IfSome result (λ id. IsLeastMisrelated (object_at city.now.1) id.now) }
    ensures none { IfNone result (IsRelated (object_at city.now.1)) }
{
    for (id, object) in city.iter() {
        if is_misrelated(city, id, object) {
            return Some(id);
        }
    }
    None
}

/// Whether the first object can't be a child of the second: they are the same object, the child isn't
/// second-level, or they are of different families (CityJSON 2.0, section 2).
pub fn is_wrong_family(
    child: &Id,
    child_object: &Object,
    parent: &Id,
    parent_object: &Object,
) -> bool
    ensures { result ≡ is_wrong_family child.now child_object.now parent.now parent_object.now }
{
    is_same_id(child, parent)
        || !is_second_level(child_object)
        || !is_same_family(child_object.body.get().kind, parent_object.body.get().kind)
}

/// Whether the object isn't in order, or is an orphan.
fn is_misrelated(city: &City, id: &Id, object: &Object) -> bool
    ensures { result ≡ is_misrelated (object_at city.now.1) id.now object.now }
{
    is_orphan(object) || !is_in_order(city, id, object)
}

/// Whether the object and its parents and children agree.
fn is_in_order(city: &City, id: &Id, object: &Object) -> bool
    ensures { result ≡ is_in_order (object_at city.now.1) id.now object.now }
{
    relatives_once(object)
        && level_fits(object)
        && parents_fit(city, id, object)
        && children_fit(city, id, object)
}

/// Whether neither list of the object repeats an id.
fn relatives_once(object: &Object) -> bool
    ensures { result ≡ relatives_once object.now }
{
    object.parents.are_distinct() && object.children.are_distinct()
}

/// Whether the object is second-level or has no parent.
fn level_fits(object: &Object) -> bool
    ensures { result ≡ level_fits object.now }
{
    is_second_level(object) || object.parents.is_empty()
}

/// Whether the object is second-level.
fn is_second_level(object: &Object) -> bool
    ensures { result ≡ is_second_level object.now.body.kind }
{
    level(object.body.get().kind) == 2
}

/// Whether each parent is there, is another object, has this one as a child and is of its family.
fn parents_fit(city: &City, id: &Id, object: &Object) -> bool
    ensures { result ≡ parents_fit (object_at city.now.1) id.now object.now }
{
    for parent in object.parents.iter() {
        if !parent_fits(city, id, object, parent) {
            return false;
        }
    }
    true
}

fn parent_fits(city: &City, id: &Id, object: &Object, parent: &Id) -> bool
    ensures { result ≡ parent_fits id.now object.now parent.now (object_at city.now.1 parent.now) }
{
    match city.get(parent) {
        None => false,
        Some(other) => {
            !is_same_id(parent, id)
                && other.children.has(id)
                && is_same_family(other.body.get().kind, object.body.get().kind)
        },
    }
}

/// Whether each child has the object as a parent.
fn children_fit(city: &City, id: &Id, object: &Object) -> bool
    ensures { result ≡ children_fit (object_at city.now.1) id.now object.now }
{
    for child in object.children.iter() {
        if !child_fits(city, id, child) {
            return false;
        }
    }
    true
}

fn child_fits(city: &City, id: &Id, child: &Id) -> bool
    ensures { result ≡ has_id (parents_of (object_at city.now.1 child.now)) id.now }
{
    match city.get(child) {
        None => false,
        Some(other) => other.parents.has(id),
    }
}

fn is_same_family(kind: ObjectType, other: ObjectType) -> bool
    ensures { result ≡ same_family kind other }
{
    object_type::is_same(family(kind), family(other))
}
