//! Room in the city for reserved ids: made, filled, and cleared. An id has room if an object or a
//! placeholder stands there.
ghost use Rattle.std.specs.Prelude.{◌≡◌, ℕ, List, None, Some, unwrap_or, IfOk, OnOk, OnErr, is_none, if◌then◌else◌};
ghost use Rattle.std.specs.Option.{option_or};
ghost use Rattle.city_model.specs.CityMap.{object_at, changed};
ghost use Rattle.city_txn.specs.Placeholder.{placeholder};
ghost use Rattle.city_txn.specs.internal.Reserved.{HasRoom};

use crate::placeholder::placeholder;
use city_members::copied::Copied;
use city_members::text::Id;
use city_model::OutOfMemory;
use city_model::city::City;
use city_model::object::Object;
use std::alloc::Global;

/// Makes room for the id: a placeholder, if the object is absent. If memory runs out, the city is
/// unchanged.
#[tactic(auto, using(city_members::proofs::Ids::same_id_true, crate::proofs::StoreChanged::set_at))]
pub fn make_room(city: &mut City, alloc: Global, id: &Id, absent: bool) -> Result<(), OutOfMemory>
    requires { absent ≡ is_none (object_at city.old.1 id.now) }
    ensures after { OnOk result ((q : List ℕ) → object_at city.new.1 q
        ≡ changed (object_at city.old.1) id.now (Some (unwrap_or (object_at city.old.1 id.now) placeholder)) q) }
    ensures frame { city.new.0 ≡ city.old.0 }
    ensures err { OnErr result (city.new ≡ city.old) }
{
    if absent {
        city.set(id.copy(alloc)?, placeholder(alloc))?;
    }
    Ok(())
}

/// Removes the placeholder, if one is there.
#[tactic(auto, using(crate::proofs::StoreChanged::set_at))]
pub fn clear(city: &mut City, id: &Id, deleted: bool)
    ensures after { (q : List ℕ) → object_at city.new.1 q
        ≡ (if deleted then changed (object_at city.old.1) id.now None q else object_at city.old.1 q) }
    ensures frame { city.new.0 ≡ city.old.0 }
{
    if deleted {
        let _ = city.remove(id);
    }
}

/// Sets the object of an id with room, and returns the previous one.
#[tactic(auto, using(crate::proofs::StoreChanged::set_at))]
pub fn swap(city: &mut City, id: Id, object: Object) -> Object
    requires { HasRoom city.old id }
    ensures old { object_at city.old.1 id ≡ Some result }
    ensures after { (q : List ℕ) → object_at city.new.1 q ≡ changed (object_at city.old.1) id (Some object) q }
    ensures frame { city.new.0 ≡ city.old.0 }
{
    match city.set(id, object) {
        Ok(Some(old)) => old,
        Ok(None) => unreachable!(),
        Err(_) => unreachable!(),
    }
}

/// Sets the object of an id, and returns the previous one. Copies the id if there was none. If
/// memory runs out, the city is unchanged.
#[tactic(auto, using(crate::proofs::StoreChanged::set_at))]
pub fn put(
    city: &mut City,
    alloc: Global,
    id: &Id,
    object: Object,
) -> Result<Option<Object>, OutOfMemory>
    ensures old { IfOk result (λ old. old ≡ object_at city.old.1 id.now) }
    ensures after { OnOk result
        ((q : List ℕ) → object_at city.new.1 q ≡ changed (object_at city.old.1) id.now (Some object) q) }
    ensures frame { city.new.0 ≡ city.old.0 }
    ensures err { OnErr result (city.new ≡ city.old) }
{
    match city.replace(id, object) {
        Ok(old) => Ok(Some(old)),
        Err(object) => {
            let _ = city.set(id.copy(alloc)?, object)?;
            Ok(None)
        }
    }
}

/// Sets the object, if there is one, at an id with room.
#[tactic(auto, using(city_members::proofs::Ids::same_id_true, crate::proofs::StoreChanged::set_at))]
pub fn refill(city: &mut City, id: Id, object: Option<Object>)
    requires { HasRoom city.old id }
    ensures after { (q : List ℕ) → object_at city.new.1 q
        ≡ changed (object_at city.old.1) id (option_or object (object_at city.old.1 id)) q }
    ensures frame { city.new.0 ≡ city.old.0 }
{
    match object {
        Some(o) => {
            let _ = swap(city, id, o);
        }
        None => {}
    }
}

/// Puts the object back at an id with room, or removes what stands there if there is none.
#[tactic(auto, using(city_members::proofs::Ids::same_id_true, crate::proofs::StoreChanged::set_at))]
pub fn put_back(city: &mut City, id: Id, object: Option<Object>)
    requires { HasRoom city.old id }
    ensures after { (q : List ℕ) → object_at city.new.1 q ≡ changed (object_at city.old.1) id object q }
    ensures frame { city.new.0 ≡ city.old.0 }
{
    match object {
        Some(object) => {
            let _ = swap(city, id, object);
        }
        None => {
            let _ = city.remove(&id);
        }
    }
}
