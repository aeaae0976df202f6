//! Places in a city for ids about to be written.
ghost use Rattle.std.specs.Prelude.{◌≡◌, ◌&&◌, ℕ, List, None, true, false, not, is_some, IfOk, OnOk, OnErr};
ghost use Rattle.std.specs.Prelude.{if◌then◌else◌};
ghost use Rattle.std.specs.Map.{keys_of};
ghost use Rattle.city_model.specs.CityMap.{object_at, has_id};

use city_members::copied::Copied;
use city_members::text::Id;
use city_model::OutOfMemory;
use city_model::change::Change;
use city_model::city::City;
use city_txn::placeholder::placeholder;
use std::alloc::Global;

/// Gives each id of the change a place in the city: a placeholder if no object is there. If memory
/// runs out, the city is unchanged.
pub fn make_places(alloc: Global, city: &mut City, change: &Change) -> Result<(), OutOfMemory>
    ensures frame { city.new.0 ≡ city.old.0 }
    ensures others { OnOk result
        ((q : List ℕ) → has_id (keys_of change.now) q ≡ false → object_at city.new.1 q ≡ object_at city.old.1 q) }
    ensures there { OnOk result
        ((q : List ℕ) → has_id (keys_of change.now) q ≡ true → is_some (object_at city.new.1 q) ≡ true) }
    ensures err { OnErr result (city.new ≡ city.old) }
{
    let ids = missing(alloc, city, change)?;
    if fill(alloc, city, &ids).is_err() {
        clear(city, &ids);
        return Err(OutOfMemory);
    }
    Ok(())
}

/// The ids of the change that have no object in the city.
fn missing(alloc: Global, city: &City, change: &Change) -> Result<Vec<Id>, OutOfMemory>
    ensures { IfOk result (λ ids. (q : List ℕ)
        → has_id ids.items q ≡ (has_id (keys_of change.now) q && not (is_some (object_at city.now.1 q)))) }
{
    let mut ids = Vec::new(alloc);
    for (id, _) in change.iter() {
        if city.get(id).is_none() {
            ids.push(id.copy(alloc)?)?;
        }
    }
    Ok(ids)
}

/// Puts a placeholder at each of the ids; if memory runs out, at some of them.
fn fill(alloc: Global, city: &mut City, ids: &[Id]) -> Result<(), OutOfMemory>
    ensures frame { city.new.0 ≡ city.old.0 }
    ensures others { (q : List ℕ) → has_id ids.now q ≡ false → object_at city.new.1 q ≡ object_at city.old.1 q }
    ensures there { OnOk result ((q : List ℕ) → has_id ids.now q ≡ true → is_some (object_at city.new.1 q) ≡ true) }
{
    for id in ids {
        drop(city.set(id.copy(alloc)?, placeholder(alloc))?);
    }
    Ok(())
}

/// Removes the objects of the ids. Doesn't allocate.
fn clear(city: &mut City, ids: &[Id])
    ensures frame { city.new.0 ≡ city.old.0 }
    ensures objects { (q : List ℕ) → object_at city.new.1 q
        ≡ (if has_id ids.now q then None else object_at city.old.1 q) }
{
    for id in ids {
        drop(city.remove(id));
    }
}
