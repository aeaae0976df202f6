//! Writes a change into a city: all of it or nothing.
ghost use Rattle.std.specs.Prelude.{◌≡◌, ℕ, List, true, is_some, MatchResult};
ghost use Rattle.std.specs.Map.{keys_of};
ghost use Rattle.city_model.specs.CityMap.{object_at, changed, has_id};
ghost use Rattle.city_model.specs.Runs.{after_change};
ghost use Rattle.city_board.specs.internal.Versions.{city_with};

use crate::places::make_places;
use city_members::text::Id;
use city_model::change::Change;
use city_model::city::City;
use city_model::object::Object;
use std::alloc::Global;

/// Writes the change into the city. If memory runs out, the city is unchanged, and the change comes
/// back.
///
/// Doesn't copy the city; allocates only for the places of new ids.
pub fn apply(alloc: Global, city: &mut City, change: Change) -> Result<(), Change>
    ensures { MatchResult result
        (λ _. city.new ≡ city_with city.old change)
        (λ back. (back ≡ change) × (city.new ≡ city.old)) }
{
    if make_places(alloc, city, &change).is_err() {
        return Err(change);
    }
    write_all(city, change);
    Ok(())
}

/// Writes the change into the city; each of its ids must have a place there. Doesn't allocate.
fn write_all(city: &mut City, mut change: Change)
    requires { (q : List ℕ) → has_id (keys_of change) q ≡ true → is_some (object_at city.old.1 q) ≡ true }
    ensures frame { city.new.0 ≡ city.old.0 }
    ensures objects { object_at city.new.1 ≡ after_change (object_at city.old.1) change }
{
    while let Some((id, object)) = change.pop_first() {
        write(city, id, object);
    }
}

/// Sets or removes the object at an id with a place. Doesn't allocate.
fn write(city: &mut City, id: Id, object: Option<Object>)
    requires { is_some (object_at city.old.1 id) ≡ true }
    ensures frame { city.new.0 ≡ city.old.0 }
    ensures objects { object_at city.new.1 ≡ changed (object_at city.old.1) id object }
{
    match object {
        Some(o) => match city.set(id, o) {
            Ok(old) => drop(old),
            Err(_) => unreachable!(),
        },
        None => drop(city.remove(&id)),
    }
}
