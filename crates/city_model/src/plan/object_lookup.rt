//! Object lookup in a city.
ghost use Rattle.std.specs.Prelude.{◌≡◌, option_copied};
ghost use Rattle.city_model.specs.CityMap.{CityMap, object_at};

use crate::city::City;
use crate::object::Object;
use city_members::text::Id;

/// Object lookup by id.
pub trait ObjectLookup {
    /// The map.
    ghost map: { Self → CityMap };

    /// The object of an id. Doesn't allocate.
    fn look(&self, id: &Id) -> Option<&Object>
        ensures { option_copied result ≡ map self.now id.now };
}

impl ObjectLookup for City {
    ghost map = { λ city. object_at city.1 };

    fn look(&self, id: &Id) -> Option<&Object> {
        self.get(id)
    }
}
