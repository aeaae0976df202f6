//! The city at the opening of a session, for contracts only.
ghost use Rattle.std.specs.Prelude.{◌≡◌};

use crate::ghosts::no_rule::NoRule;
use city_model::city::City;
use logbook::{Opening as FirstEntry, Seen, Start};
use std::marker::Model;

/// The record's one entry is the city.
pub struct OneCity;

impl FirstEntry<City, City> for OneCity {
    ghost use Rattle.std.specs.Prelude.{[], ◌∷◌};

    ghost log = { λ count city. city ∷ [] };
}

/// The city at the opening of a session. It is zero-sized; contracts see the city.
#[derive(Drop)]
pub struct OpeningCity {
    seen: Seen<City, u64, NoRule>,
}

impl Model for OpeningCity {
    ghost use Rattle.std.specs.Prelude.{slice_index_or};
    ghost use Rattle.std.specs.Coded.{codes};
    ghost use Rattle.city_members.specs.internal.DataCode.{coded_members};
    ghost use Rattle.city_txn.specs.internal.Codes.{coded_objects};
    ghost use Rattle.city_model.specs.CityMap.{CityValue};
    ghost use Rattle.city_session.specs.internal.NoCity.{no_city};

    ghost Value = { CityValue };

    ghost coded = { Prim.hlevel (codes, coded_members, coded_objects) };

    ghost view = { λ o. slice_index_or o.seen.log 0 no_city };
}

impl OpeningCity {
    /// A record of the city. Doesn't allocate.
    pub fn of(city: &City) -> OpeningCity
        ensures { result ≡ city.now }
    {
        let (seen, _pens) = Seen::open_row::<City, OneCity>(city, Start::alone(), 0);
        OpeningCity { seen }
    }
}
