//! A run's opening city and scripts as a type. So the desk under the lock can name its run.
use std::marker::Brand;

/// The opening city and scripts of a run. Each run picks them; they have no bytes.
pub trait Origin {
    ghost use Rattle.std.specs.Prelude.{List};
    ghost use Rattle.city_model.specs.CityMap.{CityValue};
    ghost use Rattle.city_model.specs.Runs.{Scripted};

    ghost city: { CityValue };

    ghost scripts: { List Scripted };
}

impl Origin for Brand {
    ghost use Rattle.std.specs.Prelude.{[]};
    ghost use Rattle.city_scheduler.specs.internal.NoCity.{no_city};

    ghost city = { no_city };

    ghost scripts = { [] };
}
