//! Judges the tree of a document: it has a lawful city, or faults.
ghost use Rattle.std.specs.Prelude.{◌≡◌, true, Some, IfOk, MatchResult};
ghost use Rattle.serde_json.specs.View.{view};
ghost use Rattle.city_model.specs.CityMap.{object_at};
ghost use Rattle.city_model.specs.Relations.{IsLawful};
ghost use Rattle.city_members.specs.Integral.{is_integral};
ghost use Rattle.city_tokens.specs.document.Cities.{city_of};
ghost use Rattle.city_doc.specs.document.AllFaults.{IsFaultOfTree};
ghost use Rattle.city_doc.specs.internal.document.Told.{AreBegun};

use crate::document::build::{city_from, read_objects, take_objects};
use crate::document::each_fault::object_faults;
use crate::document::top::wrong_member;
use crate::fault::{ReadFault, alone};
use crate::shape::vertices::vertices_in;
use crate::tree::values::to_text;
use city_model::OutOfMemory;
use city_model::city::City;
use serde_json::Value;
use std::alloc::Global;

/// The lawful city of a tree of whole numbers, or the faults of the tree: all, or with `first_only` the first alone.
/// Consumes the tree: kept members and texts move into the city.
pub fn judge(
    alloc: Global,
    tree: Value,
    first_only: bool,
) -> Result<Result<City, Vec<ReadFault>>, OutOfMemory>
    requires { is_integral (view tree) ≡ true }
    ensures { IfOk result (λ r. MatchResult r
        (λ c. (city_of (view tree) ≡ Some c) × IsLawful (object_at c.1))
        (λ faults. AreBegun first_only (IsFaultOfTree (view tree)) faults.items)) }
{
    if let Some(name) = wrong_member(&tree) {
        let name = to_text(alloc, name)?;
        let faults = alone(alloc, ReadFault::NotCityJson(name))?;
        return Ok(Err(faults));
    }
    let points = vertices_in(alloc, &tree)?;
    let Some((objects, rest)) = take_objects(tree) else {
        unreachable!()
    };
    let objects = read_objects(alloc, points.as_slice(), objects)?;
    let faults = object_faults(alloc, &objects, first_only)?;
    if !faults.is_empty() {
        return Ok(Err(faults));
    }
    let Some(city) = city_from(alloc, objects, rest)? else {
        unreachable!()
    };
    Ok(Ok(city))
}
