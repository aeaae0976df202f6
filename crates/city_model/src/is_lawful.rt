//! Whether a city is lawful.
ghost use Rattle.std.specs.Prelude.{◌≡◌, IsTrue, IfOk, OnErr, is_some};
ghost use Rattle.city_model.specs.CityMap.{object_at};
ghost use Rattle.city_model.specs.internal.Faultless.{IsFaultless};
ghost use Rattle.city_model.specs.Relations.{IsLawful, IsRelated};
ghost use Rattle.city_model.specs.Shells.{body_fault};

use crate::OutOfMemory;
use crate::body_fault::body_fault;
use crate::city::City;
use crate::object::Body;
use crate::relations::relations_fault;
use std::alloc::Global;

/// Whether every object is in order, none is an orphan, and no body has a fault. Fails only when
/// out of memory, and only if no relation is at fault: judging relations doesn't allocate.
pub fn is_lawful(alloc: Global, city: &City) -> Result<bool, OutOfMemory>
    ensures lawful { IfOk result (λ b. IsTrue b → IsLawful (object_at city.now.1)) }
    ensures only_then { IfOk result (λ b. IsLawful (object_at city.now.1) → IsTrue b) }
    ensures related { OnErr result (IsRelated (object_at city.now.1)) }
{
    match relations_fault(city) {
        Some(_) => Ok(false),
        None => {
            let faultless = is_faultless(alloc, city)?;
            Ok(faultless)
        },
    }
}

/// Whether no body of the city has a fault. Fails only when out of memory.
fn is_faultless(alloc: Global, city: &City) -> Result<bool, OutOfMemory>
    ensures faultless { IfOk result (λ b. IsTrue b → IsFaultless (object_at city.now.1)) }
    ensures only_then { IfOk result (λ b. IsFaultless (object_at city.now.1) → IsTrue b) }
{
    for (_, object) in city.iter() {
        let faulty = has_fault(alloc, object.body.get())?;
        if faulty {
            return Ok(false);
        }
    }
    Ok(true)
}

fn has_fault(alloc: Global, body: &Body) -> Result<bool, OutOfMemory>
    ensures { IfOk result (λ b. b ≡ is_some (body_fault body.now)) }
{
    let fault = body_fault(alloc, body)?;
    Ok(fault.is_some())
}
