//! The plans of a put and of an add.
ghost use Rattle.std.specs.Prelude.{IfOk};
ghost use Rattle.city_model.specs.Actions.{creates};
ghost use Rattle.city_model.specs.CityMap.{CityMap};
ghost use Rattle.city_model.specs.internal.Plans.{IsPlan, IsPlanOf};
ghost use Rattle.city_model.specs.declared.command.Command.{Command};

use crate::OutOfMemory;
use crate::body_fault::body_fault;
use crate::command::{Cause, Reply};
use crate::object::Body;
use crate::plan::Plan;
use crate::plan::amending::{Amendment, plan_amend_there};
use crate::plan::object_lookup::ObjectLookup;
use crate::plan::objects::new_object;
use crate::plan::writes::one;
use city_members::copied::Copied;
use city_members::shared::Shared;
use city_members::text::Id;
use std::alloc::Global;

/// The plan of a put.
pub fn plan_put<V: ObjectLookup>(
    alloc: Global,
    view: &V,
    id: &Id,
    body: &Shared<Body>,
) -> Result<Plan, OutOfMemory>
    ensures { IfOk result (IsPlan (V.map view.now) (Command.Put id.now body.now)) }
{
    if let Some(cause) = body_fault(alloc, body.get())? {
        return Ok(Plan::Refused(cause));
    }
    match view.look(id) {
        None => plan_new(alloc, id, body),
        Some(object) => plan_amend_there(alloc, id, Amendment::NewBody(body), object),
    }
}

/// The plan of an add.
pub fn plan_add<V: ObjectLookup>(
    alloc: Global,
    view: &V,
    id: &Id,
    body: &Shared<Body>,
) -> Result<Plan, OutOfMemory>
    ensures { IfOk result (IsPlan (V.map view.now) (Command.Add id.now body.now)) }
{
    if let Some(cause) = body_fault(alloc, body.get())? {
        return Ok(Plan::Refused(cause));
    }
    match view.look(id) {
        None => plan_new(alloc, id, body),
        Some(_) => Ok(Plan::Refused(Cause::Exists(id.copy(alloc)?))),
    }
}

/// The plan of a new object; its body is without fault.
fn plan_new(alloc: Global, id: &Id, body: &Shared<Body>) -> Result<Plan, OutOfMemory>
    ensures { IfOk result (λ plan. (m : CityMap) → IsPlanOf m (creates m id.now body.now) plan) }
{
    let object = new_object(alloc, body.copy(alloc)?);
    let writes = one(alloc, id, object)?;
    Ok(Plan::Writes(Reply::Added, writes))
}
