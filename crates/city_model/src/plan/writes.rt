//! The writes of a plan, and short plans.
ghost use Rattle.std.specs.Prelude.{◌≡◌, [], ◌∷◌, ◌++◌, Some, IfOk, OnOk};
ghost use Rattle.city_model.specs.declared.command.Cause.{Cause};
ghost use Rattle.city_model.specs.declared.plan.Plan.{Plan};

use crate::OutOfMemory;
use crate::command::Cause;
use crate::object::Object;
use crate::plan::Plan;
use city_members::copied::Copied;
use city_members::sequence::Sequence;
use city_members::text::Id;
use std::alloc::Global;

/// The writes of a command: ids, each with its object afterwards, or `None` if the object is
/// removed.
pub type Writes = Sequence<(Id, Option<Object>)>;

/// The refusal of a command without an object of the id.
pub fn no_object(alloc: Global, id: &Id) -> Result<Plan, OutOfMemory>
    ensures { IfOk result (λ plan. plan ≡ Plan.Refused (Cause.NoObject id.now)) }
{
    Ok(Plan::Refused(Cause::NoObject(id.copy(alloc)?)))
}

/// An object written at one id.
pub fn one(alloc: Global, id: &Id, object: Object) -> Result<Writes, OutOfMemory>
    ensures { IfOk result (λ writes. writes ≡ (id.now, Some object) ∷ []) }
{
    let mut writes = Writes::new(alloc);
    push_write(alloc, &mut writes, id, object)?;
    Ok(writes)
}

/// Objects written at two ids.
pub fn two(
    alloc: Global,
    first: &Id,
    object: Object,
    second: &Id,
    other: Object,
) -> Result<Writes, OutOfMemory>
    ensures { IfOk result (λ writes. writes
        ≡ (first.now, Some object) ∷ (second.now, Some other) ∷ []) }
{
    let mut writes = one(alloc, first, object)?;
    push_write(alloc, &mut writes, second, other)?;
    Ok(writes)
}

/// Adds an object written at an id.
fn push_write(
    alloc: Global,
    writes: &mut Writes,
    id: &Id,
    object: Object,
) -> Result<(), OutOfMemory>
    ensures { OnOk result (writes.new ≡ writes.old ++ (id.now, Some object) ∷ []) }
{
    let copy = id.copy(alloc)?;
    writes.push((copy, Some(object)))?;
    Ok(())
}
