//! The plan of a delete.
ghost use Rattle.std.specs.Prelude.{◌≡◌, ◌++◌, map, option_copied, IfOk, OnOk};
ghost use Rattle.city_model.specs.Chunks.{ids_left};
ghost use Rattle.city_model.specs.internal.Plans.{IsPlan, unlinked};
ghost use Rattle.city_model.specs.Relations.{IsSound};
ghost use Rattle.city_model.specs.declared.command.Command.{Command};

use crate::OutOfMemory;
use crate::command::{Cause, Reply};
use crate::id_list::Ids;
use crate::object::Object;
use crate::plan::Plan;
use crate::plan::object_lookup::ObjectLookup;
use crate::plan::objects::without_child;
use crate::plan::writes::{Writes, no_object};
use city_members::copied::Copied;
use city_members::text::Id;
use std::alloc::Global;

/// The plan of a delete.
pub fn plan_delete<V: ObjectLookup>(alloc: Global, view: &V, id: &Id) -> Result<Plan, OutOfMemory>
    requires sound { IsSound (V.map view.now) }
    ensures { IfOk result (IsPlan (V.map view.now) (Command.Delete id.now)) }
{
    let Some(object) = view.look(id) else {
        return no_object(alloc, id);
    };
    if !object.children.is_empty() {
        return Ok(Plan::Refused(Cause::HasChildren(id.copy(alloc)?)));
    }
    let mut writes = Writes::new(alloc);
    writes.push((id.copy(alloc)?, None))?;
    unlink_each(alloc, view, id, object.parents.iter(), &mut writes)?;
    Ok(Plan::Writes(Reply::Deleted, writes))
}

/// Adds each parent, without the child, to the writes.
fn unlink_each<V: ObjectLookup>(
    alloc: Global,
    view: &V,
    child: &Id,
    parents: Ids<'_>,
    writes: &mut Writes,
) -> Result<(), OutOfMemory>
    requires sound { IsSound (V.map view.now) }
    ensures { OnOk result (writes.new
        ≡ writes.old ++ map (unlinked (V.map view.now) child.now) (ids_left parents.entry)) }
{
    for parent in parents {
        writes.push(unlink(alloc, view, child, parent)?)?;
    }
    Ok(())
}

/// The parent, and its object without the child.
fn unlink<V: ObjectLookup>(
    alloc: Global,
    view: &V,
    child: &Id,
    parent: &Id,
) -> Result<(Id, Option<Object>), OutOfMemory>
    requires sound { IsSound (V.map view.now) }
    ensures { IfOk result (λ write. write ≡ unlinked (V.map view.now) child.now parent.now) }
{
    let id = parent.copy(alloc)?;
    match view.look(parent) {
        None => Ok((id, None)),
        Some(object) => {
            let left = without_child(alloc, child, object)?;
            Ok((id, Some(left)))
        },
    }
}
