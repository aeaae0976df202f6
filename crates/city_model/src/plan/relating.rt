//! The plans of an attach and of a detach.
ghost use Rattle.std.specs.Prelude.{◌≡◌, IfOk};
ghost use Rattle.city_model.specs.CityMap.{has_id};
ghost use Rattle.city_model.specs.internal.Plans.{IsPlan};
ghost use Rattle.city_model.specs.Relations.{IsSound};
ghost use Rattle.city_model.specs.declared.command.Command.{Command};

use crate::OutOfMemory;
use crate::command::{Cause, Reply};
use crate::object::Object;
use crate::plan::Plan;
use crate::plan::object_lookup::ObjectLookup;
use crate::plan::objects::{with_child, with_parent, without_child, without_parent};
use crate::plan::writes::{no_object, two};
use crate::relations::is_wrong_family;
use city_members::text::Id;
use std::alloc::Global;

/// The plan of an attach.
pub fn plan_attach<V: ObjectLookup>(
    alloc: Global,
    view: &V,
    child: &Id,
    parent: &Id,
) -> Result<Plan, OutOfMemory>
    requires sound { IsSound (V.map view.now) }
    ensures { IfOk result (IsPlan (V.map view.now) (Command.Attach child.now parent.now)) }
{
    let Some(child_object) = view.look(child) else {
        return no_object(alloc, child);
    };
    let Some(parent_object) = view.look(parent) else {
        return no_object(alloc, parent);
    };
    if is_wrong_family(child, child_object, parent, parent_object) {
        return Ok(Plan::Refused(Cause::WrongFamily));
    }
    if is_attached(child, child_object, parent, parent_object) {
        return Ok(Plan::Refused(Cause::AlreadyAttached));
    }
    let below = with_parent(alloc, parent, child_object)?;
    let above = with_child(alloc, child, parent_object)?;
    let writes = two(alloc, child, below, parent, above)?;
    Ok(Plan::Writes(Reply::Attached, writes))
}

/// The plan of a detach.
pub fn plan_detach<V: ObjectLookup>(
    alloc: Global,
    view: &V,
    child: &Id,
    parent: &Id,
) -> Result<Plan, OutOfMemory>
    requires sound { IsSound (V.map view.now) }
    ensures { IfOk result (IsPlan (V.map view.now) (Command.Detach child.now parent.now)) }
{
    let Some(child_object) = view.look(child) else {
        return no_object(alloc, child);
    };
    let Some(parent_object) = view.look(parent) else {
        return no_object(alloc, parent);
    };
    if !is_attached(child, child_object, parent, parent_object) {
        return Ok(Plan::Refused(Cause::NotAttached));
    }
    let below = without_parent(alloc, parent, child_object)?;
    let above = without_child(alloc, child, parent_object)?;
    let writes = two(alloc, child, below, parent, above)?;
    Ok(Plan::Writes(Reply::Detached, writes))
}

/// Whether the parent is one of the child's. In a sound city the lists of both say so, and the
/// shorter one is searched.
fn is_attached(child: &Id, child_object: &Object, parent: &Id, parent_object: &Object) -> bool
    requires { has_id child_object.now.parents parent.now ≡ has_id parent_object.now.children child.now }
    ensures { result ≡ has_id child_object.now.parents parent.now }
{
    let parents = &child_object.parents;
    let children = &parent_object.children;
    if children.is_shorter_than(parents) {
        children.has(child)
    } else {
        parents.has(parent)
    }
}
