//! Diagnostics of relations that can't be.
use crate::diagnostic::Diagnostic;
use crate::quoted::Quoted;
use crate::refusal::Seen;
use crate::refusal::objects::type_of;
use crate::refusal::past::Past;
use city_members::text::Id;
use city_model::OutOfMemory;
use city_model::id_list::{Ids, is_same_id};
use city_model::object::Object;
use city_model::object_type::{family, is_same, level};
use std::fmt::{self, Display, Formatter, Write};

const OWN_FAMILY: &str =
    "Attach a second-level object, such as a BuildingPart, to one of its own family.";

/// Most ids shown of a list.
const MOST: usize = 10;

/// Shows an object's id, and its type if it is known.
#[derive(Clone, Copy)]
struct Typed<'r>(Seen<'r>);

impl Display for Typed<'_> {
    fn fmt<W: Write>(&self, f: &mut Formatter<W>) -> fmt::Result {
        let id = Quoted(self.0.id.as_str());
        match self.0.object {
            None => write!(f, "{id}"),
            Some(object) => {
                let kind = type_of(object);
                write!(f, "{id} of type {kind}")
            }
        }
    }
}

/// Says which condition child and parent don't meet.
pub fn tell_wrong_family(
    child: Seen<'_>,
    parent: Seen<'_>,
    diagnostic: &mut Diagnostic,
) -> Result<(), OutOfMemory> {
    add_type("child_type", child, diagnostic)?;
    add_type("parent_type", parent, diagnostic)?;
    let (rule, why) = broken_rule(child, parent);
    diagnostic.details.text("rule", rule)?;
    let (child, parent) = (Typed(child), Typed(parent));
    write!(
        diagnostic.told(OWN_FAMILY),
        "The child {child} can't have the parent {parent}: {why}."
    )?;
    Ok(())
}

fn add_type(member: &str, seen: Seen<'_>, diagnostic: &mut Diagnostic) -> Result<(), OutOfMemory> {
    match seen.object {
        None => Ok(()),
        Some(object) => diagnostic.details.text(member, type_of(object)),
    }
}

/// The first condition that child and parent don't meet: its name, and in words.
fn broken_rule(child: Seen<'_>, parent: Seen<'_>) -> (&'static str, &'static str) {
    if is_same_id(child.id, parent.id) {
        return ("itself", "the two are one object");
    }
    match (child.object, parent.object) {
        (Some(below), _) if level(below.body.get().kind) == 1 => {
            ("first-level", "an object of its type has no parents")
        }
        (Some(below), Some(above)) if !is_one_family(below, above) => {
            ("other family", "their families differ")
        }
        _ => (
            "family",
            "it isn't a second-level object of the parent's family",
        ),
    }
}

fn is_one_family(object: &Object, other: &Object) -> bool {
    is_same(
        family(object.body.get().kind),
        family(other.body.get().kind),
    )
}

/// Says that the child has the parent already.
pub fn tell_attached(
    child: Seen<'_>,
    parent: Seen<'_>,
    diagnostic: &mut Diagnostic,
) -> Result<(), OutOfMemory> {
    let (child, parent) = (Typed(child), Typed(parent));
    write!(
        diagnostic.told("Leave the attach out."),
        "The child {child} has the parent {parent} already."
    )?;
    Ok(())
}

/// Says that the child doesn't have the parent, and which ones it has.
pub fn tell_not_attached(
    child: Seen<'_>,
    parent: Seen<'_>,
    diagnostic: &mut Diagnostic,
) -> Result<(), OutOfMemory> {
    let (below, above) = (Typed(child), Typed(parent));
    write!(
        diagnostic.told("Leave the detach out, or correct the ids."),
        "The child {below} doesn't have the parent {above}"
    )?;
    if let Some(object) = child.object {
        push_ids("; it has ", object.parents.iter(), &mut diagnostic.message)?;
    }
    diagnostic.message.push_str(".")
}

/// Adds words and these ids, or that there is none.
fn push_ids(before: &str, ids: Ids<'_>, message: &mut String) -> Result<(), OutOfMemory> {
    message.push_str(before)?;
    if ids.is_empty() {
        return message.push_str("none");
    }
    let mut count = 0usize;
    for id in ids {
        if count < MOST {
            let comma = if count == 0 { "" } else { ", " };
            let id = Quoted(id.as_str());
            write!(message, "{comma}{id}")?;
        }
        count = count.saturating_add(1);
    }
    if count > MOST {
        let more = count - MOST;
        write!(message, " and {more} more")?;
    }
    Ok(())
}

/// Tells the children of an object.
pub fn tell_has_children(
    object: Option<&Object>,
    diagnostic: &mut Diagnostic,
) -> Result<(), OutOfMemory> {
    diagnostic.tell(
        "The object has children",
        "Delete or detach its children first.",
    )?;
    if let Some(object) = object {
        push_ids(": ", object.children.iter(), &mut diagnostic.message)?;
    }
    diagnostic.message.push_str(".")
}

/// Says that an object has no parent at the commit, and which one it had last, if this transaction took it.
pub fn tell_orphan(
    id: &Id,
    object: Option<&Object>,
    past: Option<&Past<'_>>,
    diagnostic: &mut Diagnostic,
) -> Result<(), OutOfMemory> {
    let seen = Typed(Seen { id, object });
    write!(
        diagnostic.told("Attach it or delete it before the commit."),
        "The object {seen} has no parent"
    )?;
    if let Some(parent) = past.and_then(|past| past.last_parent(id)) {
        diagnostic.details.text("last_parent", parent.as_str())?;
        let parent = Quoted(parent.as_str());
        write!(
            &mut diagnostic.message,
            "; it was detached from {parent} before"
        )?;
    }
    diagnostic.message.push_str(".")
}
