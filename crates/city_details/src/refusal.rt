//! Diagnostics of commands that are refused when they are run.
//!
//! - `past`: what the earlier commands of the transaction left
//! - `objects`: an object that is missing, or there already, or of another type; `marks`: a missing mark
//! - `names`: the names of commands and of causes
//! - `relating`: relations that can't be; `attributes`: attributes that differ; `value`: how their values are shown
mod attributes;
mod marks;
pub mod names;
mod objects;
pub mod past;
mod relating;
mod value;

use crate::diagnostic::Diagnostic;
use crate::quoted::Quoted;
use crate::refusal::attributes::{tell_bad_attributes, tell_unexpected};
use crate::refusal::marks::tell_no_mark;
use crate::refusal::names::command_name;
use crate::refusal::objects::{tell_exists, tell_no_object, tell_type_fixed};
use crate::refusal::past::Past;
use crate::refusal::relating::{
    tell_attached, tell_has_children, tell_not_attached, tell_orphan, tell_wrong_family,
};
use crate::script::narrow_to_named;
use crate::shape::ring::{Sought, tell_ring_in_model};
use crate::shape::shell::tell_shell_in_model;
use city_members::text::Id;
use city_model::OutOfMemory;
use city_model::city::City;
use city_model::command::{Cause, Command};
use city_model::object::{Geometry, Object};
use std::alloc::Global;
use std::fmt::Write;

/// Objects as a refused command saw them.
pub trait Sight {
    /// The object of an id; `None` if there is none, or it isn't known.
    fn object(&self, id: &Id) -> Option<&Object>;
}

impl Sight for City {
    fn object(&self, id: &Id) -> Option<&Object> {
        self.get(id)
    }
}

/// A refused command.
#[derive(Clone, Copy)]
pub struct Refusal<'r, 'p> {
    pub command: &'r Command,
    pub cause: &'r Cause,
    /// What the earlier commands of its transaction left, if that is known.
    pub past: Option<&'r Past<'p>>,
}

/// An object of a refused command: its id, and how the command saw it.
#[derive(Clone, Copy)]
struct Seen<'r> {
    id: &'r Id,
    object: Option<&'r Object>,
}

/// The objects of a refused command.
#[derive(Clone, Copy)]
enum Subjects<'r> {
    Nothing,
    One(Seen<'r>),
    /// A child and a parent.
    Two(Seen<'r>, Seen<'r>),
}

/// Where a refused command stands in a text of scripts.
#[derive(Clone, Copy)]
pub struct RefusedAt<'s> {
    /// The number of the script.
    pub script: usize,
    /// The name of the script.
    pub name: &'s str,
    /// The number of the command.
    pub command: usize,
}

/// Returns the diagnostic of a refused command, by the objects that it saw. In a text of scripts its place begins with
/// the script.
pub fn refusal_diagnostic<S: Sight>(
    alloc: Global,
    at: Option<RefusedAt<'_>>,
    refusal: Refusal<'_, '_>,
    sight: &S,
) -> Result<Diagnostic, OutOfMemory> {
    let subjects = subjects_of(refusal, sight);
    let mut diagnostic = Diagnostic::new(alloc);
    if let Some(at) = at {
        narrow_to_named(at.script, Some(at.name), &mut diagnostic)?;
        let (number, name) = (at.command, command_name(refusal.command));
        write!(diagnostic.narrowed()?, "command {number} ({name})")?;
    }
    match subjects {
        Subjects::Nothing => tell_of_mark(alloc, refusal, &mut diagnostic)?,
        Subjects::One(seen) => tell_of_object(alloc, refusal, seen, &mut diagnostic)?,
        Subjects::Two(child, parent) => {
            tell_of_relation(refusal, child, parent, &mut diagnostic)?;
        }
    }
    Ok(diagnostic)
}

/// The objects of a refused command. Those of a commit are in its cause.
fn subjects_of<'r, S: Sight>(refusal: Refusal<'r, '_>, sight: &'r S) -> Subjects<'r> {
    match refusal.command {
        Command::Read(id)
        | Command::Put(id, _)
        | Command::Add(id, _)
        | Command::Set(id, _)
        | Command::Unset(id, _)
        | Command::Reshape(id, _)
        | Command::Expect(id, _)
        | Command::Delete(id) => Subjects::One(looked_at(id, sight)),
        Command::Attach(child, parent) | Command::Detach(child, parent) => {
            Subjects::Two(looked_at(child, sight), looked_at(parent, sight))
        }
        Command::Mark(_) | Command::Back(_) | Command::Commit | Command::Abort => {
            match refusal.cause {
                Cause::Orphan(id) => Subjects::One(looked_at(id, sight)),
                _ => Subjects::Nothing,
            }
        }
    }
}

fn looked_at<'r, S: Sight>(id: &'r Id, sight: &'r S) -> Seen<'r> {
    Seen {
        id,
        object: sight.object(id),
    }
}

/// Tells a refusal that names a mark.
fn tell_of_mark(
    alloc: Global,
    refusal: Refusal<'_, '_>,
    diagnostic: &mut Diagnostic,
) -> Result<(), OutOfMemory> {
    match refusal.cause {
        Cause::NoMark(name) => tell_no_mark(alloc, name.as_str(), refusal.past, diagnostic),
        _ => Ok(()),
    }
}

/// Tells a refusal of a command on one object.
fn tell_of_object(
    alloc: Global,
    refusal: Refusal<'_, '_>,
    seen: Seen<'_>,
    diagnostic: &mut Diagnostic,
) -> Result<(), OutOfMemory> {
    narrow_to(diagnostic, "object", seen.id)?;
    let geometries = geometries_of(refusal.command);
    match refusal.cause {
        Cause::NoObject(id) => tell_no_object(id, diagnostic),
        Cause::TypeFixed(_) => tell_type_fixed(refusal.command, seen.object, diagnostic),
        Cause::HasChildren(_) => tell_has_children(seen.object, diagnostic),
        Cause::ShortRing => tell_ring_in_model(alloc, Sought::Short, geometries, diagnostic),
        Cause::SameTwice => tell_ring_in_model(alloc, Sought::Equal, geometries, diagnostic),
        Cause::OpenShell => tell_shell_in_model(alloc, geometries, diagnostic),
        Cause::Orphan(id) => tell_orphan(id, seen.object, refusal.past, diagnostic),
        Cause::Exists(id) => tell_exists(id, seen.object, diagnostic),
        Cause::BadAttributes(_) => tell_bad_attributes(alloc, seen.object, diagnostic),
        Cause::Unexpected(_) => { tell_unexpected(alloc, refusal.command, seen.object, diagnostic) }
        Cause::WrongFamily | Cause::AlreadyAttached | Cause::NotAttached | Cause::NoMark(_) => Ok(
            (),
        ),
    }
}

/// Tells a refused attach or detach.
fn tell_of_relation(
    refusal: Refusal<'_, '_>,
    child: Seen<'_>,
    parent: Seen<'_>,
    diagnostic: &mut Diagnostic,
) -> Result<(), OutOfMemory> {
    narrow_to(diagnostic, "child", child.id)?;
    narrow_to(diagnostic, "parent", parent.id)?;
    match refusal.cause {
        Cause::NoObject(id) => tell_no_object(id, diagnostic),
        Cause::WrongFamily => tell_wrong_family(child, parent, diagnostic),
        Cause::AlreadyAttached => tell_attached(child, parent, diagnostic),
        Cause::NotAttached => tell_not_attached(child, parent, diagnostic),
        _ => Ok(()),
    }
}

/// Narrows the place to an object, and adds its id.
fn narrow_to(diagnostic: &mut Diagnostic, word: &str, id: &Id) -> Result<(), OutOfMemory> {
    let shown = Quoted(id.as_str());
    write!(diagnostic.narrowed()?, "{word} {shown}")?;
    diagnostic.details.text(word, id.as_str())
}

/// The geometries that a command gives.
pub fn geometries_of(command: &Command) -> &[Geometry] {
    match command {
        Command::Put(_, body) | Command::Add(_, body) => body.get().geometry.get().as_slice(),
        Command::Reshape(_, geometry) => geometry.get().as_slice(),
        _ => &[],
    }
}
