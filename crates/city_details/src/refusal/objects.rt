//! Diagnostics of an object that is missing, or there already, or of another type.
use crate::diagnostic::Diagnostic;
use crate::quoted::Quoted;
use city_members::text::Id;
use city_model::OutOfMemory;
use city_model::command::Command;
use city_model::object::Object;
use city_model::object_type::name;
use std::fmt::Write;

const KEEP_TYPE: &str = "Delete the object and add it anew, or keep its type.";

/// The name of an object's type.
pub fn type_of(object: &Object) -> &'static str {
    name(object.body.get().kind)
}

/// Says that there is no object of an id.
pub fn tell_no_object(id: &Id, diagnostic: &mut Diagnostic) -> Result<(), OutOfMemory> {
    diagnostic.details.text("id", id.as_str())?;
    let id = Quoted(id.as_str());
    write!(
        diagnostic.told("Add it first, or correct the id."),
        "There is no object {id}."
    )?;
    Ok(())
}

/// Says that there is an object of an id already, and its type.
pub fn tell_exists(
    id: &Id,
    there: Option<&Object>,
    diagnostic: &mut Diagnostic,
) -> Result<(), OutOfMemory> {
    let id = Quoted(id.as_str());
    write!(
        diagnostic.told("Take another id, or put or set if you mean that object."),
        "There is an object {id} already"
    )?;
    if let Some(there) = there {
        let kind = type_of(there);
        diagnostic.details.text("type", kind)?;
        write!(&mut diagnostic.message, ", of type {kind}")?;
    }
    diagnostic.message.push_str(".")
}

/// Tells the type of the object that is there, and the one that a put gives.
pub fn tell_type_fixed(
    command: &Command,
    there: Option<&Object>,
    diagnostic: &mut Diagnostic,
) -> Result<(), OutOfMemory> {
    diagnostic.tell("The object there has another type", KEEP_TYPE)?;
    if let Some(there) = there {
        let kind = type_of(there);
        diagnostic.details.text("type", kind)?;
        write!(&mut diagnostic.message, ", {kind}")?;
    }
    if let Command::Put(_, body) = command {
        let given = name(body.get().kind);
        diagnostic.details.text("given", given)?;
        write!(&mut diagnostic.message, ", and the put gives {given}")?;
    }
    diagnostic.message.push_str(".")
}
