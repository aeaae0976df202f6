//! Diagnostics of missing or wrong members of the top.
use crate::diagnostic::Diagnostic;
use crate::path::{Step, path_text};
use crate::quoted::Quoted;
use crate::text::COLLECT;
use crate::text::form::FEATURE;
use city_model::OutOfMemory;
use city_tokens::{triple_at, triple_of};
use serde_json::{Map, Value};
use std::alloc::Global;
use std::fmt::Write;

const UPGRADE: &str = "Upgrade to CityJSON 2.0, and drop extensions.";

/// Says what is wrong with the member of this name, the first wrong one.
pub fn tell_wrong_member(
    alloc: Global,
    tree: &Value,
    name: &str,
    diagnostic: &mut Diagnostic,
) -> Result<(), OutOfMemory> {
    if tree.is_array() {
        diagnostic.details.text("form", "scripts")?;
        return diagnostic.tell(
            "The text is an array, as scripts are, and no document.",
            "Give MODEL before SCRIPTS.",
        );
    }
    let Some(member) = tree.get(name) else {
        write!(diagnostic.told(UPGRADE), "The document has no {name}.")?;
        return tell_path(alloc, &[Step::Member(name)], diagnostic);
    };
    if let Some(given) = member.as_str() {
        diagnostic.details.text("given", given)?;
    }
    match name {
        "transform" => tell_transform(alloc, member, diagnostic),
        "CityObjects" => tell_objects(alloc, member, diagnostic),
        "vertices" => tell_vertices(alloc, member, diagnostic),
        "extensions" => {
            diagnostic.tell(
                "The document has extensions, which are never read.",
                UPGRADE,
            )?;
            tell_path(alloc, &[Step::Member(name)], diagnostic)
        }
        _ => {
            tell_wrong_text(name, member.as_str(), diagnostic)?;
            tell_path(alloc, &[Step::Member(name)], diagnostic)
        }
    }
}

/// Narrows the place to a path, and adds the path.
fn tell_path(
    alloc: Global,
    steps: &[Step<'_>],
    diagnostic: &mut Diagnostic,
) -> Result<(), OutOfMemory> {
    let path = path_text(alloc, steps)?;
    diagnostic.narrowed()?.push_str(path.as_str())?;
    diagnostic.details.text("path", path.as_str())
}

/// Says what is wrong with the type or the version, by its text.
fn tell_wrong_text(
    name: &str,
    given: Option<&str>,
    diagnostic: &mut Diagnostic,
) -> Result<(), OutOfMemory> {
    let Some(given) = given else {
        write!(
            diagnostic.told(UPGRADE),
            "The {name} of the document isn't a text."
        )?;
        return Ok(());
    };
    if name == "type" && given == FEATURE {
        return diagnostic.tell(
            "The document is a CityJSONFeature, as the lines of CityJSONSeq are.",
            COLLECT,
        );
    }
    let given = Quoted(given);
    let wanted = if name == "type" { "CityJSON" } else { "2.0" };
    write!(
        diagnostic.told(UPGRADE),
        "The {name} of the document is {given}, and not \"{wanted}\"."
    )?;
    Ok(())
}

fn tell_transform(
    alloc: Global,
    transform: &Value,
    diagnostic: &mut Diagnostic,
) -> Result<(), OutOfMemory> {
    let top = Step::Member("transform");
    if !transform.is_object() {
        diagnostic.tell("The transform isn't an object.", UPGRADE)?;
        return tell_path(alloc, &[top], diagnostic);
    }
    let name = if triple_at(transform, "scale").is_none() {
        "scale"
    } else {
        "translate"
    };
    write!(
        diagnostic.told(UPGRADE),
        "The {name} of the transform isn't an array of three numbers."
    )?;
    tell_path(alloc, &[top, Step::Member(name)], diagnostic)
}

fn tell_objects(
    alloc: Global,
    objects: &Value,
    diagnostic: &mut Diagnostic,
) -> Result<(), OutOfMemory> {
    let top = Step::Member("CityObjects");
    let Some(members) = objects.as_object() else {
        diagnostic.tell("CityObjects isn't an object.", UPGRADE)?;
        return tell_path(alloc, &[top], diagnostic);
    };
    match first_other(members) {
        None => Ok(()),
        Some(id) => {
            let shown = Quoted(id);
            write!(
                diagnostic.told(UPGRADE),
                "The city object {shown} isn't an object."
            )?;
            tell_path(alloc, &[top, Step::Member(id)], diagnostic)
        }
    }
}

/// The name of the first member other than an object.
fn first_other(members: &Map<String, Value>) -> Option<&str> {
    for (name, member) in members.iter() {
        if !member.is_object() {
            return Some(name.as_str());
        }
    }
    None
}

fn tell_vertices(
    alloc: Global,
    vertices: &Value,
    diagnostic: &mut Diagnostic,
) -> Result<(), OutOfMemory> {
    let top = Step::Member("vertices");
    let Some(items) = vertices.as_array() else {
        diagnostic.tell("The vertices aren't an array.", UPGRADE)?;
        return tell_path(alloc, &[top], diagnostic);
    };
    match items.iter().position(|item| triple_of(item).is_none()) {
        None => Ok(()),
        Some(number) => {
            write!(
                diagnostic.told(UPGRADE),
                "Vertex {number} isn't an array of three whole numbers."
            )?;
            tell_path(alloc, &[top, Step::Item(number)], diagnostic)
        }
    }
}
