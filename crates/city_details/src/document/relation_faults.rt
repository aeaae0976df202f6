//! Broken rules on an object's parents and children.
use crate::diagnostic::Diagnostic;
use crate::document::relatives::{Relatives, RelativesById, list_at, repeated_in};
use crate::quoted::Quoted;
use city_model::OutOfMemory;
use city_model::object_type::{ObjectType, family, is_same, level, name};
use serde_json::Value;
use std::alloc::Global;
use std::fmt::{self, Display, Formatter, Write};

/// One of the two lists of ids of an object.
#[derive(Clone, Copy)]
enum IdList {
    Parents,
    Children,
}

impl IdList {
    fn name(self) -> &'static str {
        match self {
            IdList::Parents => "parents",
            IdList::Children => "children",
        }
    }

    /// The word for one item of the list.
    fn one(self) -> &'static str {
        match self {
            IdList::Parents => "parent",
            IdList::Children => "child",
        }
    }

    /// The list on the other side of a relation.
    fn other_side(self) -> IdList {
        match self {
            IdList::Parents => IdList::Children,
            IdList::Children => IdList::Parents,
        }
    }
}

/// A broken rule, with the other object.
#[derive(Clone, Copy)]
enum Broken<'t> {
    NoListOfIds(IdList),
    Repeated(IdList, &'t str),
    FirstLevelWithParents(ObjectType, &'t str),
    NoParents(ObjectType),
    Itself(&'t str),
    Missing(IdList, &'t str),
    NotMutual(IdList, &'t str),
    /// The object's type, and the type of this parent.
    OtherFamily(ObjectType, ObjectType, &'t str),
}

impl<'t> Broken<'t> {
    fn rule(&self) -> &'static str {
        match self {
            Broken::NoListOfIds(_) => "no list of ids",
            Broken::Repeated(_, _) => "repeated",
            Broken::FirstLevelWithParents(_, _) => "first-level with parents",
            Broken::NoParents(_) => "no parents",
            Broken::Itself(_) => "itself",
            Broken::Missing(_, _) => "missing",
            Broken::NotMutual(_, _) => "not mutual",
            Broken::OtherFamily(_, _, _) => "other family",
        }
    }

    fn list(&self) -> IdList {
        match *self {
            Broken::NoListOfIds(list)
            | Broken::Repeated(list, _)
            | Broken::Missing(list, _)
            | Broken::NotMutual(list, _) => list,
            _ => IdList::Parents,
        }
    }

    fn other(&self) -> Option<&'t str> {
        match *self {
            Broken::NoListOfIds(_) | Broken::NoParents(_) => None,
            Broken::Repeated(_, other)
            | Broken::FirstLevelWithParents(_, other)
            | Broken::Itself(other)
            | Broken::Missing(_, other)
            | Broken::NotMutual(_, other)
            | Broken::OtherFamily(_, _, other) => Some(other),
        }
    }
}

impl Display for Broken<'_> {
    fn fmt<W: Write>(&self, f: &mut Formatter<W>) -> fmt::Result {
        match *self {
            Broken::NoListOfIds(list) => {
                let names = list.name();
                write!(f, "Its {names} aren't an array of texts.")
            }
            Broken::Repeated(list, id) => {
                let (names, id) = (list.name(), Quoted(id));
                write!(f, "Its {names} have {id} twice.")
            }
            Broken::FirstLevelWithParents(kind, id) => {
                let (kind, id) = (name(kind), Quoted(id));
                write!(
                    f,
                    "An object of type {kind} has no parents, but it has the parent {id}."
                )
            }
            Broken::NoParents(kind) => {
                let kind = name(kind);
                write!(f, "An object of type {kind} has a parent, but it has none.")
            }
            Broken::Itself(_) => write!(f, "It is its own parent."),
            Broken::Missing(list, id) => {
                let (one, id) = (list.one(), Quoted(id));
                write!(f, "Its {one} {id} is no object that can be read.")
            }
            Broken::NotMutual(list, id) => {
                let (one, id) = (list.one(), Quoted(id));
                let back = list.other_side().name();
                write!(f, "Its {one} {id} doesn't have it in its {back}.")
            }
            Broken::OtherFamily(own, kind, id) => {
                let (own, kind, id) = (name(own), name(kind), Quoted(id));
                write!(
                    f,
                    "Its parent {id} is of type {kind}, another family than that of {own}."
                )
            }
        }
    }
}

/// Tells the first broken rule on an object's parents and children.
pub fn tell_relations(
    alloc: Global,
    objects: &RelativesById,
    id: &str,
    object: &Value,
    diagnostic: &mut Diagnostic,
) -> Result<(), OutOfMemory> {
    let Some(broken) = first_broken(alloc, objects, id, object)? else {
        return Ok(());
    };
    diagnostic.details.text("rule", broken.rule())?;
    diagnostic.details.text("list", broken.list().name())?;
    if let Some(other) = broken.other() {
        diagnostic.details.text("other", other)?;
    }
    write!(
        diagnostic.told("Correct both sides of the relation."),
        "{broken}"
    )?;
    Ok(())
}

/// The first broken rule, if any.
fn first_broken<'t>(
    alloc: Global,
    objects: &RelativesById,
    id: &str,
    object: &'t Value,
) -> Result<Option<Broken<'t>>, OutOfMemory> {
    let Some(parents) = list_at(object, "parents") else {
        return Ok(Some(Broken::NoListOfIds(IdList::Parents)));
    };
    let Some(children) = list_at(object, "children") else {
        return Ok(Some(Broken::NoListOfIds(IdList::Children)));
    };
    if let Some(other) = repeated_in(alloc, parents)? {
        return Ok(Some(Broken::Repeated(IdList::Parents, other)));
    }
    if let Some(other) = repeated_in(alloc, children)? {
        return Ok(Some(Broken::Repeated(IdList::Children, other)));
    }
    let Some(own) = objects.get(id) else {
        return Ok(None);
    };
    if let Some(broken) = broken_by_level(own.kind, parents) {
        return Ok(Some(broken));
    }
    match broken_by_parents(objects, id, own.kind, parents) {
        None => Ok(broken_by_children(objects, id, children)),
        broken => Ok(broken),
    }
}

/// The rule broken by an object's parents at its level: the second has parents, the first has none.
fn broken_by_level(kind: ObjectType, parents: &[Value]) -> Option<Broken<'_>> {
    match parents.first() {
        None if level(kind) == 2 => Some(Broken::NoParents(kind)),
        None => None,
        Some(_) if level(kind) == 2 => None,
        Some(parent) => Some(Broken::FirstLevelWithParents(kind, parent.as_str()?)),
    }
}

fn broken_by_parents<'t>(
    objects: &RelativesById,
    id: &str,
    kind: ObjectType,
    parents: &'t [Value],
) -> Option<Broken<'t>> {
    for parent in parents {
        if let Some(parent) = parent.as_str() {
            let broken = broken_by_parent(objects, id, kind, parent);
            if broken.is_some() {
                return broken;
            }
        }
    }
    None
}

fn broken_by_parent<'t>(
    objects: &RelativesById,
    id: &str,
    kind: ObjectType,
    parent: &'t str,
) -> Option<Broken<'t>> {
    if parent == id {
        return Some(Broken::Itself(parent));
    }
    let Some(other) = objects.get(parent) else {
        return Some(Broken::Missing(IdList::Parents, parent));
    };
    if !other.children.contains(id) {
        Some(Broken::NotMutual(IdList::Parents, parent))
    } else if !is_same(family(other.kind), family(kind)) {
        Some(Broken::OtherFamily(kind, other.kind, parent))
    } else {
        None
    }
}

fn broken_by_children<'t>(
    objects: &RelativesById,
    id: &str,
    children: &'t [Value],
) -> Option<Broken<'t>> {
    for child in children {
        if let Some(child) = child.as_str() {
            match objects.get(child) {
                None => return Some(Broken::Missing(IdList::Children, child)),
                Some(other) if !other.parents.contains(id) => {
                    return Some(Broken::NotMutual(IdList::Children, child));
                }
                Some(_) => {}
            }
        }
    }
    None
}
