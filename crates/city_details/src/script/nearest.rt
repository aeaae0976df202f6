//! The command nearest to a misspelt word.
use crate::script::forms::{FORMS, WORDS};
use city_model::OutOfMemory;
use serde_json::{Map, Value};
use std::alloc::Global;
use strsim::osa_distance;

/// Most bytes of a word compared with the names of commands. A longer one is far from all of them.
const LONGEST: usize = 32;

/// Most letters of a word that may be wrong, missing, too many, or swapped with the next.
const MOST_EDITS: usize = 2;

/// Most members of a command compared with the names of commands. No command has as many.
const MOST_MEMBERS: usize = 16;

/// The name of a command, and its distance in edits from a word.
#[derive(Clone, Copy)]
struct Found {
    name: &'static str,
    edits: usize,
}

/// A member, and the name of the command nearest to it.
#[derive(Clone, Copy)]
pub struct NearMember<'t> {
    pub member: &'t str,
    pub name: &'static str,
}

/// Returns the member nearest to the name of a command, if one is near: among several the first in byte order.
pub fn nearest_member<'t>(
    alloc: Global,
    members: &'t Map<String, Value>,
) -> Result<Option<NearMember<'t>>, OutOfMemory> {
    let mut near = None;
    let mut fewest = MOST_EDITS + 1;
    for member in members.keys().take(MOST_MEMBERS) {
        let member = member.as_str();
        if let Some(Found { name, edits }) = found_near(alloc, member)? {
            if edits < fewest {
                near = Some(NearMember { member, name });
                fewest = edits;
            }
        }
    }
    Ok(near)
}

/// Returns the name of a command nearest to a word, if one is near: among several the first in byte order.
///
/// A near name differs by at most two letters, and by fewer than the word has.
pub fn nearest(alloc: Global, word: &str) -> Result<Option<&'static str>, OutOfMemory> {
    match found_near(alloc, word)? {
        None => Ok(None),
        Some(found) => Ok(Some(found.name)),
    }
}

fn found_near(alloc: Global, word: &str) -> Result<Option<Found>, OutOfMemory> {
    if word.len() > LONGEST {
        return Ok(None);
    }
    let mut found = Found {
        name: "",
        edits: word.chars().count().min(MOST_EDITS + 1),
    };
    for form in FORMS {
        found.look_at(alloc, word, form.name)?;
    }
    for name in WORDS {
        found.look_at(alloc, word, *name)?;
    }
    if found.name.is_empty() {
        return Ok(None);
    }
    Ok(Some(found))
}

impl Found {
    /// Takes a name if it is nearer to the word, or as near and earlier in byte order.
    fn look_at(
        &mut self,
        alloc: Global,
        word: &str,
        name: &'static str,
    ) -> Result<(), OutOfMemory> {
        let edits = osa_distance(alloc, word, name)?;
        if edits < self.edits || (edits == self.edits && name < self.name) {
            self.name = name;
            self.edits = edits;
        }
        Ok(())
    }
}
