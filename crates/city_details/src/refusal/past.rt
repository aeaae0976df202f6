//! What the earlier commands of a transaction left.
use city_members::text::{Id, Text};
use city_model::OutOfMemory;
use city_model::command::Command;
use city_model::id_list::is_same_id;
use std::alloc::Global;

/// A mark, and how many were taken before it.
#[derive(Clone, Copy)]
struct Marked<'a> {
    name: &'a Text,
    taken: usize,
}

/// A child, and the parent that was taken from it; or an object that was deleted, so that a later one of its id lost no
/// parent.
#[derive(Clone, Copy)]
struct Taken<'a> {
    child: &'a Id,
    parent: Option<&'a Id>,
}

/// The marks of a transaction, the parents that it took from objects, and the objects that it deleted.
#[derive(Drop)]
pub struct Past<'a> {
    marks: Vec<Marked<'a>>,
    taken: Vec<Taken<'a>>,
}

impl<'a> Past<'a> {
    /// That of a transaction without commands. Doesn't allocate.
    pub fn new(alloc: Global) -> Past<'a> {
        Past {
            marks: Vec::new(alloc),
            taken: Vec::new(alloc),
        }
    }

    /// Adds a command that was done.
    pub fn add(&mut self, command: &'a Command) -> Result<(), OutOfMemory> {
        match command {
            Command::Mark(name) => {
                let taken = self.taken.len();
                self.marks.push(Marked { name, taken })?;
            }
            Command::Back(name) => self.go_back(name),
            Command::Detach(child, parent) => self.take(child, Some(parent))?,
            Command::Delete(id) => self.take(id, None)?,
            _ => {}
        }
        Ok(())
    }

    fn take(&mut self, child: &'a Id, parent: Option<&'a Id>) -> Result<(), OutOfMemory> {
        self.taken.push(Taken { child, parent })?;
        Ok(())
    }

    /// Drops what came after the newest mark of a name. The mark stays.
    fn go_back(&mut self, name: &Text) {
        let found = self
            .marks
            .iter()
            .rposition(|mark| is_same_id(mark.name, name));
        if let Some(found) = found {
            if let Some(mark) = self.marks.get(found) {
                self.taken.truncate(mark.taken);
            }
            self.marks.truncate(found.saturating_add(1));
        }
    }

    /// The names of the marks, the oldest first.
    pub(crate) fn mark_names(&self, alloc: Global) -> Result<Vec<&'a str>, OutOfMemory> {
        let mut names = Vec::with_capacity(alloc, self.marks.len())?;
        for mark in &self.marks {
            names.push(mark.name.as_str())?;
        }
        Ok(names)
    }

    /// The parent that was taken last from an object, if any was.
    pub(crate) fn last_parent(&self, child: &Id) -> Option<&'a Id> {
        for taken in self.taken.iter().rev() {
            if is_same_id(taken.child, child) {
                return taken.parent;
            }
        }
        None
    }
}
