//! The plain shelf: it lists the changes, and has no viewers.
ghost use Rattle.std.specs.Prelude.{◌≡◌, [], None, IsOk};

use crate::shelf::Shelf;
use city_members::sequence::Sequence;
use city_model::OutOfMemory;
use city_model::change::Change;
use std::alloc::Global;
use std::marker::Model;
use std::sync::Wait;

/// The plain shelf: a list of changes without viewers.
#[derive(Drop)]
pub struct ListShelf {
    changes: Sequence<Change>,
}

impl Model for ListShelf {
    ghost use Rattle.city_model.specs.Runs.{Change};
    ghost use Rattle.std.specs.Prelude.{List};

    ghost Value = { List Change };

    ghost use Rattle.std.specs.Coded.{codes};
    ghost use Rattle.city_members.specs.internal.DataCode.{coded_members};

    ghost coded = { Prim.hlevel (codes, coded_members) };

    ghost view = { λ s. s.changes };
}

impl ListShelf {
    /// A shelf without changes. Doesn't allocate.
    pub fn new(alloc: Global) -> ListShelf
        ensures { result ≡ [] }
    {
        ListShelf {
            changes: Sequence::new(alloc),
        }
    }

    /// The changes taken. Doesn't allocate.
    pub fn changes(&self) -> &[Change]
        ensures { result.now ≡ self.now }
    {
        self.changes.as_slice()
    }
}

impl Shelf for ListShelf {
    type Note = ();

    ghost list = { λ shelf. shelf };

    ghost base = { λ shelf. None };

    ghost name = { λ shelf. [] };

    ghost published = { λ shelf. None };

    ghost tells = { λ shelf note. Unit {0} };

    fn take(&mut self, change: Change) -> Result<(), OutOfMemory> {
        self.changes.push(change)
    }

    /// Doesn't allocate, and answers Ok.
    fn show<R: Wait>(&mut self, _rt: &R) -> Result<(), OutOfMemory>
        ensures list { self.new ≡ self.old }
        ensures ok { IsOk result }
    {
        Ok(())
    }
}
