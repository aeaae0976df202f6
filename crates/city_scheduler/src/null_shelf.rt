//! The shelf of a run without viewers: it keeps no change.
ghost use Rattle.std.specs.Prelude.{◌≡◌, ◌++◌, ◌∷◌, [], None, IsOk, OnOk};
ghost use Rattle.city_model.specs.Runs.{Change};
ghost use Rattle.city_txn.specs.Changing.{IsChangeOf, change_in};

use crate::ghosts::taken_changes::TakenChanges;
use crate::shelf::Shelf;
use city_model::OutOfMemory;
use city_model::change::Change;
use city_txn::Core;
use std::marker::Model;
use std::sync::Wait;

/// A shelf that keeps no change. It is zero-sized; contracts see the changes it took.
#[derive(Drop)]
pub struct NullShelf {
    taken: TakenChanges,
}

impl Model for NullShelf {
    ghost use Rattle.city_model.specs.Runs.{Change};
    ghost use Rattle.std.specs.Prelude.{List};
    ghost use Rattle.std.specs.Coded.{codes};
    ghost use Rattle.city_members.specs.internal.DataCode.{coded_members};

    ghost Value = { List Change };

    ghost coded = { Prim.hlevel (codes, coded_members) };

    ghost view = { λ s. s.taken };
}

impl NullShelf {
    /// A shelf before its first change. Doesn't allocate.
    pub fn new() -> NullShelf
        ensures { result ≡ [] }
    {
        NullShelf {
            taken: TakenChanges::none(),
        }
    }
}

impl Shelf for NullShelf {
    type Note = ();

    ghost list = { λ shelf. shelf };

    ghost base = { λ shelf. None };

    ghost name = { λ shelf. [] };

    ghost published = { λ shelf. None };

    ghost tells = { λ shelf note. Unit {0} };

    /// Doesn't allocate, and answers Ok.
    fn take(&mut self, change: Change) -> Result<(), OutOfMemory> {
        self.taken = self.taken.with(&change);
        Ok(())
    }

    /// Doesn't allocate, and answers Ok. No change is made.
    fn take_from(&mut self, core: &Core, stamp: u64) -> Result<(), OutOfMemory>
        requires allowed { IsChangeOf core.now stamp (change_in core.now.writes stamp) }
        ensures always { IsOk result }
        ensures ok { OnOk result
            ((change : Change) × IsChangeOf core.now stamp change × (self.new ≡ self.old ++ change ∷ [])) }
    {
        self.taken = self.taken.with_writes(core, stamp);
        Ok(())
    }

    /// Doesn't allocate, and answers Ok.
    fn show<R: Wait>(&mut self, _rt: &R) -> Result<(), OutOfMemory> {
        Ok(())
    }
}
