//! The changes taken by a shelf, for contracts only.
ghost use Rattle.std.specs.Prelude.{◌≡◌, ◌++◌, ◌∷◌, []};
ghost use Rattle.city_txn.specs.Changing.{change_in};

use crate::ghosts::no_rule::NoRule;
use city_model::change::Change;
use city_txn::Core;
use logbook::{Opening as FirstEntries, Seen, Start};
use std::marker::Model;

/// The first entries of `TakenChanges::none`: no change.
pub struct NoChange;

impl FirstEntries<(), Change> for NoChange {
    ghost use Rattle.std.specs.Prelude.{[]};

    ghost log = { λ count about. [] };
}

/// Changes, and one more.
#[derive(Clone, Copy)]
pub struct WithChange<'a> {
    taken: &'a TakenChanges,
    change: &'a Change,
}

/// The first entries of `TakenChanges::with`: these changes and one more.
pub struct OneMore;

impl<'a> FirstEntries<WithChange<'a>, Change> for OneMore {
    ghost use Rattle.std.specs.Prelude.{◌++◌, ◌∷◌, []};

    ghost log = { λ count with. with.taken.now ++ with.change.now ∷ [] };
}

/// Changes, and the writes of an open transaction of a core.
#[derive(Clone, Copy)]
pub struct WithWrites<'a> {
    taken: &'a TakenChanges,
    core: &'a Core,
    stamp: u64,
}

/// The first entries of `TakenChanges::with_writes`: these changes and the transaction's.
pub struct OneWritten;

impl<'a> FirstEntries<WithWrites<'a>, Change> for OneWritten {
    ghost use Rattle.std.specs.Prelude.{◌++◌, ◌∷◌, []};
    ghost use Rattle.city_txn.specs.Changing.{change_in};

    ghost log = { λ count with. with.taken.now ++ change_in with.core.now.writes with.stamp ∷ [] };
}

/// The changes taken by a shelf. It is zero-sized; contracts see the changes.
#[derive(Drop)]
pub struct TakenChanges {
    seen: Seen<Change, u64, NoRule>,
}

impl Model for TakenChanges {
    ghost use Rattle.city_model.specs.Runs.{Change};
    ghost use Rattle.std.specs.Prelude.{List};
    ghost use Rattle.std.specs.Coded.{codes};
    ghost use Rattle.city_members.specs.internal.DataCode.{coded_members};

    ghost Value = { List Change };

    ghost coded = { Prim.hlevel (codes, coded_members) };

    ghost view = { λ t. t.seen.log };
}

impl TakenChanges {
    /// No change.
    pub fn none() -> TakenChanges
        ensures { result ≡ [] }
    {
        let (seen, _pens) = Seen::open_row::<(), NoChange>(&(), Start::alone(), 0);
        TakenChanges { seen }
    }

    /// These changes, and one more.
    pub fn with(&self, change: &Change) -> TakenChanges
        ensures { result ≡ self.now ++ change.now ∷ [] }
    {
        let with = WithChange {
            taken: self,
            change,
        };
        let (seen, _pens) = Seen::open_row::<WithChange<'_>, OneMore>(&with, Start::alone(), 0);
        TakenChanges { seen }
    }

    /// These changes, and the one of an open transaction; the change itself isn't made.
    pub fn with_writes(&self, core: &Core, stamp: u64) -> TakenChanges
        ensures { result ≡ self.now ++ change_in core.now.writes stamp ∷ [] }
    {
        let with = WithWrites {
            taken: self,
            core,
            stamp,
        };
        let (seen, _pens) = Seen::open_row::<WithWrites<'_>, OneWritten>(&with, Start::alone(), 0);
        TakenChanges { seen }
    }
}
