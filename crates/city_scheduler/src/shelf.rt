//! Takes the changes of a desk's commits.
ghost use Rattle.std.specs.Prelude.{◌≡◌, ◌+◌, ◌<◌, ◌^◌, ℕ, List, [], ◌∷◌, ◌++◌, length, Option, option_map, IfSome};
ghost use Rattle.std.specs.Prelude.{IfOk, OnOk, OnErr};
ghost use Rattle.city_model.specs.CityMap.{object_at, CityValue};
ghost use Rattle.city_model.specs.Relations.{IsLawful};
ghost use Rattle.city_model.specs.Runs.{Change, after_changes};
ghost use Rattle.city_txn.specs.Changing.{IsChangeOf, change_in};
ghost use Rattle.city_txn.specs.CoreState.{committed};

use city_model::OutOfMemory;
use city_model::change::Change;
use city_txn::{Core, Prepared};
use std::sync::Wait;

/// Takes the change of each commit, and can show them.
///
/// A shelf stands for a list of changes, and may have a base city and a name. No call changes base
/// or name.
pub trait Shelf: Drop {
    /// A note of the list as shown.
    type Note: Drop + Send;

    /// The changes taken.
    ghost list: { Self → List Change };
    /// The city before the first change, if the shelf has one.
    ghost base: { Self → Option CityValue };

    ghost name: { Self → List ℕ };
    /// The changes that viewers see, if it has viewers.
    ghost published: { Self → Option (List Change) };
    /// The note stands for the list.
    ghost tells: { Self → Self.Note → Type 0 };

    /// Takes a change, still unseen by viewers. If memory runs out, the list stays.
    fn take(&mut self, change: Change) -> Result<(), OutOfMemory>
        requires room { length (list self.old) + 1 < 2 ^ 64 }
        requires lawful { IfSome (base self.old)
            (λ city. IsLawful (after_changes (object_at city.1) (list self.old ++ change ∷ []))) }
        ensures ok { OnOk result (list self.new ≡ list self.old ++ change ∷ []) }
        ensures err { OnErr result (list self.new ≡ list self.old) }
        ensures base { base self.new ≡ base self.old }
        ensures name { name self.new ≡ name self.old }
        ensures published { published self.new ≡ published self.old };

    /// Takes the change of an open transaction that may commit. If memory runs out, the list stays.
    ///
    /// By default the core makes the change for `take`. A shelf that keeps no changes can do
    /// without.
    fn take_from(&mut self, core: &Core, stamp: u64) -> Result<(), OutOfMemory>
        requires room { length (list self.old) + 1 < 2 ^ 64 }
        requires allowed { IsChangeOf core.now stamp (change_in core.now.writes stamp) }
        requires shows { IfSome (base self.old)
            (λ city. after_changes (object_at city.1) (list self.old) ≡ committed core.now) }
        ensures ok { OnOk result ((change : Change) × IsChangeOf core.now stamp change
            × (list self.new ≡ list self.old ++ change ∷ [])) }
        ensures err { OnErr result (list self.new ≡ list self.old) }
        ensures base { base self.new ≡ base self.old }
        ensures name { name self.new ≡ name self.old }
        ensures published { published self.new ≡ published self.old }
    {
        match core.prepare(stamp) {
            Ok(Prepared::Ready(change)) => self.take(change),
            _ => Err(OutOfMemory),
        }
    }

    /// Shows the list as it is; the list stays. If memory runs out, viewers see the same as before.
    fn show<R: Wait>(&mut self, rt: &R) -> Result<Self::Note, OutOfMemory>
        ensures list { list self.new ≡ list self.old }
        ensures base { base self.new ≡ base self.old }
        ensures name { name self.new ≡ name self.old }
        ensures published { OnOk result (published self.new ≡ option_map (λ seen. list self.old) (published self.old)) }
        ensures err { OnErr result (published self.new ≡ published self.old) }
        ensures note { IfOk result (λ note. tells self.new note) };
}
