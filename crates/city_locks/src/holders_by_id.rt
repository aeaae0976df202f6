//! The holders of each locked id.
ghost use Rattle.std.specs.Prelude.{◌≡◌, ℕ, List, cond, OnOk, OnErr, None, Some, [], true, is_some};
ghost use Rattle.std.specs.Ordering.{nat_cmp};
ghost use Rattle.std.specs.Cmp.Lexicographic.{slice_cmp};
ghost use Rattle.std.specs.BTreeMap.{get};
ghost use Rattle.city_locks.specs.Holders.{with_holder, without};
ghost use Rattle.city_model.specs.CityMap.{same_id, has_id};
ghost use Rattle.city_locks.specs.Locks.{holders_of, answer_of, mode_of};

use crate::answer::Answer;
use crate::holders::Holders;
use city_members::copied::Copied;
use city_members::text::Id;
use city_model::OutOfMemory;
use city_model::mode::Mode;
use std::alloc::Global;
use std::collections::BTreeMap;

/// The answer to an asker of the id.
pub fn answer_at(held: &BTreeMap<Id, Holders>, stamp: u64, id: &Id, mode: Mode) -> Answer
    ensures { result ≡ answer_of held.now.entries stamp id.now mode }
{
    match held.get(id) {
        Some(holders) => holders.answer(stamp, mode),
        None => Answer::Granted,
    }
}

/// The mode of the stamp at the id, if it is a holder.
pub fn mode_at(held: &BTreeMap<Id, Holders>, stamp: u64, id: &Id) -> Option<Mode>
    ensures { result ≡ mode_of held.now.entries stamp id.now }
{
    match held.get(id) {
        Some(holders) => holders.mode(stamp),
        None => None,
    }
}

/// Makes the stamp a holder of the id; `is_held` says whether the id has holders. If memory runs
/// out, all holders stay as they are; this happens only if the stamp doesn't hold the id yet.
pub fn grant(
    held: &mut BTreeMap<Id, Holders>,
    alloc: Global,
    stamp: u64,
    id: &Id,
    mode: Mode,
    is_held: bool,
) -> Result<(), OutOfMemory>
    requires { is_held ≡ is_some (get (slice_cmp nat_cmp) held.old id.now) }
    ensures ok { OnOk result ((q : List ℕ) → holders_of held.new.entries q ≡ cond (same_id id.now q)
        (with_holder (holders_of held.old.entries id.now) stamp mode) (holders_of held.old.entries q)) }
    ensures err { OnErr result (held.new.entries ≡ held.old.entries) }
    ensures absent { OnErr result (mode_of held.old.entries stamp id.now ≡ None) }
{
    if is_held {
        grant_beside(held, stamp, id, mode)
    } else {
        grant_first(held, alloc, stamp, id, mode)
    }
}

/// Makes the stamp a holder of an id with holders.
fn grant_beside(
    held: &mut BTreeMap<Id, Holders>,
    stamp: u64,
    id: &Id,
    mode: Mode,
) -> Result<(), OutOfMemory>
    requires { is_some (get (slice_cmp nat_cmp) held.old id.now) ≡ true }
    ensures ok { OnOk result ((q : List ℕ) → get (slice_cmp nat_cmp) held.new q ≡ cond (same_id id.now q)
        (Some (with_holder (holders_of held.old.entries id.now) stamp mode)) (get (slice_cmp nat_cmp) held.old q)) }
    ensures err { OnErr result (held.new.entries ≡ held.old.entries) }
    ensures absent { OnErr result (mode_of held.old.entries stamp id.now ≡ None) }
{
    match held.get_mut(id) {
        Some(holders) => holders.grant(stamp, mode),
        None => unreachable!(),
    }
}

/// Makes the stamp the only holder of an id without holders.
fn grant_first(
    held: &mut BTreeMap<Id, Holders>,
    alloc: Global,
    stamp: u64,
    id: &Id,
    mode: Mode,
) -> Result<(), OutOfMemory>
    requires { get (slice_cmp nat_cmp) held.old id.now ≡ None }
    ensures ok { OnOk result ((q : List ℕ) → get (slice_cmp nat_cmp) held.new q
        ≡ cond (same_id id.now q) (Some (with_holder [] stamp mode)) (get (slice_cmp nat_cmp) held.old q)) }
    ensures err { OnErr result (held.new.entries ≡ held.old.entries) }
{
    let key = id.copy(alloc)?;
    let mut holders = Holders::new(alloc);
    holders.grant(stamp, mode)?;
    held.insert(key, holders)?;
    Ok(())
}

/// Removes the stamp from the holders of all ids. `ids` has at least the ids that it holds. If it
/// is `alone`, no other stamp holds any, and no id is looked up.
pub fn release_all(held: &mut BTreeMap<Id, Holders>, stamp: u64, ids: &[Id], alone: bool)
    requires listed { (q : List ℕ) → is_some (mode_of held.old.entries stamp q) ≡ true → has_id ids.now q ≡ true }
    requires alone { alone ≡ true → (t : ℕ) (q : List ℕ) → is_some (mode_of held.old.entries t q) ≡ true → t ≡ stamp }
    ensures { (q : List ℕ) → holders_of held.new.entries q ≡ without (holders_of held.old.entries q) stamp }
{
    if alone {
        held.clear();
    } else {
        release_each(held, stamp, ids);
    }
}

/// Removes the stamp from the holders of each of the ids.
fn release_each(held: &mut BTreeMap<Id, Holders>, stamp: u64, ids: &[Id])
    ensures { (q : List ℕ) → holders_of held.new.entries q
        ≡ cond (has_id ids.now q) (without (holders_of held.old.entries q) stamp) (holders_of held.old.entries q) }
{
    for id in ids {
        release(held, stamp, id);
    }
}

/// Removes the stamp from the holders of the id, and the id if no holder is left.
fn release(held: &mut BTreeMap<Id, Holders>, stamp: u64, id: &Id)
    ensures { (q : List ℕ) → holders_of held.new.entries q ≡ cond (same_id id.now q)
        (without (holders_of held.old.entries id.now) stamp) (holders_of held.old.entries q) }
{
    if remove_holder(held, stamp, id) {
        let _ = held.remove(id);
    }
}

/// Removes the stamp from the holders of the id. Returns true if the id is in the map, with no
/// holder left.
fn remove_holder(held: &mut BTreeMap<Id, Holders>, stamp: u64, id: &Id) -> bool
    ensures empty { result ≡ true → holders_of held.new.entries id.now ≡ [] }
    ensures after { (q : List ℕ) → holders_of held.new.entries q ≡ cond (same_id id.now q)
        (without (holders_of held.old.entries id.now) stamp) (holders_of held.old.entries q) }
{
    match held.get_mut(id) {
        Some(holders) => {
            holders.release(stamp);
            holders.is_empty()
        }
        None => false,
    }
}
