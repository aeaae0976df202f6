//! The lock table.
ghost use Rattle.std.specs.Prelude.{◌≡◌, ◌≢◌, ℕ, List, ◌==◌, ◌&&◌, cond, OnOk, OnErr, IfOk, None, Some, [], ◌∷◌};
ghost use Rattle.std.specs.Prelude.{true, is_some, option_map};
ghost use Rattle.std.specs.Ordering.{nat_cmp};
ghost use Rattle.std.specs.Cmp.Lexicographic.{slice_cmp};
ghost use Rattle.std.specs.BTreeMap.{get};
ghost use Rattle.city_model.specs.declared.mode.Mode.{Mode};
ghost use Rattle.city_model.specs.Chunks.{ids_left};
ghost use Rattle.city_model.specs.Meaning.{exclusively};
ghost use Rattle.city_locks.specs.Asking.{Asked, first_answer, first_ungranted};
ghost use Rattle.city_locks.specs.Mode.{stronger};
ghost use Rattle.city_locks.specs.Holders.{with_holder, without};
ghost use Rattle.city_model.specs.CityMap.{same_id, has_id};
ghost use Rattle.city_locks.specs.Locks.{holders_of, answer_of, mode_of, Lawful, HoldOnce};
ghost use Rattle.city_locks.specs.internal.Listing.{ids_of, IsListed};
ghost use Rattle.city_locks.specs.WaitDie.{IsWaitDie, IsInConflict};

use crate::answer::Answer;
use crate::by_stamp::push;
use crate::holders::{Holder, Holders};
use crate::holders_by_id;
use crate::lock_request::LockRequest;
use city_members::copied::Copied;
use city_members::sequence::Sequence;
use city_members::text::Id;
use city_model::OutOfMemory;
use city_model::id_list::Ids;
use city_model::mode::Mode;
use std::alloc::Global;
use std::collections::BTreeMap;
use std::marker::Model;

/// The holders of each id, with their modes.
///
/// Contracts see the locked ids, in byte order, each with its holders. Beside them the table lists
/// the ids of each stamp, so that a release goes straight to the stamp's own locks.
#[derive(Drop)]
pub struct LockTable {
    alloc: Global,
    holders: BTreeMap<Id, Holders>,
    /// The ids held by each stamp, and maybe more.
    locked: BTreeMap<u64, Sequence<Id>>,
}

impl Model for LockTable {
    ghost use Rattle.city_locks.specs.Locks.{Locks};

    ghost Value = { Locks };

    ghost use Rattle.city_locks.specs.internal.Table.{IsTable};

    ghost view = { λ a. a.holders.entries };

    ghost invariant = { IsTable };
}

impl LockTable {
    /// A table with no locks. Doesn't allocate.
    pub fn new(alloc: Global) -> Self
        ensures { result ≡ [] }
    {
        LockTable {
            alloc,
            holders: BTreeMap::new(alloc),
            locked: BTreeMap::new(alloc),
        }
    }

    /// Asks for the id in the mode, and returns the answer.
    ///
    /// The other holders of the id are in conflict if the mode or theirs is exclusive. With none in
    /// conflict the answer is `Granted`, and the stamp holds the id in the stronger of the mode and
    /// its own. If the stamp is less than all in conflict, the answer is `Wait`, and otherwise
    /// `Die`; both leave the table as it is. So does `OutOfMemory`, which comes only in place of
    /// `Granted`, and never if the stamp holds the id already.
    pub fn ask(&mut self, stamp: u64, id: &Id, mode: Mode) -> Result<Answer, OutOfMemory>
        ensures answer { IfOk result (λ a. a ≡ answer_of self.old stamp id.now mode) }
        ensures wait_die { IfOk result (IsWaitDie (IsInConflict self.old stamp id.now mode) stamp) }
        ensures granted { OnOk result (answer_of self.old stamp id.now mode ≡ Answer.Granted → (t : ℕ) (q : List ℕ) →
            mode_of self.new t q ≡ cond ((stamp == t) && same_id id.now q)
            (Some (stronger mode (mode_of self.old stamp id.now))) (mode_of self.old t q)) }
        ensures holders { OnOk result (answer_of self.old stamp id.now mode ≡ Answer.Granted → (q : List ℕ) →
            holders_of self.new q ≡ cond (same_id id.now q) (with_holder (holders_of self.old id.now) stamp mode)
            (holders_of self.old q)) }
        ensures own { (q : List ℕ) (n : Mode) → answer_of self.new stamp q n ≡ answer_of self.old stamp q n }
        ensures refused { OnOk result (answer_of self.old stamp id.now mode ≢ Answer.Granted → self.new ≡ self.old) }
        ensures err { OnErr result (self.new ≡ self.old) }
        ensures memory { OnErr result
            ((answer_of self.old stamp id.now mode ≡ Answer.Granted) × (mode_of self.old stamp id.now ≡ None)) }
        ensures lawful { Lawful self.new }
        ensures once { HoldOnce self.new }
    {
        let there = LockRequest::at(&self.holders, stamp, id, mode);
        if let Answer::Granted = there.answer {
            acquire(
                &mut self.holders,
                &mut self.locked,
                self.alloc,
                stamp,
                id,
                mode,
                there,
            )?;
        }
        Ok(there.answer)
    }

    /// Releases all locks of the stamp, and no others. If it has none, nothing changes. Doesn't
    /// allocate.
    pub fn release_all(&mut self, stamp: u64)
        ensures modes { (t : ℕ) (q : List ℕ) → mode_of self.new t q ≡ cond (stamp == t) None (mode_of self.old t q) }
        ensures holders { (q : List ℕ) → holders_of self.new q ≡ without (holders_of self.old q) stamp }
        ensures lawful { Lawful self.new }
        ensures once { HoldOnce self.new }
    {
        release(&mut self.holders, &mut self.locked, stamp);
    }

    /// The mode of the stamp at the id, if it is a holder.
    pub fn mode(&self, stamp: u64, id: &Id) -> Option<Mode>
        ensures value { result ≡ mode_of self.now stamp id.now }
        ensures lawful { Lawful self.now }
        ensures once { HoldOnce self.now }
    {
        holders_by_id::mode_at(&self.holders, stamp, id)
    }

    /// The answer of `ask`, unless memory runs out. Doesn't allocate.
    pub fn would_answer(&self, stamp: u64, id: &Id, mode: Mode) -> Answer
        ensures answer { result ≡ answer_of self.now stamp id.now mode }
        ensures wait_die { IsWaitDie (IsInConflict self.now stamp id.now mode) stamp result }
        ensures lawful { Lawful self.now }
        ensures once { HoldOnce self.now }
    {
        holders_by_id::answer_at(&self.holders, stamp, id, mode)
    }

    /// The holders of the id, each stamp once; none if nobody holds it. Doesn't allocate.
    pub fn holders(&self, id: &Id) -> &[Holder]
        ensures value { result.now ≡ holders_of self.now id.now }
        ensures once { HoldOnce self.now }
    {
        match self.holders.get(id) {
            Some(holders) => holders.as_slice(),
            None => &[],
        }
    }

    /// The ids that the stamp holds, and maybe more, each maybe more than once. Doesn't allocate.
    pub fn locked(&self, stamp: u64) -> &[Id]
        ensures { (q : List ℕ) → is_some (mode_of self.now stamp q) ≡ true → has_id result.now q ≡ true }
    {
        match self.locked.get(&stamp) {
            Some(ids) => ids.as_slice(),
            None => &[],
        }
    }

    /// Asks for the id in the mode, and then for the others exclusively, in their order, up to the
    /// first lock not granted. If memory runs out, the locks granted so far stay.
    pub fn ask_in_turn(
        &mut self,
        stamp: u64,
        id: &Id,
        mode: Mode,
        others: Ids<'_>,
    ) -> Result<Answer, OutOfMemory>
        ensures { Asked stamp ((id.now, mode) ∷ exclusively (ids_left others.entry)) result self.old self.new }
    {
        let answer = self.ask(stamp, id, mode)?;
        match answer {
            Answer::Granted => self.ask_each(stamp, others),
            Answer::Wait | Answer::Die => Ok(answer),
        }
    }

    /// Asks for the ids exclusively, in their order.
    fn ask_each(&mut self, stamp: u64, ids: Ids<'_>) -> Result<Answer, OutOfMemory>
        ensures { Asked stamp (exclusively (ids_left ids.entry)) result self.old self.new }
    {
        for id in ids {
            let answer = self.ask(stamp, id, Mode::Exclusive)?;
            match answer {
                Answer::Granted => {}
                Answer::Wait | Answer::Die => return Ok(answer),
            }
        }
        Ok(Answer::Granted)
    }

    /// The answer of `ask_in_turn`, unless memory runs out. Doesn't allocate.
    pub fn would_answer_in_turn(&self, stamp: u64, id: &Id, mode: Mode, others: Ids<'_>) -> Answer
        ensures { result ≡ first_answer self.now stamp ((id.now, mode) ∷ exclusively (ids_left others.entry)) }
    {
        match self.would_answer(stamp, id, mode) {
            Answer::Granted => self.would_answer_each(stamp, others),
            Answer::Wait => Answer::Wait,
            Answer::Die => Answer::Die,
        }
    }

    /// The answer to exclusive locks on the ids, in their order.
    fn would_answer_each(&self, stamp: u64, ids: Ids<'_>) -> Answer
        ensures { result ≡ first_answer self.now stamp (exclusively (ids_left ids.entry)) }
    {
        for id in ids {
            match self.would_answer(stamp, id, Mode::Exclusive) {
                Answer::Granted => {}
                Answer::Wait => return Answer::Wait,
                Answer::Die => return Answer::Die,
            }
        }
        Answer::Granted
    }

    /// The first lock that `ask_in_turn` isn't granted, if there is one. Doesn't allocate.
    pub fn first_conflict<'a>(
        &self,
        stamp: u64,
        id: &'a Id,
        mode: Mode,
        others: Ids<'a>,
    ) -> Option<(&'a Id, Mode)>
        ensures { option_map (λ lock. (lock.0.now, lock.1)) result
            ≡ first_ungranted self.now stamp ((id.now, mode) ∷ exclusively (ids_left others.entry)) }
    {
        match self.would_answer(stamp, id, mode) {
            Answer::Granted => self.first_conflict_each(stamp, others),
            Answer::Wait => Some((id, mode)),
            Answer::Die => Some((id, mode)),
        }
    }

    /// The first of exclusive locks on the ids that isn't granted, if there is one.
    fn first_conflict_each<'a>(&self, stamp: u64, ids: Ids<'a>) -> Option<(&'a Id, Mode)>
        ensures { option_map (λ lock. (lock.0.now, lock.1)) result
            ≡ first_ungranted self.now stamp (exclusively (ids_left ids.entry)) }
    {
        for id in ids {
            match self.would_answer(stamp, id, Mode::Exclusive) {
                Answer::Granted => {}
                Answer::Wait => return Some((id, Mode::Exclusive)),
                Answer::Die => return Some((id, Mode::Exclusive)),
            }
        }
        None
    }
}

/// Makes the stamp, whose request is given, a holder of the id, and lists the id at the stamp.
///
/// If memory runs out, all holders stay as they are. The id may then be listed and not held: a
/// release passes over it.
fn acquire(
    holders: &mut BTreeMap<Id, Holders>,
    locked: &mut BTreeMap<u64, Sequence<Id>>,
    alloc: Global,
    stamp: u64,
    id: &Id,
    mode: Mode,
    there: LockRequest,
) -> Result<(), OutOfMemory>
    requires listed { IsListed holders.old.entries locked.old }
    requires own { there.own ≡ mode_of holders.old.entries stamp id.now }
    requires is_held { there.is_held ≡ is_some (get (slice_cmp nat_cmp) holders.old id.now) }
    ensures ok { OnOk result ((q : List ℕ) → holders_of holders.new.entries q
        ≡ cond (same_id id.now q) (with_holder (holders_of holders.old.entries id.now) stamp mode)
        (holders_of holders.old.entries q)) }
    ensures err { OnErr result (holders.new.entries ≡ holders.old.entries) }
    ensures absent { OnErr result (mode_of holders.old.entries stamp id.now ≡ None) }
    ensures listed { IsListed holders.new.entries locked.new }
{
    list_unheld(holders, locked, alloc, stamp, id, there.own)?;
    holders_by_id::grant(holders, alloc, stamp, id, mode, there.is_held)?;
    Ok(())
}

/// Lists the id at the stamp, unless the stamp holds it and so has it listed.
fn list_unheld(
    holders: &BTreeMap<Id, Holders>,
    locked: &mut BTreeMap<u64, Sequence<Id>>,
    alloc: Global,
    stamp: u64,
    id: &Id,
    own: Option<Mode>,
) -> Result<(), OutOfMemory>
    requires listed { IsListed holders.now.entries locked.old }
    requires own { own ≡ mode_of holders.now.entries stamp id.now }
    ensures own { OnOk result (has_id (ids_of locked.new stamp) id.now ≡ true) }
    ensures absent { OnErr result (mode_of holders.now.entries stamp id.now ≡ None) }
    ensures listed { IsListed holders.now.entries locked.new }
{
    // (only the contract uses it)
    let _ = holders;
    match own {
        Some(_) => Ok(()),
        None => {
            push(locked, alloc, stamp, id.copy(alloc)?)?;
            Ok(())
        }
    }
}

/// Removes the stamp from the holders of each id in its list, and drops the list.
fn release(
    holders: &mut BTreeMap<Id, Holders>,
    locked: &mut BTreeMap<u64, Sequence<Id>>,
    stamp: u64,
)
    requires { IsListed holders.old.entries locked.old }
    ensures holders { (q : List ℕ) → holders_of holders.new.entries q
        ≡ without (holders_of holders.old.entries q) stamp }
    ensures listed { IsListed holders.new.entries locked.new }
{
    if let Some(ids) = locked.remove(&stamp) {
        let alone = locked.is_empty();
        holders_by_id::release_all(holders, stamp, ids.as_slice(), alone);
    }
}
