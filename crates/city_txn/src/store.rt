//! The city as the open transactions have written it, and the way back.
ghost use Rattle.std.specs.Prelude.{◌≡◌, ◌↔◌, IsTrue, ℕ, List, [], None, Some, OnOk, OnErr, IfOk, IfSome, IfNone};
ghost use Rattle.std.specs.Prelude.{true, false};
ghost use Rattle.std.specs.Prelude.{◌==◌, ◌&&◌, ◌||◌, is_ok, is_some, not, drop, option_copied, option_map};
ghost use Rattle.std.specs.Prelude.{if◌then◌else◌};
ghost use Rattle.std.specs.Map.{keys_of};
ghost use Rattle.std.specs.Option.{option_or};
ghost use Rattle.std.specs.Ordering.{nat_cmp};
ghost use Rattle.std.specs.Cmp.Lexicographic.{slice_cmp};
ghost use Rattle.std.specs.List.Sorted.{IsStrictlySortedBy};
ghost use Rattle.city_model.specs.CityMap.{same_id};
ghost use Rattle.city_model.specs.Relations.{is_orphan_there, HasNoOrphan, IsLeastOrphan};
ghost use Rattle.city_model.specs.Writing.{write_in};
ghost use Rattle.city_model.specs.declared.command.Command.{Command};
ghost use Rattle.city_txn.specs.Changing.{change_in};
ghost use Rattle.city_txn.specs.UndoLog.{log_of, has_before};
ghost use Rattle.city_txn.specs.Writes.{write_of, own_write, is_by};
ghost use Rattle.city_txn.specs.internal.Ending.{map_at_end};
ghost use Rattle.city_txn.specs.internal.LeastAmong.{lesser, IsLeastAmong};
ghost use Rattle.city_txn.specs.internal.LogTests.{is_noted, newest_undone};
ghost use Rattle.city_txn.specs.internal.Performing.{IsPerform};
ghost use Rattle.city_txn.specs.internal.State.{State, is_reserved, is_begun, store_committed, store_own, store_view};
ghost use Rattle.city_txn.specs.internal.State.{MayReserve};
ghost use Rattle.city_txn.specs.internal.State.{store_written, Touches, WritesOne, OthersWritesStay, Begins, Forgets};

use crate::end::End;
use crate::transactions::Transactions;
use crate::undo_logs::{Entry, OwnWrite, UndoLogs};
use city_members::copied::Copied;
use city_members::text::{Id, Text};
use city_model::OutOfMemory;
use city_model::change::Change;
use city_model::city::City;
use city_model::command::Reply;
use city_model::object::Object;
use city_model::orphans::is_orphan;
use city_model::plan::object_lookup::ObjectLookup;
use std::alloc::Global;
use std::marker::Model;

mod commands;
mod committed;

/// One city as the open transactions have written it, with an undo image of each written id.
///
/// Contracts see the committed city (that city with all images put back), the writes of the open
/// transactions, their reserved ids, and their undo logs. An id is reserved by one transaction at
/// most, and the ids in a log are reserved.
#[derive(Drop)]
pub struct Store {
    alloc: Global,
    city: City,
    transactions: Transactions,
    logs: UndoLogs,
    /// Whether an open transaction may have written an orphan.
    may_have_orphan: bool,
}

impl Model for Store {
    ghost use Rattle.city_txn.specs.internal.State.{State};

    ghost Value = { State };

    ghost use Rattle.std.specs.Coded.{codes};
    ghost use Rattle.city_members.specs.internal.DataCode.{coded_members};
    ghost use Rattle.city_txn.specs.internal.Codes.{coded_objects};

    ghost coded = { Prim.hlevel (codes, coded_members, coded_objects) };

    ghost use Rattle.city_txn.specs.internal.InPlace.{state_of, IsInPlace};

    ghost view = { state_of };

    ghost invariant = { IsInPlace };
}

impl Store {
    /// A store of this city, with no transaction open. Doesn't allocate.
    #[tactic(auto, using(crate::proofs::AtOneId::new_in_place))]
    pub fn new(alloc: Global, city: City) -> Self
        ensures { result ≡ record { frame = city.0; city = city.1; writes = []; opened = []; logs = [] } }
    {
        Store {
            alloc,
            city,
            transactions: Transactions::new(alloc),
            logs: UndoLogs::new(alloc),
            may_have_orphan: false,
        }
    }

    /// The allocator of the store's contents.
    pub fn alloc(&self) -> Global {
        self.alloc
    }

    /// The undo logs.
    pub fn logs(&self) -> &UndoLogs
        ensures { result.now ≡ self.now.logs }
    {
        &self.logs
    }

    /// Whether the stamp is open. Doesn't allocate.
    pub fn is_open(&self, stamp: u64) -> bool
        ensures opened { result ≡ is_begun self.now stamp }
        ensures noted { (t : ℕ) (id : List ℕ) → has_before (log_of self.now.logs t) id ≡ true
            → is_reserved self.now t id ≡ true }
    {
        self.transactions.is_open(stamp)
    }

    /// Opens the stamp, which must not be open, without writes or reservations. If memory runs out,
    /// the store is unchanged.
    #[tactic(auto, using(crate::proofs::StoreChanged::opened_in_place))]
    pub fn begin(&mut self, stamp: u64) -> Result<(), OutOfMemory>
        requires { is_begun self.old stamp ≡ false }
        ensures begins { OnOk result (Begins stamp self.old self.new) }
        ensures err { OnErr result (self.new ≡ self.old) }
    {
        self.transactions.open(stamp)?;
        Ok(())
    }

    /// The object that the stamp sees at an id. Doesn't allocate.
    pub fn read(&self, stamp: u64, id: &Id) -> Option<&Object>
        ensures { option_copied result ≡ store_view self.now stamp id.now }
    {
        match self.transactions.image(id) {
            Some(image) => image.seen_by(stamp, self.city.get(id)),
            None => self.city.get(id),
        }
    }

    /// Whether the stamp wrote the id. Doesn't allocate.
    pub fn has_written(&self, stamp: u64, id: &Id) -> bool
        ensures { result ≡ is_by stamp (write_of self.now.writes id.now) }
    {
        match self.transactions.image(id) {
            Some(image) => image.is_by(stamp),
            None => false,
        }
    }

    /// Reserves an id for the stamp, which is open; no other may have reserved it. No transaction
    /// sees a difference. If memory runs out, nothing is reserved.
    #[tactic(auto, using(crate::proofs::StoreChanged::reserved_already, crate::proofs::Touched::touches_itself))]
    pub fn reserve(&mut self, stamp: u64, id: &Id) -> Result<(), OutOfMemory>
        requires { MayReserve self.old stamp (same_id id.now) }
        ensures touches { Touches stamp (same_id id.now) self.old self.new }
        ensures writes { (q : List ℕ) → write_of self.new.writes q ≡ write_of self.old.writes q }
        ensures marks { store_written self.new stamp ≡ store_written self.old stamp }
        ensures logs { self.new.logs ≡ self.old.logs }
        ensures more { (t : ℕ) (q : List ℕ) → is_reserved self.new t q
            ≡ ((is_ok result && ((stamp == t) && same_id id.now q)) || is_reserved self.old t q) }
    {
        if self.transactions.image(id).is_some() {
            return Ok(());
        }
        self.transactions.reserve(&mut self.city, stamp, id)
    }

    /// Reserves an id for the stamp, as `reserve` does, and writes it: an object, or a delete. If
    /// memory runs out, nothing is written.
    pub fn put(&mut self, stamp: u64, id: Id, object: Option<Object>) -> Result<(), OutOfMemory>
        requires { MayReserve self.old stamp (same_id id) }
        ensures touches { Touches stamp (same_id id) self.old self.new }
        ensures logs { self.new.logs ≡ self.old.logs }
        ensures writes { (q : List ℕ) → write_of self.new.writes q
            ≡ (if is_ok result && same_id id q then Some (stamp, object) else write_of self.old.writes q) }
    {
        self.may_have_orphan = has_orphan_then(self.may_have_orphan, &object);
        self.transactions.put(&mut self.city, stamp, id, object)
    }

    /// Writes an id reserved by the stamp: an object, or a delete. Doesn't allocate.
    pub fn set(&mut self, stamp: u64, id: Id, object: Option<Object>)
        requires { is_reserved self.old stamp id ≡ true }
        ensures one { WritesOne id (Some (stamp, object)) self.old self.new }
        ensures others { OthersWritesStay stamp self.old self.new }
    {
        self.may_have_orphan = has_orphan_then(self.may_have_orphan, &object);
        self.transactions.write(&mut self.city, id, object);
    }

    /// Sets the stamp's write at an id reserved by it: an object, a delete, or nothing. Doesn't
    /// allocate.
    pub fn restore(&mut self, stamp: u64, id: Id, write: OwnWrite)
        requires { is_reserved self.old stamp id ≡ true }
        ensures one { WritesOne id (option_map (λ o. (stamp, o)) write) self.old self.new }
        ensures others { OthersWritesStay stamp self.old self.new }
    {
        match write {
            Some(object) => self.set(stamp, id, object),
            None => self.transactions.unwrite(&mut self.city, id),
        }
    }

    /// The city, if no stamp is open. Doesn't allocate.
    #[tactic(auto, using(crate::proofs::AtOneId::idle_city))]
    pub fn into_city(self) -> City
        requires { self.opened ≡ [] }
        ensures { result ≡ (self.frame, self.city) }
    {
        self.city
    }

    /// Whether no stamp is open. Doesn't allocate.
    pub fn is_idle(&self) -> bool
        ensures { IsTrue result ↔ (self.now.opened ≡ []) }
    {
        self.transactions.is_idle()
    }

    /// Commits the writes of the stamp, or undoes them, and closes the stamp. Visits its reserved
    /// ids, and doesn't allocate.
    pub fn end(&mut self, stamp: u64, end: End)
        ensures city { store_committed self.new ≡ map_at_end end self.old stamp }
        ensures forgets { Forgets stamp self.old self.new }
    {
        self.logs.close(stamp);
        let ids = self.transactions.close(stamp);
        let alone = self.transactions.is_idle();
        self.transactions
            .end_at(&mut self.city, end, ids.as_slice(), alone);
        self.may_have_orphan = has_orphan_still(self.may_have_orphan, alone);
    }

    /// If the transaction has marks, notes its write at an id reserved by it.
    fn note(&mut self, stamp: u64, id: &Id) -> Result<(), OutOfMemory>
        requires { is_reserved self.old stamp id.now ≡ true }
        ensures touches { Touches stamp (same_id id.now) self.old self.new }
        ensures writes { self.new.writes ≡ self.old.writes }
        ensures opened { self.new.opened ≡ self.old.opened }
        ensures marks { store_written self.new stamp ≡ store_written self.old stamp }
        ensures ok { OnOk result (is_noted (log_of self.new.logs stamp) id.now ≡ true) }
        ensures more { (q : List ℕ) → is_noted (log_of self.old.logs stamp) q ≡ true
            → is_noted (log_of self.new.logs stamp) q ≡ true }
    {
        if self.logs().is_empty(stamp) {
            return Ok(());
        }
        let key = id.copy(self.alloc())?;
        let write = self.written(stamp, id)?;
        self.logs.push(stamp, Entry::BeforeImage(key, write))?;
        Ok(())
    }

    /// Makes a mark.
    fn mark(&mut self, stamp: u64, name: &Text) -> Result<Reply, OutOfMemory>
        ensures { IsPerform stamp (Command.Mark name.now) result self.old self.new }
    {
        let entry = Entry::Mark(name.copy(self.alloc())?);
        self.logs.push(stamp, entry)?;
        Ok(Reply::Marked)
    }

    /// Undoes the newest entry of the transaction's log. Doesn't allocate.
    fn undo_newest(&mut self, stamp: u64)
        ensures own { store_own self.new stamp ≡ newest_undone (log_of self.old.logs stamp) (store_own self.old stamp) }
        ensures log { log_of self.new.logs stamp ≡ drop 1 (log_of self.old.logs stamp) }
        ensures touches { Touches stamp (λ id. false) self.old self.new }
    {
        match self.logs.pop(stamp) {
            Some(Entry::BeforeImage(id, write)) => self.restore(stamp, id, write),
            Some(Entry::Mark(_)) | None => {}
        }
    }

    /// The writes of the stamp, as a change with copies of the objects.
    pub fn change(&self, stamp: u64) -> Result<Change, OutOfMemory>
        ensures lists { IfOk result
            (λ change. (q : List ℕ) → write_in change q ≡ own_write stamp (write_of self.now.writes q)) }
        ensures ordered { IfOk result (λ change. IsStrictlySortedBy (slice_cmp nat_cmp) (keys_of change)) }
    {
        let mut change = Change::new(self.alloc());
        let ids = self.transactions.reserved(stamp);
        for id in ids {
            self.add_written(&mut change, stamp, id)?;
        }
        Ok(change)
    }

    /// Adds the stamp's write at the id, if there is one, to the change.
    fn add_written(&self, change: &mut Change, stamp: u64, id: &Id) -> Result<(), OutOfMemory>
        ensures added { OnOk result ((q : List ℕ) → write_in change.new q
            ≡ (if same_id id.now q then option_or (store_own self.now stamp id.now)
            (write_in change.old q) else write_in change.old q)) }
        ensures ordered { IsStrictlySortedBy (slice_cmp nat_cmp) (keys_of change.old)
            → IsStrictlySortedBy (slice_cmp nat_cmp) (keys_of change.new) }
    {
        if let Some(object) = self.written(stamp, id)? {
            change.set(id.copy(self.alloc())?, object)?;
        }
        Ok(())
    }

    /// The stamp's write at the id: an object (copied), a delete, or nothing.
    #[tactic(auto, using(crate::proofs::ChangeMade::own_none, crate::proofs::ChangeMade::own_sees))]
    pub fn written(&self, stamp: u64, id: &Id) -> Result<OwnWrite, OutOfMemory>
        ensures { IfOk result (λ write. write ≡ store_own self.now stamp id.now) }
    {
        if !self.has_written(stamp, id) {
            return Ok(None);
        }
        match self.read(stamp, id) {
            Some(object) => Ok(Some(Some(object.copy(self.alloc())?))),
            None => Ok(Some(None)),
        }
    }

    /// The least id of an orphan that the stamp sees. Looks only at ids that it has reserved, and only
    /// if an orphan may have been written. Doesn't allocate.
    #[tactic(auto, using(crate::proofs::ChangeMade::change_lists, crate::proofs::ChangeMade::change_ascends))]
    pub fn least_orphan(&self, stamp: u64) -> Option<&Id>
        requires { HasNoOrphan (store_committed self.now) }
        ensures least { IfSome result (λ id. IsLeastOrphan (store_view self.now stamp) id.now) }
        ensures none { IfNone result (HasNoOrphan (store_view self.now stamp)) }
        ensures lists { (q : List ℕ) → write_in (change_in self.now.writes stamp) q
            ≡ own_write stamp (write_of self.now.writes q) }
        ensures ordered { IsStrictlySortedBy (slice_cmp nat_cmp) (keys_of (change_in self.now.writes stamp)) }
    {
        if !self.may_have_orphan {
            return None;
        }
        self.least_orphan_among(stamp, self.transactions.reserved(stamp))
    }

    /// The least of the ids at which the stamp sees an orphan.
    fn least_orphan_among<'a>(&self, stamp: u64, ids: &'a [Id]) -> Option<&'a Id>
        ensures { IsLeastAmong (λ id. is_orphan_there (store_view self.now stamp id)) ids.now (option_copied result) }
    {
        let mut least = None;
        for id in ids {
            if self.is_orphan_at(stamp, id) {
                least = Some(lesser(least, id));
            }
        }
        least
    }

    /// Whether the stamp sees an orphan at the id.
    fn is_orphan_at(&self, stamp: u64, id: &Id) -> bool
        ensures { result ≡ is_orphan_there (store_view self.now stamp id.now) }
    {
        match self.read(stamp, id) {
            Some(object) => is_orphan(object),
            None => false,
        }
    }
}

/// Whether an orphan may have been written once this one was too, or none was there.
fn has_orphan_then(before: bool, object: &Option<Object>) -> bool
    ensures { result ≡ (before || is_orphan_there object.now) }
{
    match object {
        Some(object) => before || is_orphan(object),
        None => before,
    }
}

/// Whether an orphan may still stand written after an end: not if no transaction is open.
fn has_orphan_still(before: bool, is_idle: bool) -> bool
    ensures { result ≡ (before && not is_idle) }
{
    before && !is_idle
}

/// The lesser of two ids, or the second if there is no first.
fn lesser<'a>(least: Option<&'a Id>, id: &'a Id) -> &'a Id
    ensures { result.now ≡ lesser (option_copied least.entry) id.now }
{
    match least {
        Some(least) if least.cmp(id).is_lt() => least,
        _ => id,
    }
}

/// The store as the transaction of the stamp sees it.
#[derive(Drop)]
struct Seen<'a> {
    store: &'a Store,
    stamp: u64,
}

impl ObjectLookup for Seen<'_> {
    ghost map = { λ seen. store_view seen.store.now seen.stamp };

    fn look(&self, id: &Id) -> Option<&Object> {
        self.store.read(self.stamp, id)
    }
}
