//! The transaction core: strict two-phase locking over one city.
ghost use Rattle.std.specs.Prelude.{◌≡◌, ◌&&◌, ℕ, List, [], None, true, false, Some, is_some, OnOk, OnErr, IfOk};
ghost use Rattle.std.specs.Prelude.{IfErr, IfSome, IfNone, IsErr, IsOk, ◌↔◌, if◌then◌else◌, option_copied, ◌∷◌};
ghost use Rattle.city_locks.specs.declared.answer.Answer.{Answer};
ghost use Rattle.city_model.specs.CityMap.{has_id, object_at};
ghost use Rattle.city_model.specs.Chunks.{ids_left};
ghost use Rattle.city_model.specs.Meaning.{exclusively, locks_of};
ghost use Rattle.city_model.specs.Scripts.{is_end};
ghost use Rattle.city_model.specs.Marks.{AreSound};
ghost use Rattle.city_model.specs.Relations.{IsLawful, HasNoOrphan, IsSound};
ghost use Rattle.city_model.specs.declared.mode.Mode.{Mode};
ghost use Rattle.city_locks.specs.Locks.{mode_of};
ghost use Rattle.city_txn.specs.Writes.{write_of, is_by};
ghost use Rattle.city_txn.specs.CoreState.{committed, view, snapshot, is_open, StandsUnderLocks, KeepsOthers};
ghost use Rattle.city_txn.specs.CoreState.{IsTransactionEnd, IsRolledBack};
ghost use Rattle.city_txn.specs.UndoLog.{log_of, has_before};
ghost use Rattle.city_txn.specs.Acting.{answer_in, IsAct, IsConflict, RefusesCommit};
ghost use Rattle.city_txn.specs.Changing.{IsPrepared, IsChangeOf, change_in};
ghost use Rattle.city_locks.specs.Asking.{is_wait};

use crate::command_locks::{first_conflict, first_lock, further_locks, lock, would_lock};
use crate::end::End;
use crate::store::Store;
use city_locks::{Answer, Holder, LockTable, Mode};
use city_members::copied::Copied;
use city_members::text::Id;
use city_model::OutOfMemory;
use city_model::change::Change;
use city_model::city::City;
use city_model::command::{Cause, Command, Reply};
use city_model::id_list::Ids;
use city_model::object::Object;
use std::alloc::Global;
use std::marker::Model;
use thiserror::Error;

/// The outcome of a command.
#[derive(Drop)]
pub enum Step {
    /// It was done, or refused: `Reply::Refused`, which changes nothing.
    Done(Reply),
    /// A lock of the command is held by younger transactions only: the asker may wait for them.
    Wait,
    /// A lock of the command is held by an older transaction: the asker must give up.
    Die,
}

/// A lock that isn't granted: its id, the mode it was asked in, and who holds the id.
#[derive(Clone, Copy)]
pub struct Conflict<'a> {
    pub id: &'a Id,
    pub mode: Mode,
    /// All holders of the id, each stamp once; those that `conflicts` are in the way.
    pub holders: &'a [Holder],
}

/// Whether a transaction may commit.
#[derive(Drop)]
pub enum Prepared {
    /// It may, and this is what it writes: ids in byte order, each once.
    Ready(Change),
    /// It may not: its view has an orphan, and this names the least.
    Refused(Cause),
}

/// Why a call wasn't carried out; causes are judged in this order.
#[derive(Clone, Copy, Debug, PartialEq, Eq, Error)]
pub enum TxnFault {
    /// No transaction of this stamp is open.
    #[error("no transaction of the stamp {0} is open")]
    NotOpen(u64),
    /// A transaction of this stamp is open already.
    #[error("a transaction of the stamp {0} is open already")]
    StampOpen(u64),
    /// Memory ran out.
    #[error("out of memory")]
    OutOfMemory,
}

/// A committed city and the open transactions on it.
///
/// Contracts see the committed city, and of each open transaction its writes, its marks and its
/// locks. A transaction sees the committed city with its own writes; at a mark it saw that city
/// with its writes at the mark.
#[derive(Drop)]
pub struct Core {
    store: Store,
    locks: LockTable,
}

impl Model for Core {
    ghost use Rattle.city_txn.specs.CoreState.{CoreState};

    ghost Value = { CoreState };

    ghost use Rattle.std.specs.Coded.{codes};
    ghost use Rattle.city_members.specs.internal.DataCode.{coded_members};
    ghost use Rattle.city_txn.specs.internal.Codes.{coded_objects};

    ghost coded = { Prim.hlevel (codes, coded_members, coded_objects) };

    ghost use Rattle.city_txn.specs.internal.Core.{core_state, IsCore};

    ghost view = { core_state };

    ghost invariant = { IsCore };
}

impl Core {
    /// A core over this city, with no transaction open. Doesn't allocate.
    pub fn open(alloc: Global, city: City) -> Self
        requires { IsLawful (object_at city.1) }
        ensures { result ≡ record { frame = city.0; city = city.1; writes = []; opened = []; logs = []; locks = [] } }
    {
        Core {
            store: Store::new(alloc, city),
            locks: LockTable::new(alloc),
        }
    }

    /// Opens a transaction, with no writes, no marks and no locks, and changes nothing else.
    ///
    /// `StampOpen` is returned exactly if the stamp is open; then, and if memory runs out, nothing
    /// changes.
    pub fn begin(&mut self, stamp: u64) -> Result<(), TxnFault>
        ensures city { self.new.city ≡ self.old.city }
        ensures writes { self.new.writes ≡ self.old.writes }
        ensures logs { self.new.logs ≡ self.old.logs }
        ensures locks { self.new.locks ≡ self.old.locks }
        ensures opened { OnOk result (is_open self.new stamp ≡ true) }
        ensures own { OnOk result (StandsUnderLocks self.new stamp []) }
        ensures keeps { OnOk result (KeepsOthers stamp self.old self.new) }
        ensures unlocked { OnOk result ((id : List ℕ) → mode_of self.new.locks stamp id ≡ None) }
        ensures unwritten { OnOk result ((id : List ℕ) → is_by stamp (write_of self.new.writes id) ≡ false) }
        ensures unmarked { OnOk result (log_of self.new.logs stamp ≡ []) }
        ensures err { OnErr result (self.new ≡ self.old) }
        ensures fault { IfErr result
            (λ fault. fault ≡ (if is_open self.old stamp then TxnFault.StampOpen stamp else TxnFault.OutOfMemory)) }
        ensures stamp_open { is_open self.old stamp ≡ true → IsErr result }
    {
        if self.is_open(stamp) {
            return Err(TxnFault::StampOpen(stamp));
        }
        let Ok(()) = self.store.begin(stamp) else {
            return Err(TxnFault::OutOfMemory);
        };
        Ok(())
    }

    /// Does a command in the transaction, under its locks, or says why not.
    ///
    /// If a lock isn't granted, the first such lock decides between `Wait` and `Die`; the locks
    /// before it are held, and the transaction stays open. A refused command is done: its reply is
    /// `Refused`, and it changes nothing. `NotOpen` is returned exactly if the stamp isn't open,
    /// and changes nothing. After `OutOfMemory` the transaction is open as before, and may have
    /// gained locks of the command. Marks ask for no locks. Going back gives none back, and doesn't
    /// allocate if the mark is there.
    pub fn act(&mut self, stamp: u64, command: &Command) -> Result<Step, TxnFault>
        requires { is_end command.now ≡ false }
        ensures { IsAct stamp command.now result self.old self.new }
    {
        if !self.is_open(stamp) {
            return Err(TxnFault::NotOpen(stamp));
        }
        let Ok(answer) = lock(&mut self.locks, &self.store, stamp, command) else {
            return Err(TxnFault::OutOfMemory);
        };
        match answer {
            Answer::Wait => return Ok(Step::Wait),
            Answer::Die => return Ok(Step::Die),
            Answer::Granted => {}
        }
        let Ok(reply) = self.store.perform(stamp, command) else {
            return Err(TxnFault::OutOfMemory);
        };
        Ok(Step::Done(reply))
    }

    /// Whether `act` would answer `Wait`, unless memory runs out; false if the stamp
    /// isn't open. Doesn't allocate.
    pub fn would_wait(&self, stamp: u64, command: &Command) -> bool
        requires { is_end command.now ≡ false }
        ensures { result ≡ (is_open self.now stamp && is_wait (answer_in self.now stamp command.now)) }
    {
        if !self.is_open(stamp) {
            return false;
        }
        match would_lock(&self.locks, &self.store, stamp, command) {
            Answer::Wait => true,
            Answer::Granted | Answer::Die => false,
        }
    }

    /// The first lock of the command that the transaction, which is open, isn't granted, if there is
    /// one. Doesn't allocate.
    pub fn conflict<'a>(&'a self, stamp: u64, command: &'a Command) -> Option<Conflict<'a>>
        ensures none { IfNone result (answer_in self.now stamp command.now ≡ Answer.Granted) }
        ensures some { IfSome result (IsConflict self.now stamp command.now) }
    {
        let (id, mode) = first_conflict(&self.locks, &self.store, stamp, command)?;
        Some(Conflict {
            id,
            mode,
            holders: self.locks.holders(id),
        })
    }

    /// The locks that the command asks for in the transaction, in their order: the first, and the ids
    /// that it locks exclusively behind it. `None` if it asks for none. Doesn't allocate.
    pub fn locks<'a>(&'a self, stamp: u64, command: &'a Command) -> Option<(&'a Id, Mode, Ids<'a>)>
        ensures some { IfSome result (λ lock. locks_of (view self.now stamp) command.now
            ≡ (lock.0.now, lock.1) ∷ exclusively (ids_left lock.2)) }
        ensures none { IfNone result (locks_of (view self.now stamp) command.now ≡ []) }
    {
        let (id, mode) = first_lock(command)?;
        Some((id, mode, further_locks(&self.store, stamp, command)))
    }

    /// The ids that the stamp has locked, and maybe more. Doesn't allocate.
    pub fn locked(&self, stamp: u64) -> &[Id]
        ensures { (q : List ℕ) → is_some (mode_of self.now.locks stamp q) ≡ true → has_id result.now q ≡ true }
    {
        self.locks.locked(stamp)
    }

    /// The committed object at the id, whatever open transactions have written. Doesn't allocate.
    pub fn committed(&self, id: &Id) -> Option<&Object>
        ensures { option_copied result ≡ committed self.now id.now }
    {
        self.store.committed(id)
    }

    /// The object at the id as the transaction of the stamp sees it. Doesn't allocate.
    pub fn seen(&self, stamp: u64, id: &Id) -> Option<&Object>
        ensures { option_copied result ≡ view self.now stamp id.now }
    {
        self.store.read(stamp, id)
    }

    /// A copy of the committed city, whatever open transactions have written. It shares the objects'
    /// contents.
    pub fn committed_city(&self) -> Result<City, OutOfMemory>
        ensures { IfOk result (λ city. city ≡ (self.now.frame, self.now.city)) }
    {
        self.store.committed_city()
    }

    /// Finds whether the transaction may commit, and its change. Changes nothing.
    ///
    /// `Ready` gives the writes of the transaction, as the change from the committed city to its
    /// view. `Refused` is returned exactly if the view has an orphan, and names the least.
    /// `NotOpen` is returned exactly if the stamp isn't open.
    pub fn prepare(&self, stamp: u64) -> Result<Prepared, TxnFault>
        ensures prepared { IfOk result (IsPrepared self.now stamp) }
        ensures fault { IfErr result
            (λ fault. fault ≡ (if is_open self.now stamp then TxnFault.OutOfMemory else TxnFault.NotOpen stamp)) }
        ensures not_open { is_open self.now stamp ≡ false → IsErr result }
    {
        if let Some(cause) = self.refusal(stamp)? {
            return Ok(Prepared::Refused(cause));
        }
        let Ok(change) = self.store.change(stamp) else {
            return Err(TxnFault::OutOfMemory);
        };
        Ok(Prepared::Ready(change))
    }

    /// Why a commit of the transaction would be refused; `None` if it may commit. Changes nothing.
    ///
    /// It finds what `prepare` finds, but copies no object. `NotOpen` is returned exactly if the stamp
    /// isn't open.
    pub fn refusal(&self, stamp: u64) -> Result<Option<Cause>, TxnFault>
        ensures allowed { IfOk result
            (λ cause. IfNone cause (IsChangeOf self.now stamp (change_in self.now.writes stamp))) }
        ensures refused { IfOk result (λ cause. IfSome cause (RefusesCommit self.now stamp)) }
        ensures fault { IfErr result
            (λ fault. fault ≡ (if is_open self.now stamp then TxnFault.OutOfMemory else TxnFault.NotOpen stamp)) }
        ensures not_open { is_open self.now stamp ≡ false → IsErr result }
    {
        if !self.is_open(stamp) {
            return Err(TxnFault::NotOpen(stamp));
        }
        let Some(id) = self.store.least_orphan(stamp) else {
            return Ok(None);
        };
        let Ok(id) = id.copy(self.store.alloc()) else {
            return Err(TxnFault::OutOfMemory);
        };
        Ok(Some(Cause::Orphan(id)))
    }

    /// Makes the transaction's view the committed city, and gives its locks back. Doesn't allocate.
    pub fn commit(&mut self, stamp: u64)
        requires opened { is_open self.old stamp ≡ true }
        requires no_orphan { HasNoOrphan (view self.old stamp) }
        ensures city { committed self.new ≡ view self.old stamp }
        ensures over { IsTransactionEnd stamp self.old self.new }
        ensures lawful { IsLawful (committed self.new) }
    {
        self.store.end(stamp, End::Commit);
        self.locks.release_all(stamp);
    }

    /// Undoes the writes of the transaction, which is open, and gives its locks back. Doesn't
    /// allocate.
    pub fn roll_back(&mut self, stamp: u64)
        requires { is_open self.old stamp ≡ true }
        ensures { IsRolledBack stamp self.old self.new }
    {
        self.store.end(stamp, End::RollBack);
        self.locks.release_all(stamp);
    }

    /// Undoes the writes of the transaction, and gives its locks back. Doesn't allocate.
    ///
    /// It is `roll_back` for a stamp that need not be open: `NotOpen` is returned exactly if it
    /// isn't, and then nothing changes.
    pub fn abort(&mut self, stamp: u64) -> Result<(), TxnFault>
        ensures undone { OnOk result (IsRolledBack stamp self.old self.new) }
        ensures err { OnErr result (self.new ≡ self.old) }
        ensures fault { IfErr result (λ fault. fault ≡ TxnFault.NotOpen stamp) }
        ensures opened { is_open self.old stamp ≡ true → IsOk result }
        ensures not_open { is_open self.old stamp ≡ false → IsErr result }
    {
        if !self.is_open(stamp) {
            return Err(TxnFault::NotOpen(stamp));
        }
        self.roll_back(stamp);
        Ok(())
    }

    /// The committed city, or the core unchanged if a transaction is open. Doesn't allocate.
    pub fn into_city(self) -> Result<City, Core>
        ensures city { IfOk result (λ city. city ≡ (self.frame, self.city)) }
        ensures back { IfErr result (λ core. core ≡ self) }
        ensures idle { IsOk result ↔ ((t : ℕ) → is_open self t ≡ false) }
    {
        if self.store.is_idle() {
            Ok(self.store.into_city())
        } else {
            Err(self)
        }
    }

    /// Whether a transaction of the stamp is open. Doesn't allocate.
    pub fn is_open(&self, stamp: u64) -> bool
        ensures opened { result ≡ is_open self.now stamp }
        ensures committed { IsLawful (committed self.now) }
        ensures views { (t : ℕ) → IsSound (view self.now t) }
        ensures marks { (t : ℕ) → AreSound (snapshot self.now t).marks }
        ensures locked { (t : ℕ) (id : List ℕ) → is_by t (write_of self.now.writes id) ≡ true
            → mode_of self.now.locks t id ≡ Some Mode.Exclusive }
        ensures marks_locked { (t : ℕ) (id : List ℕ) → has_before (log_of self.now.logs t) id ≡ true
            → mode_of self.now.locks t id ≡ Some Mode.Exclusive }
        ensures open_only { (t : ℕ) (id : List ℕ) → is_some (mode_of self.now.locks t id) ≡ true
            → is_open self.now t ≡ true }
    {
        self.store.is_open(stamp)
    }
}
