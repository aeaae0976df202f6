//! Transactions on one city, each open as long as whoever runs it likes.
ghost use Rattle.std.specs.Prelude.{◌≡◌, ◌<◌, ◌≤◌, ◌&&◌, ◌↔◌, ℕ, [], None, Some, true, false, not, IfOk, IfErr, IfSome};
ghost use Rattle.std.specs.Prelude.{IfNone, IsOk, IsTrue, OnErr, MatchOption, List, ◌∷◌, is_some, option_copied};
ghost use Rattle.std.specs.Prelude.{◌^◌, ◌-◌, length};
ghost use Rattle.city_model.specs.Chunks.{ids_left};
ghost use Rattle.city_model.specs.CityMap.{has_id, object_at};
ghost use Rattle.city_model.specs.Meaning.{exclusively, locks_of};
ghost use Rattle.city_model.specs.Relations.{IsLawful, HasNoOrphan};
ghost use Rattle.city_model.specs.Scripts.{is_end};
ghost use Rattle.city_locks.specs.Asking.{is_wait};
ghost use Rattle.city_locks.specs.Locks.{mode_of};
ghost use Rattle.city_locks.specs.declared.answer.Answer.{Answer};
ghost use Rattle.city_txn.specs.Acting.{answer_in, IsConflict, RefusesCommit};
ghost use Rattle.city_txn.specs.Changing.{IsPrepared};
ghost use Rattle.city_txn.specs.CoreState.{committed, view, is_open, IsRolledBack};
ghost use Rattle.city_session.specs.Grown.{is_full_there};
ghost use Rattle.city_session.specs.Live.{grown_at, IsLive};
ghost use Rattle.city_session.specs.Acting.{stamp_for, stamps_after, IsBegun, IsUnchanged, IsActed, HasEnded};
ghost use Rattle.city_session.specs.Acting.{IsForgotten};

use crate::acted::Acted;
use crate::ghosts::opening_city::OpeningCity;
use crate::ghosts::past::Past;
use crate::growing::Growing;
use crate::transaction::Transaction;
use city_locks::Mode;
use city_members::text::Id;
use city_model::OutOfMemory;
use city_model::city::City;
use city_model::command::{Cause, Command};
use city_model::id_list::Ids;
use city_model::object::Object;
use city_txn::{Conflict, Core, Prepared};
use std::alloc::Global;
use std::marker::Model;

/// One city, and transactions on it, each known by its stamp.
///
/// Contracts see the opening city, what has ended, what is open, how many stamps were given, and the core.
#[derive(Drop)]
pub struct Session {
    start: OpeningCity,
    past: Past,
    /// How many have ended. It stays at `u64::MAX`, and then none is begun any more.
    ended: u64,
    stamps: u64,
    growing: Growing,
    core: Core,
}

impl Model for Session {
    ghost use Rattle.city_session.specs.Live.{SessionState};

    ghost Value = { SessionState };

    ghost use Rattle.std.specs.Coded.{codes};
    ghost use Rattle.city_members.specs.internal.DataCode.{coded_members};
    ghost use Rattle.city_txn.specs.internal.Codes.{coded_objects};

    ghost coded = { Prim.hlevel (codes, coded_members, coded_objects) };

    ghost view = { λ s. record {
      start = s.start;
      closed = s.past;
      growing = s.growing;
      stamps = s.stamps;
      core = s.core;
    } };

    ghost use Rattle.city_session.specs.internal.Recorded.{IsRecorded};

    ghost invariant = { λ s. IsRecorded s.start s.past s.ended s.stamps s.growing s.core };
}

impl Session {
    /// A session on this city, with nothing open. Doesn't allocate.
    pub fn open(alloc: Global, city: City) -> Session
        requires { IsLawful (object_at city.1) }
        ensures { result ≡ record {
          start = city;
          closed = [];
          growing = [];
          stamps = 0;
          core = record { frame = city.0; city = city.1; writes = []; opened = []; logs = []; locks = [] };
        } }
    {
        Session {
            start: OpeningCity::of(&city),
            past: Past::nothing(),
            ended: 0,
            stamps: 0,
            growing: Growing::new(alloc),
            core: Core::open(alloc, city),
        }
    }

    /// Begins a transaction, under the stamp of one that died, or under a new one, the youngest, and
    /// returns its stamp. No new stamp is given twice.
    ///
    /// If memory runs out, nothing changes.
    pub fn begin(&mut self, kept: Option<u64>) -> Result<u64, OutOfMemory>
        requires { IfSome kept (λ t. (t < self.old.stamps) × (is_open self.old.core t ≡ false)) }
        ensures stamp { IfOk result (λ t. t ≡ stamp_for kept self.old.stamps) }
        ensures begun { IfOk result (λ t. IsBegun t (stamps_after kept self.old.stamps) self.old self.new) }
        ensures err { OnErr result (IsUnchanged self.old self.new) }
    {
        match kept {
            Some(stamp) => self.begin_as(stamp, self.stamps),
            None => match self.stamps.checked_add(1) {
                Some(stamps) => self.begin_as(self.stamps, stamps),
                None => Err(OutOfMemory),
            },
        }
    }

    /// Begins a transaction under this stamp. `stamps` is how many are given by then.
    fn begin_as(&mut self, stamp: u64, stamps: u64) -> Result<u64, OutOfMemory>
        requires fresh { is_open self.old.core stamp ≡ false }
        requires below { stamp < stamps }
        requires more { self.old.stamps ≤ stamps }
        ensures stamp { IfOk result (λ t. t ≡ stamp) }
        ensures begun { IfOk result (λ t. IsBegun stamp stamps self.old self.new) }
        ensures err { OnErr result (IsUnchanged self.old self.new) }
    {
        if u64::MAX <= self.ended {
            return Err(OutOfMemory);
        }
        self.growing.add(stamp, Transaction::begun(self.ended))?;
        let Ok(()) = self.core.begin(stamp) else {
            let _unbegun = self.growing.take(stamp);
            return Err(OutOfMemory);
        };
        self.stamps = stamps;
        Ok(stamp)
    }

    /// Whether a transaction of the stamp is open. Doesn't allocate.
    pub fn is_open(&self, stamp: u64) -> bool
        ensures { result ≡ is_open self.now.core stamp }
    {
        self.core.is_open(stamp)
    }

    /// How many have ended. It stays at `u64::MAX`. Doesn't allocate.
    pub fn ended(&self) -> u64
        ensures { result < 2 ^ 64 - 1 → result ≡ length self.now.closed }
    {
        self.ended
    }

    /// Whether `begin` takes this stamp: it was given, and isn't open. Doesn't allocate.
    pub fn may_begin_as(&self, stamp: u64) -> bool
        ensures { IsTrue result ↔ ((stamp < self.now.stamps) × (is_open self.now.core stamp ≡ false)) }
    {
        stamp < self.stamps && !self.core.is_open(stamp)
    }

    /// The open transaction of the stamp, if there is one. Doesn't allocate.
    pub fn transaction(&self, stamp: u64) -> Option<&Transaction>
        ensures { MatchOption result (grown_at self.now.growing stamp ≡ None)
            (λ t. grown_at self.now.growing stamp ≡ Some t.now) }
    {
        self.growing.get(stamp)
    }

    /// Does a command in an open transaction, under its locks.
    pub fn act(&mut self, stamp: u64, command: &Command) -> Acted
        requires opened { is_open self.old.core stamp ≡ true }
        requires goes_on { is_end command.now ≡ false }
        ensures { IsActed stamp command.now result self.old self.new }
    {
        self.growing.act(&mut self.core, stamp, command)
    }

    /// Whether `act` would answer `Waits`, unless memory runs out. Doesn't allocate.
    pub fn would_wait(&self, stamp: u64, command: &Command) -> bool
        requires opened { is_open self.now.core stamp ≡ true }
        requires goes_on { is_end command.now ≡ false }
        ensures { result ≡ (not (is_full_there (grown_at self.now.growing stamp))
            && is_wait (answer_in self.now.core stamp command.now)) }
    {
        !self.growing.is_full(stamp) && self.core.would_wait(stamp, command)
    }

    /// The first lock of a command that an open transaction isn't granted, if there is one. Doesn't
    /// allocate.
    pub fn conflict<'a>(&'a self, stamp: u64, command: &'a Command) -> Option<Conflict<'a>>
        ensures none { IfNone result (answer_in self.now.core stamp command.now ≡ Answer.Granted) }
        ensures some { IfSome result (IsConflict self.now.core stamp command.now) }
    {
        self.core.conflict(stamp, command)
    }

    /// The locks that a command asks for in an open transaction, in their order: the first, and the ids
    /// that it locks exclusively behind it. `None` if it asks for none. Doesn't allocate.
    pub fn locks<'a>(&'a self, stamp: u64, command: &'a Command) -> Option<(&'a Id, Mode, Ids<'a>)>
        ensures some { IfSome result (λ lock. locks_of (view self.now.core stamp) command.now
            ≡ (lock.0.now, lock.1) ∷ exclusively (ids_left lock.2)) }
        ensures none { IfNone result (locks_of (view self.now.core stamp) command.now ≡ []) }
    {
        self.core.locks(stamp, command)
    }

    /// The ids that the stamp has locked, and maybe more. Doesn't allocate.
    pub fn locked(&self, stamp: u64) -> &[Id]
        ensures { (q : List ℕ) → is_some (mode_of self.now.core.locks stamp q) ≡ true → has_id result.now q ≡ true }
    {
        self.core.locked(stamp)
    }

    /// The committed object at the id. Doesn't allocate.
    pub fn committed(&self, id: &Id) -> Option<&Object>
        ensures { option_copied result ≡ committed self.now.core id.now }
    {
        self.core.committed(id)
    }

    /// The object at the id as the transaction of the stamp sees it. Doesn't allocate.
    pub fn seen(&self, stamp: u64, id: &Id) -> Option<&Object>
        ensures { option_copied result ≡ view self.now.core stamp id.now }
    {
        self.core.seen(stamp, id)
    }

    /// A copy of the committed city. It shares the objects' contents.
    pub fn committed_city(&self) -> Result<City, OutOfMemory>
        ensures { IfOk result (λ city. city ≡ (self.now.core.frame, self.now.core.city)) }
    {
        self.core.committed_city()
    }

    /// Why a commit of an open transaction would be refused; `None` if it may commit. Copies no object.
    pub fn refusal(&self, stamp: u64) -> Result<Option<Cause>, OutOfMemory>
        requires { is_open self.now.core stamp ≡ true }
        ensures allowed { IfOk result (λ cause. IfNone cause (HasNoOrphan (view self.now.core stamp))) }
        ensures refused { IfOk result (λ cause. IfSome cause (RefusesCommit self.now.core stamp)) }
    {
        let Ok(cause) = self.core.refusal(stamp) else {
            return Err(OutOfMemory);
        };
        Ok(cause)
    }

    /// The change that a commit of an open transaction makes, or why the commit would be refused.
    ///
    /// The caller makes room for all that it tells of the change, and then commits, which takes no
    /// memory.
    pub fn prepare(&self, stamp: u64) -> Result<Prepared, OutOfMemory>
        requires { is_open self.now.core stamp ≡ true }
        ensures { IfOk result (IsPrepared self.now.core stamp) }
    {
        let Ok(prepared) = self.core.prepare(stamp) else {
            return Err(OutOfMemory);
        };
        Ok(prepared)
    }

    /// Ends an open transaction; its writes stay. Doesn't allocate.
    pub fn commit(&mut self, stamp: u64)
        requires opened { is_open self.old.core stamp ≡ true }
        requires allowed { HasNoOrphan (view self.old.core stamp) }
        ensures ended { HasEnded stamp true self.old self.new }
        ensures city { committed self.new.core ≡ view self.old.core stamp }
    {
        let Some(transaction) = self.growing.take(stamp) else {
            unreachable!()
        };
        self.core.commit(stamp);
        self.past = self.past.with(&transaction, true);
        self.ended = self.ended.saturating_add(1);
    }

    /// Ends an open transaction; its writes are undone. One that dies ends so, at this place, if its
    /// replies were told. Doesn't allocate.
    pub fn abort(&mut self, stamp: u64)
        requires { is_open self.old.core stamp ≡ true }
        ensures ended { HasEnded stamp false self.old self.new }
        ensures undone { IsRolledBack stamp self.old.core self.new.core }
    {
        let Some(transaction) = self.growing.take(stamp) else {
            unreachable!()
        };
        self.core.roll_back(stamp);
        self.past = self.past.with(&transaction, false);
        self.ended = self.ended.saturating_add(1);
    }

    /// Undoes an open transaction whose replies nobody was told, as an attempt of a script that dies.
    /// It doesn't count as ended. Doesn't allocate.
    pub fn forget(&mut self, stamp: u64)
        requires { is_open self.old.core stamp ≡ true }
        ensures { IsForgotten stamp self.old self.new }
    {
        let _forgotten = self.growing.take(stamp);
        self.core.roll_back(stamp);
    }

    /// The committed city, or the session unchanged if a transaction is open. Doesn't allocate.
    pub fn into_city(self) -> Result<City, Session>
        ensures city { IfOk result (λ city. city ≡ (self.core.frame, self.core.city)) }
        ensures back { IfErr result (λ session. session ≡ self) }
        ensures idle { IsOk result ↔ ((t : ℕ) → is_open self.core t ≡ false) }
    {
        let Session {
            start,
            past,
            ended,
            stamps,
            growing,
            core,
        } = self;
        match core.into_city() {
            Ok(city) => Ok(city),
            Err(core) => Err(Session {
                start,
                past,
                ended,
                stamps,
                growing,
                core,
            }),
        }
    }

    /// That what has ended is a serial history, each was told what it would have been told there, the
    /// committed city is what they leave, and lawful, and what is open stands on it.
    pub fn is_live(&self)
        ensures { IsLive self.now }
    {
        // (read for its invariant)
        let _stamps = self.stamps;
    }
}
