//! Commands done on the store, in the transaction that holds their locks.
//!
//! The writes of a plan are made in two steps: first all ids are reserved and noted, then all are
//! written.
ghost use Rattle.std.specs.Prelude.{◌≡◌, ℕ, List, length, true, false, is_ok, OnOk, if◌then◌else◌};
ghost use Rattle.city_model.specs.CityMap.{same_id};
ghost use Rattle.city_model.specs.Marks.{marks_from};
ghost use Rattle.city_model.specs.Scripts.{is_end, is_mark};
ghost use Rattle.city_model.specs.Writing.{write_in};
ghost use Rattle.city_model.specs.declared.command.Command.{Command};
ghost use Rattle.city_txn.specs.UndoLog.{log_of, written_at_mark};
ghost use Rattle.city_txn.specs.Writes.{write_of};
ghost use Rattle.city_txn.specs.internal.LogTests.{has_mark};
ghost use Rattle.city_txn.specs.internal.Performing.{MayPerform, IsPerform, plans};
ghost use Rattle.city_txn.specs.internal.State.{store_written, is_reserved, written_with, MayReserve, IsReady, Touches};
ghost use Rattle.city_txn.specs.internal.State.{ChangesWrites, OthersWritesStay};

use crate::store::{Seen, Store};
use city_members::copied::Copied;
use city_members::text::{Id, Text};
use city_model::OutOfMemory;
use city_model::command::{Cause, Command, Reply};
use city_model::object::Object;
use city_model::plan::{Plan, Writes, plan_of};

impl Store {
    /// Does a command under its locks, which the stamp holds. If memory runs out, nothing is
    /// written.
    pub fn perform(&mut self, stamp: u64, command: &Command) -> Result<Reply, OutOfMemory>
        requires no_end { is_end command.now ≡ false }
        requires may { MayPerform self.old stamp command.now }
        ensures { IsPerform stamp command.now result self.old self.new }
    {
        match command {
            Command::Mark(name) => self.mark(stamp, name),
            Command::Back(name) => self.back(stamp, name),
            _ => self.carry_out(stamp, command),
        }
    }

    /// Does a command other than a mark or going back.
    fn carry_out(&mut self, stamp: u64, command: &Command) -> Result<Reply, OutOfMemory>
        requires no_end { is_end command.now ≡ false }
        requires no_mark { is_mark command.now ≡ false }
        requires may { MayPerform self.old stamp command.now }
        ensures { IsPerform stamp command.now result self.old self.new }
    {
        match plan_of(self.alloc(), &Seen { store: self, stamp }, command)? {
            Plan::Refused(cause) => Ok(Reply::Refused(cause)),
            Plan::Writes(reply, writes) => {
                self.write_all(stamp, writes)?;
                Ok(reply)
            }
        }
    }

    /// Goes back to a mark. Doesn't allocate if it is there.
    pub fn back(&mut self, stamp: u64, name: &Text) -> Result<Reply, OutOfMemory>
        ensures { IsPerform stamp (Command.Back name.now) result self.old self.new }
    {
        if !self.logs().has_mark(stamp, name) {
            return Ok(Reply::Refused(Cause::NoMark(name.copy(self.alloc())?)));
        }
        self.go_back(stamp, name);
        Ok(Reply::WentBack)
    }

    /// Goes back to the newest mark of the name, which the transaction must have. Its writes are as
    /// they were at the mark, newer marks are gone, and the mark stays. Doesn't allocate.
    fn go_back(&mut self, stamp: u64, name: &Text)
        requires { has_mark (log_of self.old.logs stamp) name.now ≡ true }
        ensures written { store_written self.new stamp
            ≡ written_at_mark (store_written self.old stamp) (marks_from name.now (store_written self.old stamp).1) }
        ensures touches { Touches stamp (λ id. false) self.old self.new }
    {
        while !self.logs().is_at_mark(stamp, name) {
            self.undo_newest(stamp);
        }
    }

    /// Makes all planned writes, or none if memory runs out. Marks stay as they are.
    pub fn write_all(&mut self, stamp: u64, writes: Writes) -> Result<(), OutOfMemory>
        requires { MayReserve self.old stamp (plans writes) }
        ensures touches { Touches stamp (plans writes) self.old self.new }
        ensures marks { (store_written self.new stamp).1 ≡ (store_written self.old stamp).1 }
        ensures writes { (q : List ℕ) → write_of self.new.writes q
            ≡ (if is_ok result then written_with stamp (write_in writes q) (write_of self.old.writes q)
            else write_of self.old.writes q) }
    {
        if self.writes_once(stamp, writes.as_slice()) {
            self.write_once(stamp, writes.into_vec())
        } else {
            self.write_each(stamp, writes)
        }
    }

    /// Whether one id is planned, in a transaction without marks: then nothing is to be noted.
    fn writes_once(&self, stamp: u64, writes: &[(Id, Option<Object>)]) -> bool
        ensures one { result ≡ true → length writes.now ≡ 1 }
        ensures unmarked { result ≡ true → length (log_of self.now.logs stamp) ≡ 0 }
    {
        writes.len() == 1 && self.logs().is_empty(stamp)
    }

    /// Makes the only planned write, in a transaction without marks: reserves and writes at once.
    fn write_once(
        &mut self,
        stamp: u64,
        mut writes: Vec<(Id, Option<Object>)>,
    ) -> Result<(), OutOfMemory>
        requires may { MayReserve self.old stamp (plans writes.items) }
        requires one { length writes.items ≡ 1 }
        requires unmarked { length (log_of self.old.logs stamp) ≡ 0 }
        ensures touches { Touches stamp (plans writes.items) self.old self.new }
        ensures marks { (store_written self.new stamp).1 ≡ (store_written self.old stamp).1 }
        ensures writes { (q : List ℕ) → write_of self.new.writes q
            ≡ (if is_ok result then written_with stamp (write_in writes.items q) (write_of self.old.writes q)
            else write_of self.old.writes q) }
    {
        match writes.pop() {
            Some((id, object)) => self.put(stamp, id, object),
            None => Ok(()),
        }
    }

    /// Reserves and notes all planned ids, and then writes them.
    fn write_each(&mut self, stamp: u64, writes: Writes) -> Result<(), OutOfMemory>
        requires { MayReserve self.old stamp (plans writes) }
        ensures touches { Touches stamp (plans writes) self.old self.new }
        ensures marks { (store_written self.new stamp).1 ≡ (store_written self.old stamp).1 }
        ensures writes { (q : List ℕ) → write_of self.new.writes q
            ≡ (if is_ok result then written_with stamp (write_in writes q) (write_of self.old.writes q)
            else write_of self.old.writes q) }
    {
        self.make_ready(stamp, writes.as_slice())?;
        self.set_all(stamp, writes.into_vec());
        Ok(())
    }

    /// Reserves and notes all planned ids. No transaction sees a difference.
    fn make_ready(&mut self, stamp: u64, writes: &[(Id, Option<Object>)]) -> Result<(), OutOfMemory>
        requires { MayReserve self.old stamp (plans writes.now) }
        ensures touches { Touches stamp (plans writes.now) self.old self.new }
        ensures writes { (q : List ℕ) → write_of self.new.writes q ≡ write_of self.old.writes q }
        ensures marks { store_written self.new stamp ≡ store_written self.old stamp }
        ensures ok { OnOk result ((id : List ℕ) → plans writes.now id ≡ true → IsReady self.new stamp id) }
    {
        for write in writes {
            self.make_ready_at(stamp, &write.0)?;
        }
        Ok(())
    }

    /// Reserves an id, and notes the transaction's write there.
    fn make_ready_at(&mut self, stamp: u64, id: &Id) -> Result<(), OutOfMemory>
        requires { MayReserve self.old stamp (same_id id.now) }
        ensures touches { Touches stamp (same_id id.now) self.old self.new }
        ensures writes { (q : List ℕ) → write_of self.new.writes q ≡ write_of self.old.writes q }
        ensures marks { store_written self.new stamp ≡ store_written self.old stamp }
        ensures ok { OnOk result (IsReady self.new stamp id.now) }
        ensures more { OnOk result ((q : List ℕ) → IsReady self.old stamp q → IsReady self.new stamp q) }
    {
        self.reserve(stamp, id)?;
        self.note(stamp, id)?;
        Ok(())
    }

    /// Makes all planned writes, at reserved ids. Doesn't allocate.
    fn set_all(&mut self, stamp: u64, mut writes: Vec<(Id, Option<Object>)>)
        requires { (id : List ℕ) → plans writes.items id ≡ true → is_reserved self.old stamp id ≡ true }
        ensures only { ChangesWrites self.old self.new }
        ensures writes { (q : List ℕ) → write_of self.new.writes q
            ≡ written_with stamp (write_in writes.items q) (write_of self.old.writes q) }
        ensures others { OthersWritesStay stamp self.old self.new }
    {
        while let Some(write) = writes.pop() {
            let (id, object) = write;
            self.set(stamp, id, object);
        }
    }
}
