//! How works begin, and commands are asked for.
ghost use Rattle.std.specs.Prelude.{◌≡◌, IfOk, OnErr};
ghost use Rattle.std.specs.Arc.{arc_value};
ghost use Rattle.city_live.specs.declared.request.Request.TheVariants as requests;
ghost use Rattle.city_live.specs.Coming.{request_for, IsNamed};
ghost use Rattle.city_live.specs.Works.{IsFresh};
ghost use Rattle.city_live.specs.Serving.{Follows, Proceeds, HasAsked, MayTake};

use super::{Hands, Sender};
use crate::answer::Fault;
use crate::hand::At;
use crate::journal::Journal;
use crate::request::Tag;
use crate::task::Task;
use city_members::copied::Copied;
use city_members::sequence::Sequence;
use city_members::text::Text;
use city_model::OutOfMemory;
use city_model::script::Script;
use std::sync::Arc;

impl<J: Journal> Hands<J> {
    /// Begins a whole script.
    #[tactic(auto, using(crate::proofs::Followed::asked_come))]
    pub(super) fn begin_script(&mut self, sender: &Sender, tag: Tag, script: Script)
        requires { HasAsked (arc_value sender.now.name) tag (requests.Script script) self.old }
        ensures { Proceeds self.old self.new }
    {
        match script.name().copy(self.alloc) {
            Ok(name) => {
                let replies = Sequence::new(self.alloc);
                self.begin(sender, tag, name, Task::Script(script, replies, None));
            }
            Err(OutOfMemory) => self.refuse(sender, tag, Fault::NoMemory),
        }
    }

    /// Begins a script or a transaction.
    #[tactic(auto, using(crate::proofs::Followed::asked_come))]
    pub(super) fn begin(&mut self, sender: &Sender, tag: Tag, name: Text, task: Task)
        requires fresh { IsFresh task }
        requires named { IsNamed name task }
        requires asked { HasAsked (arc_value sender.now.name) tag (request_for name task) self.old }
        ensures { Proceeds self.old self.new }
    {
        if let Some(stamp) = self.stamp_of(sender) {
            let fault = if self.is_busy(stamp) {
                Fault::Busy
            } else {
                Fault::AlreadyOpen
            };
            return self.refuse(sender, tag, fault);
        }
        match self.seat_of(sender) {
            Ok(seat) => self.begin_at(sender, seat, tag, name, task),
            Err(fault) => self.refuse(sender, tag, fault),
        }
    }

    /// Begins a script or a transaction of a hand without one.
    #[tactic(auto, using(crate::proofs::Followed::refusing))]
    fn begin_at(&mut self, sender: &Sender, seat: usize, tag: Tag, name: Text, task: Task)
        requires fresh { IsFresh task }
        requires named { IsNamed name task }
        requires asked { HasAsked (arc_value sender.now.name) tag (request_for name task) self.old }
        ensures { Proceeds self.old self.new }
    {
        let is_script = matches!(task, Task::Script(_, _, _));
        match self.open(sender, &tag, seat, name, task) {
            Ok(stamp) => self.begun(sender, tag, stamp, is_script),
            Err(OutOfMemory) => self.refuse(sender, tag, Fault::NoMemory),
        }
    }

    /// Opens a work of a hand without one, under its kept age if it has one. If memory runs out, nothing changes.
    #[tactic(auto, using(crate::proofs::Followed::opening))]
    fn open(
        &mut self,
        sender: &Sender,
        tag: &Tag,
        seat: usize,
        name: Text,
        task: Task,
    ) -> Result<u64, OutOfMemory>
        requires fresh { IsFresh task }
        requires named { IsNamed name task }
        requires asked { HasAsked (arc_value sender.now.name) tag.now (request_for name task) self.old }
        ensures goes { Proceeds self.old self.new }
        ensures begun { IfOk result (λ t. MayTake t (arc_value sender.now.name) tag.now self.new) }
        ensures err { OnErr result (Follows self.old self.new) }
    {
        let by = Arc::try_clone(&sender.name)?;
        let kept = self.kept_by(seat);
        let stamp = self.talks.begin(by, tag, seat, name, task, kept)?;
        self.take_age(seat, stamp);
        Ok(stamp)
    }

    /// The stamp kept for the next transaction of the hand at a seat, if there is one. Doesn't allocate.
    fn kept_by(&self, seat: usize) -> Option<u64> {
        self.roster.get(seat)?.kept()
    }

    /// Moves the lock in the way of the hand's last transaction to its new work. Doesn't allocate.
    fn take_age(&mut self, seat: usize, stamp: u64)
        ensures { self.new ≡ self.old }
    {
        if let At::Kept(_, way) = self.roster.put_at(seat, At::Works(stamp)) {
            self.talks.hold(stamp, Some(way));
        }
    }

    /// Tells of a transaction's beginning, or runs a script.
    #[tactic(auto, using(crate::proofs::Followed::goes_before))]
    fn begun(&mut self, sender: &Sender, tag: Tag, stamp: u64, is_script: bool)
        requires { MayTake stamp (arc_value sender.now.name) tag self.old }
        ensures { Proceeds self.old self.new }
    {
        self.talks.request(stamp, &sender.name, tag);
        if is_script {
            self.go_on(stamp);
        } else {
            self.talks.tell_begun(stamp);
        }
    }

    /// Does the first command of a script in the hand's transaction.
    #[tactic(auto, using(crate::proofs::Followed::asking))]
    pub(super) fn act_by(&mut self, sender: &Sender, tag: Tag, script: Script)
        requires { HasAsked (arc_value sender.now.name) tag (requests.Do script) self.old }
        ensures { Proceeds self.old self.new }
    {
        let Some(stamp) = self.stamp_of(sender) else {
            return self.refuse(sender, tag, Fault::NotOpen);
        };
        match self.talks.ask(stamp, &sender.name, tag, script) {
            Ok(()) => self.go_on(stamp),
            Err(tag) => {
                let fault = if self.is_busy(stamp) {
                    Fault::Busy
                } else if self.talks.is_script(stamp) {
                    Fault::NotOpen
                } else {
                    Fault::NoMemory
                };
                self.refuse(sender, tag, fault);
            }
        }
    }
}
