//! How scripts and transactions end.
ghost use Rattle.std.specs.Prelude.{◌≡◌, true, false, IfErr, OnErr};
ghost use Rattle.std.specs.Arc.{arc_value};
ghost use Rattle.city_live.specs.Ending.{IsAllowed, IsNumbered};
ghost use Rattle.city_live.specs.Serving.{Follows, Proceeds, AsksEnd, IsLeaving};

use super::{Hands, Sender};
use crate::answer::{Changed, Fault};
use crate::hand::At;
use crate::in_the_way::InTheWay;
use crate::journal::{Journal, Unwritten};
use crate::request::Tag;
use crate::talks::{Ending, Preparing};
use city_model::command::Cause;
use std::sync::Arc;

/// The outcome of a commit.
#[derive(Drop)]
enum Committing {
    Done,
    Refused(Cause),
    NoMemory,
    /// The journal can't be written.
    CannotWrite,
}

impl<J: Journal> Hands<J> {
    /// Commits the hand's transaction.
    #[tactic(auto, using(crate::proofs::Followed::committing))]
    pub(super) fn commit_by(&mut self, sender: &Sender, tag: Tag)
        requires { AsksEnd true (arc_value sender.now.name) tag self.old }
        ensures { Proceeds self.old self.new }
    {
        let Some(stamp) = self.stamp_of(sender) else {
            return self.refuse(sender, tag, Fault::NotOpen);
        };
        if self.is_busy(stamp) {
            return self.refuse(sender, tag, Fault::Busy);
        }
        self.talks.request(stamp, &sender.name, tag);
        self.commit_single(stamp);
    }

    /// Commits a transaction whose hand has asked for it.
    #[tactic(auto, using(crate::proofs::Followed::then, crate::proofs::Followed::same))]
    fn commit_single(&mut self, stamp: u64)
        ensures { Follows self.old self.new }
    {
        match self.commit(stamp) {
            Committing::Done => {}
            Committing::Refused(cause) => self.talks.tell_refused(stamp, cause),
            Committing::NoMemory => self.talks.tell_fault(stamp, Fault::NoMemory),
            Committing::CannotWrite => self.talks.tell_fault(stamp, Fault::CannotWrite),
        }
    }

    /// Commits a script at its end.
    #[tactic(auto, using(crate::proofs::Followed::then, crate::proofs::Followed::same))]
    pub(super) fn commit_script(&mut self, stamp: u64)
        ensures { Follows self.old self.new }
    {
        match self.commit(stamp) {
            Committing::Done => {}
            Committing::Refused(cause) => self.end(stamp, Ending::Uncommitted(cause)),
            Committing::NoMemory => self.end(stamp, Ending::NoMemory),
            Committing::CannotWrite => self.undo(stamp),
        }
    }

    /// Undoes a script whose commit can't be noted, and tells its hand so.
    #[tactic(auto, using(crate::proofs::Followed::then, crate::proofs::Followed::same))]
    fn undo(&mut self, stamp: u64)
        ensures { Follows self.old self.new }
    {
        self.release(stamp);
        let seat = self.talks.undo(stamp);
        self.leave(seat);
    }

    /// Commits a work, and tells the watchers of its change, and then its hand. If memory runs out, or the journal
    /// can't be written, the work is as before.
    #[tactic(auto, using(crate::proofs::Followed::then, crate::proofs::Followed::same))]
    fn commit(&mut self, stamp: u64) -> Committing
        ensures { Follows self.old self.new }
    {
        match self.talks.prepare(stamp) {
            Preparing::Ready(changed, version) => self.commit_ready(stamp, changed, version),
            Preparing::Refused(cause) => Committing::Refused(cause),
            Preparing::NoMemory => Committing::NoMemory,
        }
    }

    /// Commits a work that is ready, with this version after it.
    #[tactic(auto, using(crate::proofs::Followed::then, crate::proofs::Followed::same))]
    fn commit_ready(
        &mut self,
        stamp: u64,
        changed: Option<Arc<Changed>>,
        version: u64,
    ) -> Committing
        requires allowed { IsAllowed stamp changed self.old.session }
        requires numbered { IsNumbered stamp version changed self.old }
        ensures { Follows self.old self.new }
    {
        self.release(stamp);
        match self.talks.commit(stamp, changed, version) {
            Ok(seat) => {
                self.leave(seat);
                Committing::Done
            }
            Err(Unwritten::OutOfMemory) => Committing::NoMemory,
            Err(Unwritten::CannotWrite) => Committing::CannotWrite,
        }
    }

    /// Aborts the hand's work.
    #[tactic(auto, using(crate::proofs::Followed::aborting))]
    pub(super) fn abort_by(&mut self, sender: &Sender, tag: Tag)
        requires { AsksEnd false (arc_value sender.now.name) tag self.old }
        ensures { Proceeds self.old self.new }
    {
        let Some(stamp) = self.stamp_of(sender) else {
            return self.refuse(sender, tag, Fault::NotOpen);
        };
        if let Err(tag) = self.give_up(sender, tag, stamp) {
            self.refuse(sender, tag, Fault::NoMemory);
        }
    }

    /// Aborts a work, and answers its waiting request. If memory runs out, the tag comes back, and nothing changes.
    #[tactic(auto, using(crate::proofs::Followed::giving_up))]
    pub(super) fn give_up(&mut self, sender: &Sender, tag: Tag, stamp: u64) -> Result<(), Tag>
        requires { AsksEnd false (arc_value sender.now.name) tag self.old }
        ensures goes { Proceeds self.old self.new }
        ensures leaving { IsLeaving (arc_value sender.now.name) tag self.old
            → IsLeaving (arc_value sender.now.name) tag self.new }
        ensures err { OnErr result (Follows self.old self.new) }
        ensures back { IfErr result (λ t. t ≡ tag) }
    {
        // (a dead script begins again, so that its end counts)
        if self.talks.reopen(stamp).is_err() {
            return Err(tag);
        }
        self.cancel(stamp);
        self.end_for(sender, tag, stamp);
        Ok(())
    }

    /// Takes a work off its list, and answers its waiting request.
    #[tactic(auto, using(crate::proofs::Followed::then, crate::proofs::Followed::same))]
    fn cancel(&mut self, stamp: u64)
        ensures { Follows self.old self.new }
    {
        let _place = self.unlist(stamp);
        if self.talks.is_waited_for(stamp) {
            self.talks.tell_cancelled(stamp);
        }
    }

    /// Aborts a work, as its hand asks.
    #[tactic(auto, using(crate::proofs::Followed::ending))]
    fn end_for(&mut self, sender: &Sender, tag: Tag, stamp: u64)
        requires { AsksEnd false (arc_value sender.now.name) tag self.old }
        ensures goes { Proceeds self.old self.new }
        ensures leaving { IsLeaving (arc_value sender.now.name) tag self.old
            → IsLeaving (arc_value sender.now.name) tag self.new }
    {
        self.talks.request(stamp, &sender.name, tag);
        self.end(stamp, Ending::Aborted);
    }

    /// Undoes a work, and tells its end.
    #[tactic(auto, using(crate::proofs::Followed::then, crate::proofs::Followed::same))]
    pub(super) fn end(&mut self, stamp: u64, ending: Ending)
        ensures { Follows self.old self.new }
    {
        if !self.is_open(stamp) {
            return;
        }
        self.release(stamp);
        let seat = self.talks.end(stamp, ending);
        self.leave(seat);
    }

    /// The hand at a seat has no work any more. Doesn't allocate.
    fn leave(&mut self, seat: Option<usize>)
        ensures { self.new ≡ self.old }
    {
        if let Some(seat) = seat {
            let _before = self.roster.put_at(seat, At::Idle);
        }
    }

    /// Keeps the age of a dead transaction for the next one of its hand. Doesn't allocate.
    pub(super) fn keep_age(&mut self, seat: Option<usize>, stamp: u64, way: InTheWay)
        ensures { self.new ≡ self.old }
    {
        if let Some(seat) = seat {
            let _before = self.roster.put_at(seat, At::Kept(stamp, way));
        }
    }
}
