//! Waiting works, tried again.
ghost use Rattle.std.specs.Prelude.{◌≡◌};
ghost use Rattle.city_live.specs.Serving.{Follows};

use super::{Hands, STEP_ANSWERS};
use crate::journal::Journal;
use crate::waiting::Waiting;
use crate::work::Place;
use city_members::text::Id;
use std::collections::BTreeSet;

impl<J: Journal> Hands<J> {
    /// Notes as due all works waiting for the stamp's locks or behind it, before it gives them back. If memory runs
    /// out, all waiting works are due.
    pub(super) fn release(&mut self, stamp: u64)
        ensures { self.new ≡ self.old }
    {
        if self.waiting.is_empty() {
            return;
        }
        let ids = self.talks.session().locked(stamp);
        if !note_at(&mut self.due, &mut self.waiting, ids) {
            self.all_due = true;
        }
        self.wake_behind(stamp);
    }

    /// Notes as due all works held back behind a stamp.
    pub(super) fn wake_behind(&mut self, stamp: u64)
        ensures { self.new ≡ self.old }
    {
        if let Some(waiters) = self.waiting.take_behind(stamp) {
            if !note_each(&mut self.due, &waiters) {
                self.all_due = true;
            }
        }
    }

    /// Takes the stamp off its list, and returns the list's place. Doesn't allocate.
    pub(super) fn unlist(&mut self, stamp: u64) -> Place
        ensures { self.new ≡ self.old }
    {
        let place = self.talks.put_at(stamp, Place::Nowhere);
        match &place {
            Place::Nowhere => {}
            Place::AtId(id) => self.waiting.remove_at(id, stamp),
            Place::Behind(other) => self.waiting.remove_behind(*other, stamp),
        }
        place
    }

    /// Tries due works again, the oldest first, until none is due. If memory runs out, the rest is tried at the next
    /// request.
    #[tactic(auto, using(crate::proofs::Followed::then, crate::proofs::Followed::same))]
    pub(super) fn wake(&mut self)
        ensures { Follows self.old self.new }
    {
        if self.all_due {
            self.note_all();
        }
        // (more tries than any run needs: a dead script waits for an end before each new attempt)
        for _tries in 0..u64::MAX {
            if !self.wake_oldest() {
                return;
            }
        }
    }

    /// Tries the oldest due work again. False if none is due, or memory runs out.
    #[tactic(auto, using(crate::proofs::Followed::then, crate::proofs::Followed::same))]
    fn wake_oldest(&mut self) -> bool
        ensures { Follows self.old self.new }
    {
        if self.due.is_empty() || self.talks.reserve(STEP_ANSWERS).is_err() {
            return false;
        }
        let Some(stamp) = self.due.pop_first() else {
            return false;
        };
        !self.is_busy(stamp) || self.try_again(stamp)
    }

    /// Notes as due all waiting works.
    fn note_all(&mut self)
        ensures { self.new ≡ self.old }
    {
        for (stamp, work) in self.talks.table().iter() {
            if work.waits() && self.due.insert(*stamp).is_err() {
                return;
            }
        }
        self.all_due = false;
    }

    /// Tries a waiting work again. A dead script begins again, once nothing in its way is open. False if memory
    /// runs out.
    #[tactic(auto, using(crate::proofs::Followed::then, crate::proofs::Followed::same))]
    fn try_again(&mut self, stamp: u64) -> bool
        ensures { Follows self.old self.new }
    {
        if let Some(other) = self.held_by(stamp) {
            return self.stay_behind(stamp, other);
        }
        if self.talks.reopen(stamp).is_err() {
            self.all_due = true;
            return false;
        }
        self.go_on_from_list(stamp);
        true
    }

    /// Takes a work off its list and goes on with it. Those behind it are due, unless it waits there again.
    #[tactic(auto, using(crate::proofs::Followed::then, crate::proofs::Followed::same))]
    fn go_on_from_list(&mut self, stamp: u64)
        ensures { Follows self.old self.new }
    {
        let place = self.unlist(stamp);
        self.go_on(stamp);
        if !self.waits_as(stamp, &place) {
            self.wake_behind(stamp);
        }
    }

    /// A stamp still in the way of a dead script, if there is one. Doesn't allocate.
    fn held_by(&self, stamp: u64) -> Option<u64> {
        if self.is_open(stamp) {
            return None;
        }
        self.talks.work(stamp)?.still_open(self.talks.session())
    }

    /// Whether the work of the stamp waits at the id of this place. Doesn't allocate.
    fn waits_as(&self, stamp: u64, place: &Place) -> bool {
        match self.talks.work(stamp) {
            Some(work) => work.waits_as(place),
            None => false,
        }
    }

    /// Lists a work behind another. False if memory runs out.
    fn stay_behind(&mut self, stamp: u64, other: u64) -> bool
        ensures { self.new ≡ self.old }
    {
        let _place = self.unlist(stamp);
        let _nowhere = self.talks.put_at(stamp, Place::Behind(other));
        if self.waiting.add_behind(other, stamp).is_err() {
            self.all_due = true;
            return false;
        }
        true
    }
}

/// Notes as due all works waiting at these ids. False if memory runs out for one.
fn note_at(due: &mut BTreeSet<u64>, waiting: &mut Waiting, ids: &[Id]) -> bool {
    let mut all = true;
    for id in ids {
        if let Some(waiters) = waiting.take_at(id) {
            for (waiter, _) in waiters.iter() {
                all = due.insert(*waiter).is_ok() && all;
            }
        }
    }
    all
}

/// Notes stamps as due. False if memory runs out for one.
fn note_each(due: &mut BTreeSet<u64>, waiters: &BTreeSet<u64>) -> bool {
    let mut all = true;
    for waiter in waiters.iter() {
        all = due.insert(*waiter).is_ok() && all;
    }
    all
}
