//! What is said.
ghost use Rattle.std.specs.Prelude.{◌≡◌, [], IfSome};
ghost use Rattle.std.specs.Arc.{arc_value};
ghost use Rattle.city_live.specs.Ending.{IsChangeTo, IsToldOne};
ghost use Rattle.city_live.specs.Serving.{IsSaid};

use crate::answer::{Answer, Changed, Name, What};
use crate::ghosts::events::Events;
use city_model::OutOfMemory;
use std::alloc::Global;
use std::marker::Model;
use std::mem::replace;
use std::sync::Arc;

/// The answers that aren't given out yet; contracts see all events, too.
#[derive(Drop)]
pub struct Log {
    answers: Vec<Answer>,
    events: Events,
}

impl Model for Log {
    ghost use Rattle.city_live.specs.Serving.{Logged};

    ghost Value = { Logged };

    ghost use Rattle.std.specs.Coded.{codes};
    ghost use Rattle.city_members.specs.internal.DataCode.{coded_members};
    ghost use Rattle.city_txn.specs.internal.Codes.{coded_objects};

    ghost coded = { Prim.hlevel (codes, coded_members, coded_objects) };

    ghost view = { λ l. record { events = l.events; answers = l.answers.items } };
}

impl Log {
    /// Nothing is said. Doesn't allocate.
    pub fn new(alloc: Global) -> Log
        ensures { result ≡ record { events = []; answers = [] } }
    {
        Log {
            answers: Vec::new(alloc),
            events: Events::none(),
        }
    }

    /// Makes room for so many answers more.
    pub fn reserve(&mut self, more: usize) -> Result<(), OutOfMemory>
        ensures { self.new ≡ self.old }
    {
        self.answers.reserve(more)?;
        Ok(())
    }

    /// The events so far. Doesn't allocate.
    pub fn events(&self) -> &Events
        ensures { result.now ≡ self.now.events }
    {
        &self.events
    }

    /// Notes these events in place of those so far. Doesn't allocate.
    pub fn note(&mut self, events: Events)
        ensures events { self.new.events ≡ events }
        ensures answers { self.new.answers ≡ self.old.answers }
    {
        self.events = events;
    }

    /// Adds an answer, unless memory runs out. Where there is room, it doesn't allocate.
    pub fn says(&mut self, stamp: Option<u64>, answer: Answer)
        ensures { IsSaid stamp answer self.old self.new }
    {
        if self.answers.reserve(1).is_ok() {
            self.events = self.events.says(stamp, &answer, true);
            self.answers.push_reserved(answer);
        } else {
            self.events = self.events.says(stamp, &answer, false);
            drop(answer);
        }
    }

    /// Tells a hand of a change, unless memory runs out. Where there is room, it doesn't allocate.
    pub fn tell(&mut self, hand: &Name, changed: &Arc<Changed>)
        ensures { IsToldOne (arc_value hand.now) (arc_value changed.now) self.old self.new }
    {
        let Some(answer) = change_to(hand, changed) else {
            let noted = self.events().misses(hand, changed);
            self.note(noted);
            return;
        };
        self.says(None, answer);
    }

    /// Gives the answers out. Doesn't allocate.
    pub fn take(&mut self, alloc: Global) -> Vec<Answer>
        ensures given { result.items ≡ self.old.answers }
        ensures events { self.new.events ≡ self.old.events }
        ensures answers { self.new.answers ≡ [] }
    {
        replace(&mut self.answers, Vec::new(alloc))
    }
}

/// The answer that tells a hand of a change. `None` if memory runs out.
fn change_to(hand: &Name, changed: &Arc<Changed>) -> Option<Answer>
    ensures { IfSome result (IsChangeTo (arc_value hand.now) (arc_value changed.now)) }
{
    let hand = Arc::try_clone(hand).ok()?;
    let changed = Arc::try_clone(changed).ok()?;
    let what = What::Changed(changed);
    Some(Answer {
        hand,
        tag: None,
        what,
    })
}
