//! The events so far, for contracts only.
ghost use Rattle.std.specs.Prelude.{◌≡◌, ◌++◌, ◌∷◌, [], None, false};
ghost use Rattle.city_live.specs.declared.answer.What.TheVariants as told;
ghost use Rattle.city_live.specs.declared.ghosts.event.Event.{Event};

use crate::answer::{Answer, Changed, Name};
use crate::ghosts::event::Event;
use crate::ghosts::no_rule::NoRule;
use crate::request::{Request, Tag};
use crate::work::Work;
use city_members::text::Text;
use city_model::script::Script;
use logbook::{Opening as FirstEntries, Seen, Start};
use std::marker::Model;
use std::sync::Arc;

/// The first entries of `Events::none`.
pub struct NoEvents;

impl FirstEntries<(), Event> for NoEvents {
    ghost use Rattle.std.specs.Prelude.{[]};

    ghost log = { λ count about. [] };
}

/// Events, and a request that comes.
#[derive(Clone, Copy)]
pub struct WithComing<'a> {
    events: &'a Events,
    hand: &'a Text,
    tag: &'a Tag,
    request: &'a Request,
}

/// The first entries of `Events::comes`.
pub struct OneComing;

impl<'a> FirstEntries<WithComing<'a>, Event> for OneComing {
    ghost use Rattle.std.specs.Prelude.{◌++◌, ◌∷◌, []};
    ghost use Rattle.city_live.specs.declared.ghosts.event.Event.{Event};

    ghost log = { λ count with. with.events.now ++ Event.Comes with.hand.now with.tag.now with.request.now ∷ [] };
}

/// Events, and a beginning.
#[derive(Clone, Copy)]
pub struct WithBegin<'a> {
    events: &'a Events,
    stamp: u64,
    work: &'a Work,
}

/// The first entries of `Events::begins`.
pub struct OneBegin;

impl<'a> FirstEntries<WithBegin<'a>, Event> for OneBegin {
    ghost use Rattle.std.specs.Prelude.{◌++◌, ◌∷◌, []};
    ghost use Rattle.city_live.specs.declared.ghosts.event.Event.{Event};

    ghost log = { λ count with. with.events.now ++ Event.Begins with.stamp with.work.now ∷ [] };
}

/// Events, and a request for a command.
#[derive(Clone, Copy)]
pub struct WithAsk<'a> {
    events: &'a Events,
    stamp: u64,
    hand: &'a Name,
    tag: &'a Tag,
    script: &'a Script,
}

/// The first entries of `Events::asks`.
pub struct OneAsk;

impl<'a> FirstEntries<WithAsk<'a>, Event> for OneAsk {
    ghost use Rattle.std.specs.Prelude.{◌++◌, ◌∷◌, []};
    ghost use Rattle.city_live.specs.declared.ghosts.event.Event.{Event};

    ghost log = { λ count with.
        with.events.now ++ Event.Asks with.stamp with.hand.now with.tag.now with.script.now ∷ [] };
}

/// Events, and a request for all of a work.
#[derive(Clone, Copy)]
pub struct WithRequest<'a> {
    events: &'a Events,
    stamp: u64,
    hand: &'a Name,
    tag: &'a Tag,
}

/// The first entries of `Events::requests`.
pub struct OneRequest;

impl<'a> FirstEntries<WithRequest<'a>, Event> for OneRequest {
    ghost use Rattle.std.specs.Prelude.{◌++◌, ◌∷◌, []};
    ghost use Rattle.city_live.specs.declared.ghosts.event.Event.{Event};

    ghost log = { λ count with. with.events.now ++ Event.Requests with.stamp with.hand.now with.tag.now ∷ [] };
}

/// Events, and an answer.
#[derive(Clone, Copy)]
pub struct WithAnswer<'a> {
    events: &'a Events,
    stamp: Option<u64>,
    answer: &'a Answer,
    is_told: bool,
}

/// The first entries of `Events::says`.
pub struct OneAnswer;

impl<'a> FirstEntries<WithAnswer<'a>, Event> for OneAnswer {
    ghost use Rattle.std.specs.Prelude.{◌++◌, ◌∷◌, []};
    ghost use Rattle.city_live.specs.declared.ghosts.event.Event.{Event};

    ghost log = { λ count with. with.events.now ++ Event.Says with.stamp with.answer.now with.is_told ∷ [] };
}

/// Events, and a change that a watcher is not told.
#[derive(Clone, Copy)]
pub struct WithMissed<'a> {
    events: &'a Events,
    hand: &'a Name,
    changed: &'a Arc<Changed>,
}

/// The first entries of `Events::misses`.
pub struct OneMissed;

impl<'a> FirstEntries<WithMissed<'a>, Event> for OneMissed {
    ghost use Rattle.std.specs.Prelude.{◌++◌, ◌∷◌, [], None, false};
    ghost use Rattle.city_live.specs.declared.answer.What.TheVariants as told;
    ghost use Rattle.city_live.specs.declared.ghosts.event.Event.{Event};

    ghost log = { λ count with. with.events.now
        ++ Event.Says None (record { hand = with.hand.now; tag = None; what = told.Changed with.changed.now }) false
        ∷ [] };
}

/// The events so far. It is zero-sized; contracts see them.
#[derive(Drop)]
pub struct Events {
    seen: Seen<Event, u64, NoRule>,
}

impl Model for Events {
    ghost use Rattle.std.specs.Prelude.{List};
    ghost use Rattle.std.specs.Coded.{codes};
    ghost use Rattle.city_members.specs.internal.DataCode.{coded_members};
    ghost use Rattle.city_txn.specs.internal.Codes.{coded_objects};
    ghost use Rattle.city_live.specs.declared.ghosts.event.Event.{Event};

    ghost Value = { List Event };

    ghost coded = { Prim.hlevel (codes, coded_members, coded_objects) };

    ghost view = { λ e. e.seen.log };
}

impl Events {
    /// None.
    pub fn none() -> Events
        ensures { result ≡ [] }
    {
        let (seen, _pens) = Seen::open_row::<(), NoEvents>(&(), Start::alone(), 0);
        Events { seen }
    }

    /// These, and that a request of a hand comes.
    pub fn comes(&self, hand: &Text, tag: &Tag, request: &Request) -> Events
        ensures { result ≡ self.now ++ Event.Comes hand.now tag.now request.now ∷ [] }
    {
        let with = WithComing {
            events: self,
            hand,
            tag,
            request,
        };
        let (seen, _pens) = Seen::open_row::<WithComing<'_>, OneComing>(&with, Start::alone(), 0);
        Events { seen }
    }

    /// These, and that a work is begun.
    pub fn begins(&self, stamp: u64, work: &Work) -> Events
        ensures { result ≡ self.now ++ Event.Begins stamp work.now ∷ [] }
    {
        let with = WithBegin {
            events: self,
            stamp,
            work,
        };
        let (seen, _pens) = Seen::open_row::<WithBegin<'_>, OneBegin>(&with, Start::alone(), 0);
        Events { seen }
    }

    /// These, and that a hand asks for the first command of a script.
    pub fn asks(&self, stamp: u64, hand: &Name, tag: &Tag, script: &Script) -> Events
        ensures { result ≡ self.now ++ Event.Asks stamp hand.now tag.now script.now ∷ [] }
    {
        let with = WithAsk {
            events: self,
            stamp,
            hand,
            tag,
            script,
        };
        let (seen, _pens) = Seen::open_row::<WithAsk<'_>, OneAsk>(&with, Start::alone(), 0);
        Events { seen }
    }

    /// These, and that a hand has a request for all of its work.
    pub fn requests(&self, stamp: u64, hand: &Name, tag: &Tag) -> Events
        ensures { result ≡ self.now ++ Event.Requests stamp hand.now tag.now ∷ [] }
    {
        let with = WithRequest {
            events: self,
            stamp,
            hand,
            tag,
        };
        let (seen, _pens) = Seen::open_row::<WithRequest<'_>, OneRequest>(&with, Start::alone(), 0);
        Events { seen }
    }

    /// These, and an answer.
    pub fn says(&self, stamp: Option<u64>, answer: &Answer, is_told: bool) -> Events
        ensures { result ≡ self.now ++ Event.Says stamp answer.now is_told ∷ [] }
    {
        let with = WithAnswer {
            events: self,
            stamp,
            answer,
            is_told,
        };
        let (seen, _pens) = Seen::open_row::<WithAnswer<'_>, OneAnswer>(&with, Start::alone(), 0);
        Events { seen }
    }

    /// These, and that a watcher is not told of a change.
    pub fn misses(&self, hand: &Name, changed: &Arc<Changed>) -> Events
        ensures { result ≡ self.now
            ++ Event.Says None (record { hand = hand.now; tag = None; what = told.Changed changed.now }) false ∷ [] }
    {
        let with = WithMissed {
            events: self,
            hand,
            changed,
        };
        let (seen, _pens) = Seen::open_row::<WithMissed<'_>, OneMissed>(&with, Start::alone(), 0);
        Events { seen }
    }
}
