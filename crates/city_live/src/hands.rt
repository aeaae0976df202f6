//! The hands of one city.
ghost use Rattle.std.specs.Prelude.{◌≡◌, ◌++◌, [], Some, true, false, IfOk, OnOk, OnErr};
ghost use Rattle.std.specs.Arc.{arc_value};
ghost use Rattle.std.specs.Borrow.{Lends, sem};
ghost use Rattle.city_model.specs.CityMap.{object_at};
ghost use Rattle.city_model.specs.Relations.{IsLawful};
ghost use Rattle.city_txn.specs.CoreState.{committed};
ghost use Rattle.city_live.specs.declared.request.Request.TheVariants as requests;
ghost use Rattle.city_live.specs.contracts.hands.Hands.{the_row};
ghost use Rattle.city_live.specs.Coming.{end_asked};
ghost use Rattle.city_live.specs.Serving.{Proceeds, IsHandled, IsServed};
ghost use Rattle.city_live.specs.Serving.{HasCome, HasAsked, IsLeaving, AreHandled};

use crate::answer::{Answer, Fault, Name};
use crate::hand::{At, Hand};
use crate::journal::Journal;
use crate::request::{Request, Tag};
use crate::roster::Roster;
use crate::talks::Talks;
use crate::task::Task;
use crate::waiting::Waiting;
use city_members::copied::Copied;
use city_members::text::Text;
use city_model::OutOfMemory;
use city_model::city::City;
use city_model::command::Command;
use city_model::id_list::is_same_id;
use city_model::script::Script;
use std::alloc::Global;
use std::collections::BTreeSet;
use std::marker::Model;
use std::sync::Arc;

mod begins;
mod endings;
mod looks;
mod steps;
mod wakes;

/// The most answers of a step, but for the watchers'.
const STEP_ANSWERS: usize = 4;

/// The hand that a request comes from: its name, shared with the roster if that knows it, and its seat there.
#[derive(Drop)]
struct Sender {
    name: Name,
    seat: Option<usize>,
}

/// One city, and hands on it.
///
/// Each request is one event: it is answered, or waits and is answered later, and the works waiting for its locks are
/// tried again. There is no clock and no thread. Contracts see the session, all events so far, and no answers.
#[derive(Drop)]
pub struct Hands<J: Journal> {
    alloc: Global,
    talks: Talks<J>,
    roster: Roster,
    waiting: Waiting,
    /// The stamps due to be tried again.
    due: BTreeSet<u64>,
    /// Memory ran out before one could be noted as due: all waiting works are tried again.
    all_due: bool,
}

impl<J: Journal> Model for Hands<J> {
    ghost use Rattle.city_live.specs.Serving.{Served};

    ghost Value = { Served };

    ghost use Rattle.std.specs.Coded.{codes};
    ghost use Rattle.city_members.specs.internal.DataCode.{coded_members};
    ghost use Rattle.city_txn.specs.internal.Codes.{coded_objects};

    ghost coded = { Prim.hlevel (codes, coded_members, coded_objects) };

    ghost view = { λ h. h.talks };
}

impl<J: Journal> Hands<J> {
    /// No hands yet, on this city, at this version, with this journal. Doesn't allocate.
    pub fn new(alloc: Global, city: City, version: u64, journal: J) -> Hands<J>
        requires { IsLawful (object_at city.1) }
        ensures start { result.session.start ≡ city }
        ensures closed { result.session.closed ≡ [] }
        ensures city { committed result.session.core ≡ object_at city.1 }
        ensures events { result.events ≡ [] }
        ensures answers { result.answers ≡ [] }
        ensures noted { result.noted ≡ J.noted journal }
        ensures first { result.first ≡ version }
        ensures version { result.version ≡ version }
        ensures watchers { result.watchers ≡ [] }
    {
        Hands {
            alloc,
            talks: Talks::open(alloc, city, version, journal),
            roster: Roster::new(alloc),
            waiting: Waiting::new(alloc),
            due: BTreeSet::new(alloc),
            all_due: false,
        }
    }

    /// Whatever the hands have asked for, in any order: what has ended is a serial history, what each hand was told of
    /// it is what it would have been told there, and what it was told of what is open is what that was told. Each
    /// watcher was told of each change once, before the hand that made it was told of its commit, and all versions that
    /// were told are right.
    pub fn are_served(&self)
        ensures { IsServed self.now }
    {
        self.talks.are_served();
    }

    /// The number of commits with writes. Doesn't allocate.
    pub fn version(&self) -> u64
        ensures { result ≡ self.now.version }
    {
        self.talks.version()
    }

    /// The journal. Doesn't allocate.
    pub fn journal(&self) -> &J
        ensures { J.noted result.now ≡ self.now.noted }
    {
        self.talks.journal()
    }

    /// The journal, to be written or saved. Nothing else changes by it. Doesn't allocate.
    pub fn journal_mut(&mut self) -> &mut J
        ensures value { J.noted result.now ≡ self.old.noted }
        ensures* writes_back { sem 𝓛 (Lends (the_row J.row J.Journal) J.row self.entry result
            (λ w. record self.old { noted = J.noted w })) }
    {
        self.talks.journal_mut()
    }

    /// Does a request of a hand, and goes on with all works it was in the way of. The answers stand in their order.
    ///
    /// If memory runs out before anything is done, nothing changes. If it runs out later, the hand is told so.
    #[tactic(auto, using(crate::proofs::Handled::handled, crate::proofs::Handled::arrived_asked))]
    pub fn handle(
        &mut self,
        hand: Text,
        tag: Tag,
        request: Request,
    ) -> Result<Vec<Answer>, OutOfMemory>
        ensures ok { IfOk result (λ answers. IsHandled hand tag request answers.items self.old self.new) }
        ensures err { OnErr result (self.new ≡ self.old) }
    {
        self.talks.reserve(STEP_ANSWERS)?;
        let sender = self.sender(hand)?;
        self.talks.come(&sender.name, &tag, &request);
        self.serve(&sender, tag, request);
        Ok(self.talks.take_answers())
    }

    /// Handles requests, one after another, and gives all answers out in their order. What has ended by then is a
    /// serial history, what each hand was told of it is what it would have been told there, and each change that was
    /// told leads from the model before its commit to the model after it.
    ///
    /// If memory runs out, the first of them are done, and their answers are lost.
    pub fn handle_each(
        &mut self,
        requests: Vec<(Text, Tag, Request)>,
    ) -> Result<Vec<Answer>, OutOfMemory>
        ensures handled { IfOk result (λ answers. AreHandled requests.items answers.items self.old self.new) }
        ensures served { IsServed self.new }
    {
        let answers = self.handle_all(requests);
        self.are_served();
        answers
    }

    /// Handles requests, one after another.
    fn handle_all(
        &mut self,
        requests: Vec<(Text, Tag, Request)>,
    ) -> Result<Vec<Answer>, OutOfMemory>
        ensures { IfOk result (λ answers. AreHandled requests.items answers.items self.old self.new) }
    {
        let mut all = self.talks.take_answers();
        for (hand, tag, request) in requests {
            let answers = self.handle(hand, tag, request)?;
            add_all(&mut all, answers)?;
        }
        Ok(all)
    }

    /// Does a request of a hand, and goes on with all works it was in the way of.
    #[tactic(auto, using(crate::proofs::Followed::serving))]
    fn serve(&mut self, sender: &Sender, tag: Tag, request: Request)
        requires { HasAsked (arc_value sender.now.name) tag request self.old }
        ensures { Proceeds self.old self.new }
    {
        self.wake();
        self.answer(sender, tag, request);
        self.wake();
    }

    /// The sender of this name.
    fn sender(&self, hand: Text) -> Result<Sender, OutOfMemory>
        ensures { IfOk result (λ sender. arc_value sender.name ≡ hand) }
    {
        let seat = self.roster.find(&hand);
        let name = self.name_at(seat, hand)?;
        Ok(Sender { name, seat })
    }

    /// The name of a hand, shared with the known one at a seat.
    #[tactic(auto, using(city_members::proofs::Ids::same_id_true))]
    fn name_at(&self, seat: Option<usize>, hand: Text) -> Result<Name, OutOfMemory>
        ensures { IfOk result (λ name. arc_value name ≡ hand) }
    {
        if let Some(known) = self.hand_at(seat) {
            if is_same_id(&known.name, &hand) {
                let name = Arc::try_clone(&known.name)?;
                return Ok(name);
            }
        }
        let name = Arc::new(self.alloc, hand)?;
        Ok(name)
    }

    /// The hand at a seat, if there is one. Doesn't allocate.
    fn hand_at(&self, seat: Option<usize>) -> Option<&Hand> {
        self.roster.get(seat?)
    }

    fn refuse(&mut self, sender: &Sender, tag: Tag, fault: Fault)
        requires { HasCome (arc_value sender.now.name) tag self.old }
        ensures { Proceeds self.old self.new }
    {
        self.talks.refuse(&sender.name, tag, fault);
    }

    /// Does a request of a hand.
    #[tactic(auto, using(crate::proofs::Followed::asks_end))]
    fn answer(&mut self, sender: &Sender, tag: Tag, request: Request)
        requires { HasAsked (arc_value sender.now.name) tag request self.old }
        ensures { Proceeds self.old self.new }
    {
        match request {
            Request::Script(script) => self.begin_script(sender, tag, script),
            Request::Begin(name) => self.begin(sender, tag, name, Task::Single(None)),
            Request::Do(script) => match asked_end(&script) {
                Some(true) => self.commit_by(sender, tag),
                Some(false) => self.abort_by(sender, tag),
                None => self.act_by(sender, tag, script),
            },
            Request::Commit => self.commit_by(sender, tag),
            Request::Abort => self.abort_by(sender, tag),
            Request::Watch => self.watch(sender, tag),
            Request::Unwatch => self.unwatch(sender, tag),
            Request::Look(ids) => self.look(sender, tag, ids),
            Request::Model => self.show_model(sender, tag),
            Request::Bye => self.bye(sender, tag),
        }
    }

    /// The stamp of the hand's script or transaction, if it has one. Doesn't allocate.
    fn stamp_of(&self, sender: &Sender) -> Option<u64> {
        self.hand_at(sender.seat)?.stamp()
    }

    /// Whether a request of this stamp waits. Doesn't allocate.
    fn is_busy(&self, stamp: u64) -> bool {
        match self.talks.work(stamp) {
            Some(work) => work.waits(),
            None => false,
        }
    }

    /// Whether the stamp's transaction is open in the session. Doesn't allocate.
    fn is_open(&self, stamp: u64) -> bool {
        self.talks.session().is_open(stamp)
    }

    /// The seat of the hand, which gets one if it has none.
    fn seat_of(&mut self, sender: &Sender) -> Result<usize, Fault>
        ensures { self.new ≡ self.old }
    {
        match sender.seat {
            Some(seat) => Ok(seat),
            None => self.roster.add(&sender.name),
        }
    }

    /// Aborts the hand's work, and forgets the hand.
    #[tactic(auto, using(crate::proofs::Followed::asked_leaving))]
    fn bye(&mut self, sender: &Sender, tag: Tag)
        requires { HasAsked (arc_value sender.now.name) tag requests.Bye self.old }
        ensures { Proceeds self.old self.new }
    {
        match self.stamp_of(sender) {
            Some(stamp) => self.bye_open(sender, tag, stamp),
            None => self.forget(sender, tag),
        }
    }

    /// Aborts a work of the hand, and forgets the hand.
    #[tactic(auto, using(crate::proofs::Followed::leaving))]
    fn bye_open(&mut self, sender: &Sender, tag: Tag, stamp: u64)
        requires { HasAsked (arc_value sender.now.name) tag requests.Bye self.old }
        ensures { Proceeds self.old self.new }
    {
        let Ok(again) = tag.copy(self.alloc) else {
            return self.refuse(sender, tag, Fault::NoMemory);
        };
        if self.give_up(sender, again, stamp).is_err() {
            return self.refuse(sender, tag, Fault::NoMemory);
        }
        self.forget(sender, tag);
    }

    /// Forgets a hand without a work.
    #[tactic(auto, using(crate::proofs::Followed::still_leaving))]
    fn forget(&mut self, sender: &Sender, tag: Tag)
        requires { IsLeaving (arc_value sender.now.name) tag self.old }
        ensures { Proceeds self.old self.new }
    {
        if let Some(seat) = sender.seat {
            self.roster.put_watch(seat, false);
            let _before = self.roster.put_at(seat, At::Idle);
        }
        self.talks.say_bye(&sender.name, tag);
    }
}

/// Whether the first command of a script commits, or aborts. Doesn't allocate.
fn asked_end(script: &Script) -> Option<bool>
    ensures { result ≡ end_asked (requests.Do script.now) }
{
    match script.commands().first() {
        Some(Command::Commit) => Some(true),
        Some(Command::Abort) => Some(false),
        _ => None,
    }
}

/// Adds answers behind others.
fn add_all(all: &mut Vec<Answer>, mut more: Vec<Answer>) -> Result<(), OutOfMemory>
    ensures { OnOk result (all.new.items ≡ all.old.items ++ more.items) }
{
    all.append(&mut more)?;
    Ok(())
}
