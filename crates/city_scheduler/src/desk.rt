//! The desk.
ghost use Rattle.std.specs.Prelude.{◌≡◌, ◌<◌, ◌+◌, ◌↔◌, ◌==◌, ℕ, [], length, true, false, None, Some, option_map};
ghost use Rattle.std.specs.Prelude.{IfSome, IsOk, IfOk, IfErr, OnOk, OnErr, if◌then◌else◌, nat_lt};
ghost use Rattle.city_model.specs.CityMap.{object_at};
ghost use Rattle.city_model.specs.Relations.{IsLawful};
ghost use Rattle.city_model.specs.Runs.{model_after, has_end};
ghost use Rattle.city_scheduler.specs.declared.progress.Phase.{Phase};
ghost use Rattle.city_scheduler.specs.DeskState.{phase_of};
ghost use Rattle.city_scheduler.specs.Opening.{opened};
ghost use Rattle.city_scheduler.specs.Serial.{IsSerial};
ghost use Rattle.city_txn.specs.CoreState.{is_open};
ghost use Rattle.city_scheduler.specs.internal.Closing.{KeepsCity, AreOpenFrom};
ghost use Rattle.city_scheduler.specs.internal.Room.{names_of};
ghost use Rattle.city_scheduler.specs.Turning.{IsTurn, GainsCommits, IsWaiting, stamp_for, begun_after};

use crate::attempt::{CommandOutcome, step};
use crate::ghosts::opening_city::OpeningCity;
use crate::progress::{Phase, Progress, unbegun_each, unopened, youngest};
use crate::shelf::Shelf;
use crate::turn::Turn;
use city_members::copied::Copied;
use city_members::sequence::Sequence;
use city_members::text::Text;
use city_model::OutOfMemory;
use city_model::city::City;
use city_model::end::{End, Outcome};
use city_model::script::Script;
use city_txn::Core;
use std::alloc::Global;
use std::marker::Model;
use std::sync::Wait;

/// Runs scripts in turns on one core, and keeps their ends.
///
/// Contracts see the opening city, the scripts, the ends, the progress of each script, the core,
/// and the shelf.
#[derive(Drop)]
pub struct Desk<S: Shelf> {
    alloc: Global,
    /// The opening city.
    start: OpeningCity,
    scripts: Vec<Script>,
    /// A copy of each script's name, until its end takes it.
    names: Vec<Text>,
    /// The ends, with room for all.
    ends: Vec<End>,
    progress: Vec<Progress>,
    /// The number of scripts handed out.
    taken: usize,
    /// The number of scripts begun.
    begun: u64,
    core: Core,
    shelf: S,
}

/// The final city, the ends and the shelf of a desk.
#[derive(Drop)]
pub struct Finished<S: Shelf> {
    pub city: City,
    pub ends: Sequence<End>,
    pub shelf: S,
}

impl<S: Shelf> Model for Desk<S> {
    ghost use Rattle.city_scheduler.specs.DeskState.{DeskState};

    ghost Value = { DeskState × S };

    ghost use Rattle.std.specs.Coded.{codes};
    ghost use Rattle.city_members.specs.internal.DataCode.{coded_members};
    ghost use Rattle.city_txn.specs.internal.Codes.{coded_objects};

    ghost coded = { Prim.hlevel (codes, coded_members, coded_objects) };

    ghost use Rattle.std.specs.Prelude.{vec_capacity};
    ghost use Rattle.city_scheduler.specs.Serial.{IsSerial};
    ghost use Rattle.city_scheduler.specs.internal.Room.{HasRoom};

    ghost view = { λ d. (record { start = d.start; scripts = d.scripts.items; ends = d.ends.items; taken = d.taken; begun = d.begun; progress = d.progress.items; core = d.core }, d.shelf) };

    ghost invariant = { λ d.
        IsSerial (record { start = d.start; scripts = d.scripts.items; ends = d.ends.items; taken = d.taken; begun = d.begun; progress = d.progress.items; core = d.core }) (S.list d.shelf) (S.base d.shelf)
        × HasRoom (record { start = d.start; scripts = d.scripts.items; ends = d.ends.items; taken = d.taken; begun = d.begun; progress = d.progress.items; core = d.core }) d.names.items (vec_capacity d.ends) };
}

impl<S: Shelf> Desk<S> {
    /// Opens a desk over a lawful city, with no script begun, and makes room for all ends.
    pub fn open(
        alloc: Global,
        city: City,
        scripts: Sequence<Script>,
        shelf: S,
    ) -> Result<Desk<S>, OutOfMemory>
        requires lawful { IsLawful (object_at city.1) }
        requires empty { S.list shelf ≡ [] }
        requires based { IfSome (S.base shelf) (λ base. base ≡ city) }
        ensures desk { IfOk result (λ desk. desk.0 ≡ opened city scripts) }
        ensures shelf { IfOk result (λ desk. desk.1 ≡ shelf) }
    {
        let scripts = scripts.into_vec();
        let names = names_of(alloc, scripts.as_slice())?;
        let progress = unbegun_each(alloc, scripts.as_slice())?;
        let ends = Vec::with_capacity(alloc, scripts.len())?;
        Ok(Desk {
            alloc,
            start: OpeningCity::of(&city),
            scripts,
            names,
            ends,
            progress,
            taken: 0,
            begun: 0,
            core: Core::open(alloc, city),
            shelf,
        })
    }

    /// The number of scripts. Doesn't allocate.
    pub fn scripts(&self) -> usize
        ensures { result ≡ length self.now.0.scripts }
    {
        self.scripts.len()
    }

    /// The ends so far: as if the scripts were run one at a time in this order, each once. Doesn't
    /// allocate.
    pub fn ends(&self) -> &[End]
        ensures ends { result.now ≡ self.now.0.ends }
        ensures serial { IsSerial self.now.0 (S.list self.now.1) (S.base self.now.1) }
    {
        self.ends.as_slice()
    }

    /// Hands out the next script to work on: 0, 1, .. each once. Doesn't allocate.
    pub fn take(&mut self) -> Option<usize>
        ensures next { result
            ≡ (if nat_lt self.old.0.taken (length self.old.0.scripts) then Some self.old.0.taken else None) }
        ensures taken { self.new.0 ≡ record self.old.0 {
          taken = if nat_lt self.old.0.taken
              (length self.old.0.scripts) then self.old.0.taken + 1 else self.old.0.taken;
        } }
        ensures shelf { self.new.1 ≡ self.old.1 }
    {
        if self.taken < self.scripts.len() {
            self.taken += 1;
            Some(self.taken - 1)
        } else {
            None
        }
    }

    /// A script whose next turn doesn't wait; `None` exactly when all have ended. Doesn't allocate.
    ///
    /// If every unended script has an open transaction, returns the youngest's: a transaction waits
    /// only for younger ones.
    pub fn ready(&self) -> Option<usize>
        ensures some { IfSome result (λ n. (n < length self.now.0.scripts) × (has_end n self.now.0.ends ≡ false)
            × (IsWaiting self.now.0 n → ⊥)) }
        ensures none { result ≡ None ↔ ((n : ℕ) → n < length self.now.0.scripts → has_end n self.now.0.ends ≡ true) }
    {
        let progress = self.progress.as_slice();
        match unopened(progress) {
            Some(n) => Some(n),
            None => youngest(progress),
        }
    }

    /// Shows the shelf as it is; the desk is otherwise unchanged. If memory runs out, viewers see
    /// the same as before.
    pub fn show<R: Wait>(&mut self, rt: &R) -> Result<S::Note, OutOfMemory>
        ensures desk { self.new.0 ≡ self.old.0 }
        ensures list { S.list self.new.1 ≡ S.list self.old.1 }
        ensures base { S.base self.new.1 ≡ S.base self.old.1 }
        ensures name { S.name self.new.1 ≡ S.name self.old.1 }
        ensures published { OnOk result
            (S.published self.new.1 ≡ option_map (λ seen. S.list self.old.1) (S.published self.old.1)) }
        ensures err { OnErr result (S.published self.new.1 ≡ S.published self.old.1) }
        ensures note { IfOk result (λ note. S.tells self.new.1 note) }
    {
        self.shelf.show(rt)
    }

    /// Takes the next turn of script n: begins it, or runs its next command.
    ///
    /// A refused command ends the script, and so does running out of memory; its transaction is
    /// then rolled back. A script that died keeps its stamp, and its replies are dropped. No other
    /// script's progress changes. The shelf's list stays, and gains the change of a commit.
    pub fn turn(&mut self, n: usize) -> Turn
        requires { n < length self.old.0.scripts }
        ensures turned { IsTurn n result self.old.0 self.new.0 }
        ensures changes { GainsCommits self.old.0.ends self.new.0.ends (S.list self.old.1) (S.list self.new.1) }
        ensures base { S.base self.new.1 ≡ S.base self.old.1 }
        ensures name { S.name self.new.1 ≡ S.name self.old.1 }
        ensures published { S.published self.new.1 ≡ S.published self.old.1 }
    {
        match self.progress[n].phase {
            Phase::NotBegun => self.begin(n, self.begun, self.begun + 1),
            Phase::Idle(stamp) => self.begin(n, stamp, self.begun),
            Phase::Open(stamp, since) => self.go_on(n, stamp, since),
            Phase::Ended => Turn::AlreadyEnded,
        }
    }

    /// Begins script n, or ends it if the core refuses. `begun` is the number of scripts begun by
    /// then.
    fn begin(&mut self, n: usize, stamp: u64, begun: u64) -> Turn
        requires there { n < length self.old.0.scripts }
        requires its { stamp_for self.old.0 (phase_of self.old.0 n) ≡ Some stamp }
        requires begun { begun ≡ begun_after self.old.0.begun (phase_of self.old.0 n) }
        ensures turned { IsTurn n result self.old.0 self.new.0 }
        ensures changes { GainsCommits self.old.0.ends self.new.0.ends (S.list self.old.1) (S.list self.new.1) }
        ensures base { S.base self.new.1 ≡ S.base self.old.1 }
        ensures name { S.name self.new.1 ≡ S.name self.old.1 }
        ensures published { S.published self.new.1 ≡ S.published self.old.1 }
    {
        let since = self.ends.len();
        let progress = &mut self.progress[n];
        let Ok(()) = self.core.begin(stamp) else {
            progress.record_end(
                self.alloc,
                &mut self.ends,
                &mut self.names[n],
                n,
                since,
                Outcome::NoMemory(0),
            );
            return Turn::Ended;
        };
        progress.phase = Phase::Open(stamp, since);
        self.begun = begun;
        Turn::Began
    }

    /// Runs the next command of script n, under its open transaction.
    fn go_on(&mut self, n: usize, stamp: u64, since: usize) -> Turn
        requires there { n < length self.old.0.scripts }
        requires opened { phase_of self.old.0 n ≡ Phase.Open stamp since }
        ensures turned { IsTurn n result self.old.0 self.new.0 }
        ensures changes { GainsCommits self.old.0.ends self.new.0.ends (S.list self.old.1) (S.list self.new.1) }
        ensures base { S.base self.new.1 ≡ S.base self.old.1 }
        ensures name { S.name self.new.1 ≡ S.name self.old.1 }
        ensures published { S.published self.new.1 ≡ S.published self.old.1 }
    {
        let progress = &mut self.progress[n];
        let number = progress.replies.len();
        let command = &self.scripts[n].commands()[number];
        match step(&mut self.core, &mut self.shelf, progress, stamp, command) {
            CommandOutcome::GoesOn(turn) => turn,
            CommandOutcome::Ends(outcome) => {
                progress.record_end(
                    self.alloc,
                    &mut self.ends,
                    &mut self.names[n],
                    n,
                    since,
                    outcome,
                );
                Turn::Ended
            }
        }
    }

    /// Returns the final city, the ends and the shelf, or the unchanged desk if a script hasn't
    /// ended. Doesn't allocate.
    pub fn finish(self) -> Result<Finished<S>, Desk<S>>
        ensures ended { IsOk result ↔ ((n : ℕ) → n < length self.0.scripts → has_end n self.0.ends ≡ true) }
        ensures each_once { IfOk result (λ f. length f.ends ≡ length self.0.scripts) }
        ensures frame { IfOk result (λ f. f.city.0 ≡ self.0.start.0) }
        ensures city { IfOk result
            (λ f. object_at f.city.1 ≡ model_after self.0.scripts (object_at self.0.start.1) self.0.ends) }
        ensures ends { IfOk result (λ f. f.ends ≡ self.0.ends) }
        ensures shelf { IfOk result (λ f. f.shelf ≡ self.1) }
        ensures serial { IsSerial self.0 (S.list self.1) (S.base self.1) }
        ensures back { IfErr result (λ desk. desk ≡ self) }
    {
        if self.ends.len() != self.scripts.len() {
            return Err(self);
        }
        let (city, ends, shelf) = self.close();
        Ok(Finished { city, ends, shelf })
    }

    /// Rolls back every open transaction and returns the city after the ends so far, the ends and
    /// the shelf. Doesn't allocate.
    pub fn close(self) -> (City, Sequence<End>, S)
        ensures frame { result.0.0 ≡ self.0.start.0 }
        ensures city { object_at result.0.1 ≡ model_after self.0.scripts (object_at self.0.start.1) self.0.ends }
        ensures ends { result.1 ≡ self.0.ends }
        ensures shelf { result.2 ≡ self.1 }
        ensures serial { IsSerial self.0 (S.list self.1) (S.base self.1) }
    {
        let Desk {
            alloc: _,
            start: _start,
            scripts: _scripts,
            names: _names,
            ends,
            progress,
            taken: _,
            begun: _,
            mut core,
            shelf,
        } = self;
        roll_back_all(&mut core, progress.as_slice());
        let Ok(city) = core.into_city() else {
            unreachable!()
        };
        (city, Sequence::from_vec(ends), shelf)
    }
}

/// A copy of each script's name.
fn names_of(alloc: Global, scripts: &[Script]) -> Result<Vec<Text>, OutOfMemory>
    ensures { IfOk result (λ names. names.items ≡ names_of scripts.now) }
{
    let mut names = Vec::with_capacity(alloc, scripts.len())?;
    for script in scripts {
        names.push(script.name().copy(alloc)?)?;
    }
    Ok(names)
}

/// Rolls back each open transaction; all of them belong to these scripts.
fn roll_back_all(core: &mut Core, progress: &[Progress])
    requires { AreOpenFrom 0 progress.now core.old }
    ensures keeps { KeepsCity core.old core.new }
    ensures closed { (t : ℕ) → is_open core.new t ≡ false }
{
    for script in progress {
        if let Phase::Open(stamp, _) = script.phase {
            roll_back_if_open(core, stamp);
        }
    }
}

/// Rolls back the transaction of the stamp, if it is open.
fn roll_back_if_open(core: &mut Core, stamp: u64)
    ensures keeps { KeepsCity core.old core.new }
    ensures opened { (t : ℕ) → is_open core.new t ≡ (if stamp == t then false else is_open core.old t) }
{
    // An error means that it wasn't open.
    let _ = core.abort(stamp);
}
