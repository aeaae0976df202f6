//! The desk of a run.
ghost use Rattle.std.specs.Prelude.{◌≡◌, ◌≤◌, IfOk, IfErr};
ghost use Rattle.city_model.specs.CityMap.{object_at};
ghost use Rattle.city_model.specs.Relations.{IsLawful};
ghost use Rattle.city_crew.specs.Limits.{max_viewers};
ghost use Rattle.city_crew.specs.internal.CrewResults.{HaveEnded, IsResult};
ghost use Rattle.city_crew.specs.declared.fault.CrewFault.{CrewFault};

use crate::begin_order::BeginOrder;
use crate::crew_shelf::CrewShelf;
use crate::dispatcher::Dispatcher;
use crate::fault::CrewFault;
use crate::ghosts::origin::Origin;
use crate::sleepers::Sleepers;
use city_board::Viewer;
use city_members::sequence::Sequence;
use city_model::OutOfMemory;
use city_model::city::City;
use city_model::end::{End, Outcome};
use city_model::script::Script;
use city_scheduler::{Desk, Finished, Turn};
use std::alloc::Global;
use std::marker::{Model, PhantomData};
use std::sync::Wait;

/// A script with this many commands or more waits until it is the oldest under way. A shorter one
/// runs beside others.
const SHORT: usize = 64;

/// A desk over the run's opening city and scripts, with the ages of the scripts under way and the
/// workers asleep.
///
/// Contracts see the state of the desk.
#[derive(Drop)]
pub struct CrewDesk<R: Wait + Drop, O: Origin> {
    desk: Desk<CrewShelf<R>>,
    /// The number of turns that ended or killed a script.
    wakeups: u64,
    ages: BeginOrder,
    sleepers: Sleepers,
    /// The number of commands of each script.
    lengths: Vec<usize>,
    viewers: usize,
    origin: PhantomData<O>,
}

impl<R: Wait + Drop, O: Origin> Model for CrewDesk<R, O> {
    ghost use Rattle.std.specs.Prelude.{◌≡◌};
    ghost use Rattle.std.specs.Coded.{codes};
    ghost use Rattle.city_members.specs.internal.DataCode.{coded_members};
    ghost use Rattle.city_txn.specs.internal.Codes.{coded_objects};
    ghost use Rattle.city_scheduler.specs.DeskState.{DeskState};

    ghost Value = { DeskState };

    ghost coded = { Prim.hlevel (codes, coded_members, coded_objects) };

    ghost view = { λ d. d.desk.0 };

    ghost invariant = { λ d. (d.desk.0.start ≡ O.city) × (d.desk.0.scripts ≡ O.scripts) };
}

impl<R: Wait + Drop, O: Origin> CrewDesk<R, O> {
    /// Opens a desk with no script begun, for so many workers and viewers. Returns the viewers of
    /// its shelf's board too.
    pub fn open(
        rt: R,
        alloc: Global,
        city: City,
        scripts: Sequence<Script>,
        workers: usize,
        viewers: usize,
    ) -> Result<(CrewDesk<R, O>, Vec<Viewer>), CrewFault>
        requires lawful { IsLawful (object_at city.1) }
        requires city { city ≡ O.city }
        requires scripts { scripts ≡ O.scripts }
        requires viewers { viewers ≤ max_viewers }
    {
        let ages = BeginOrder::new(alloc, workers)?;
        let sleepers = Sleepers::new(alloc, workers)?;
        let lengths = lengths_of(alloc, scripts.as_slice())?;
        let (shelf, seated) = CrewShelf::new(rt, alloc, &city, viewers)?;
        let desk = Desk::open(alloc, city, scripts, shelf)?;
        let desk = CrewDesk {
            desk,
            wakeups: 0,
            ages,
            sleepers,
            lengths,
            viewers,
            origin: PhantomData,
        };
        Ok((desk, seated))
    }

    /// The result of the run: `Unfinished` if a script hasn't ended.
    pub fn finish(self) -> Result<Finished<CrewShelf<R>>, CrewFault>
        ensures ran { IfOk result (λ f. IsResult O.city O.scripts f.city f.ends) }
        ensures fault { IfErr result (λ f. (f ≡ CrewFault.Unfinished) × ¬ HaveEnded self.scripts self.ends) }
    {
        match self.desk.finish() {
            Ok(finished) => Ok(finished),
            Err(_) => Err(CrewFault::Unfinished),
        }
    }
}

impl<R: Wait + Drop, O: Origin> Dispatcher for CrewDesk<R, O> {
    fn take(&mut self) -> Option<usize> {
        self.desk.take()
    }

    fn turn(&mut self, script: usize) -> Turn {
        if script >= self.desk.scripts() {
            return Turn::AlreadyEnded;
        }
        let turn = self.desk.turn(script);
        match turn {
            Turn::Began => self.ages.begin(script),
            Turn::Died => self.wakeups = self.wakeups.wrapping_add(1),
            Turn::Ended => {
                self.ages.end(script);
                self.wakeups = self.wakeups.wrapping_add(1);
            }
            _ => {}
        }
        turn
    }

    fn wakeups(&self) -> u64 {
        self.wakeups
    }

    fn is_oldest(&self, script: usize) -> bool {
        self.ages.is_oldest(script)
    }

    fn is_short(&self, script: usize) -> bool {
        self.lengths
            .get(script)
            .is_none_or(|commands| *commands < SHORT)
    }

    fn sleep(&mut self, worker: usize, script: usize) {
        self.sleepers.set(worker, Some(script));
    }

    fn may_wake(&self, worker: usize) -> bool {
        self.sleepers
            .script(worker)
            .is_none_or(|script| self.ages.is_oldest(script))
    }

    fn wake(&mut self, worker: usize) -> Option<usize> {
        let script = self.sleepers.script(worker);
        self.sleepers.set(worker, None);
        script
    }

    fn sleeper_with_oldest(&self) -> Option<usize> {
        self.sleepers.worker(self.ages.oldest()?)
    }

    fn exchange(&mut self, script: usize) -> Option<usize> {
        let oldest = self.ages.oldest()?;
        let worker = self.sleepers.worker(oldest)?;
        self.sleepers.set(worker, Some(script));
        Some(oldest)
    }

    fn has_viewers(&self) -> bool {
        self.viewers > 0
    }

    fn show_commit<Q: Wait>(&mut self, rt: &Q) {
        if let Some(
            End {
                outcome: Outcome::Committed,
                ..
            },
        ) = self.desk.ends().last()
        {
            drop(self.desk.show(rt));
        }
    }
}

/// The number of commands of each script.
fn lengths_of(alloc: Global, scripts: &[Script]) -> Result<Vec<usize>, OutOfMemory> {
    let mut lengths = Vec::with_capacity(alloc, scripts.len())?;
    for script in scripts {
        lengths.push(script.commands().len())?;
    }
    Ok(lengths)
}
