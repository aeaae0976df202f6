//! The turns of a worker under one lock.
use crate::dispatcher::Dispatcher;
use city_scheduler::Turn;
use std::sync::Wait;

/// The most turns of a script under one lock, if no gate may hold its worker between them.
const TURNS_AT_ONCE: usize = 256;

/// The turns under one lock after which its worker takes no other script, if no script is under
/// way.
const TURNS_ALONE: usize = 16_384;

/// A script taken by a worker.
#[derive(Clone, Copy)]
pub struct Task {
    pub script: usize,
    /// The number of its replies in this attempt.
    pub replies: usize,
}

impl Task {
    /// A script without replies.
    pub fn of(script: usize) -> Task {
        Task { script, replies: 0 }
    }

    /// The next script to work on.
    pub fn take<D: Dispatcher>(dispatcher: &mut D) -> Option<Task> {
        Some(Task::of(dispatcher.take()?))
    }

    /// Makes one turn of the script, and counts the replies of the attempt.
    pub fn turn<D: Dispatcher>(&mut self, dispatcher: &mut D) -> Turn {
        let turn = dispatcher.turn(self.script);
        match turn {
            Turn::Began | Turn::Died => self.replies = 0,
            Turn::Replied => self.replies = self.replies.wrapping_add(1),
            _ => {}
        }
        turn
    }
}

/// What a worker does after its turns under one lock.
#[derive(Clone, Copy)]
pub enum Next {
    /// Goes on with a task; `None` if all scripts were handed out.
    GoOn(Option<Task>),
    /// Sleeps until another turn has ended or killed a script.
    SleepUntilWakeup(Task),
    /// Sleeps until its script is the oldest under way. Till then the script holds no lock. No turn
    /// kills the oldest, so a script dies at most once.
    SleepUntilOldest(Task),
}

/// Turns under one lock.
#[derive(Drop)]
pub struct Batch<'d, D: Dispatcher> {
    dispatcher: &'d mut D,
    task: Task,
    /// The number of turns made.
    made: usize,
}

impl<'d, D: Dispatcher> Batch<'d, D> {
    /// A batch that begins with this task.
    pub fn new(dispatcher: &'d mut D, task: Task) -> Batch<'d, D> {
        Batch {
            dispatcher,
            task,
            made: 0,
        }
    }

    /// Makes one turn.
    pub fn make_one<R: Wait>(&mut self, rt: &R) -> Next {
        match self.turn() {
            Turn::Ended | Turn::AlreadyEnded => Next::GoOn(self.end(rt)),
            Turn::Began | Turn::Replied => Next::GoOn(Some(self.task)),
            Turn::Waits => Next::SleepUntilWakeup(self.task),
            Turn::Died => Next::SleepUntilOldest(self.task),
        }
    }

    /// Makes many turns of a script, and of its successors if it ends soon. A long successor is
    /// exchanged for the oldest script, if a worker sleeps with that: the oldest's data is at hand
    /// here, and not where its worker sleeps.
    pub fn make_many<R: Wait>(&mut self, rt: &R) -> Next {
        for _ in rt.forever() {
            let next = match self.go_on() {
                Turn::Ended | Turn::AlreadyEnded => self.end(rt),
                Turn::Began => match self.dispatcher.exchange(self.task.script) {
                    Some(oldest) => Some(Task::of(oldest)),
                    None => return Next::SleepUntilOldest(self.task),
                },
                Turn::Replied => return Next::GoOn(Some(self.task)),
                Turn::Waits => return Next::SleepUntilWakeup(self.task),
                Turn::Died => return Next::SleepUntilOldest(self.task),
            };
            match next {
                Some(another) if self.made < self.most_before(another) => self.task = another,
                _ => return Next::GoOn(next),
            }
        }
        unreachable!()
    }

    /// Makes turns of the script until one ends it, kills it or waits, or begins it if it is to
    /// sleep until it is the oldest; at most `TURNS_AT_ONCE`. Returns the last turn.
    fn go_on(&mut self) -> Turn {
        for _ in 1..TURNS_AT_ONCE {
            let turn = self.turn();
            let goes_on = match turn {
                Turn::Replied => true,
                Turn::Began => self.runs_beside_others(),
                _ => false,
            };
            if !goes_on {
                return turn;
            }
        }
        self.turn()
    }

    /// Whether the script, once begun, needn't sleep until it is the oldest.
    fn runs_beside_others(&self) -> bool {
        self.dispatcher.is_oldest(self.task.script) || self.dispatcher.is_short(self.task.script)
    }

    /// The turns after which the worker doesn't take another task: none before viewers, so they
    /// may look between two.
    fn most_before(&self, another: Task) -> usize {
        if self.dispatcher.has_viewers() {
            0
        } else if self.dispatcher.is_oldest(another.script) {
            TURNS_ALONE
        } else {
            TURNS_AT_ONCE
        }
    }

    /// Makes and counts one turn of the script.
    fn turn(&mut self) -> Turn {
        self.made = self.made.wrapping_add(1);
        self.task.turn(&mut *self.dispatcher)
    }

    /// Shows the commit of an ended script, and takes the next script.
    fn end<R: Wait>(&mut self, rt: &R) -> Option<Task> {
        self.dispatcher.show_commit(rt);
        Task::take(&mut *self.dispatcher)
    }
}
