//! The workers of a run.
use crate::batch::{Batch, Next, Task};
use crate::dispatcher::Dispatcher;
use crate::gate::Gate;
use crate::shared::Shared;
use std::sync::Wait;

/// A worker, with its number.
#[derive_where(Clone, Copy)]
pub struct Worker<'a, R: Wait, D: Dispatcher, G: Gate> {
    rt: &'a R,
    shared: &'a Shared<D>,
    gate: &'a G,
    number: usize,
}

impl<'a, R: Wait, D: Dispatcher, G: Gate> Worker<'a, R, D, G> {
    /// The worker with this number.
    pub fn new(
        rt: &'a R,
        shared: &'a Shared<D>,
        gate: &'a G,
        number: usize,
    ) -> Worker<'a, R, D, G> {
        Worker {
            rt,
            shared,
            gate,
            number,
        }
    }

    /// Takes the first script, before other workers come, and begins it, if no gate may hold its
    /// worker.
    pub fn begin(&self) -> Option<Task> {
        let begins = self.gate.is_open();
        let mut dispatcher = self.shared.lock(self.rt);
        let mut task = Task::take(&mut *dispatcher)?;
        if begins {
            task.turn(&mut *dispatcher);
        }
        Some(task)
    }

    /// Runs scripts to their ends, one after the other, until all were handed out.
    pub fn work(&self) {
        let first = Task::take(&mut *self.shared.lock(self.rt));
        self.work_from(first);
    }

    /// The same, beginning with this task.
    pub fn work_from(&self, first: Option<Task>) {
        let mut next = first;
        for _ in self.rt.forever() {
            let Some(task) = next else {
                return;
            };
            self.gate.pass(task.script, task.replies);
            next = self.turns_at_once(task);
        }
    }

    /// Makes turns under one lock: one, or many if no gate may hold the worker between them. Sleeps
    /// after them if need be, and returns the worker's next task.
    fn turns_at_once(&self, task: Task) -> Option<Task> {
        let many = self.gate.is_open();
        let mut dispatcher = self.shared.lock(self.rt);
        let wakeups = dispatcher.wakeups();
        let mut batch = Batch::new(&mut *dispatcher, task);
        let next = if many {
            batch.make_many(self.rt)
        } else {
            batch.make_one(self.rt)
        };
        if dispatcher.wakeups() != wakeups {
            self.shared.wake(dispatcher.sleeper_with_oldest());
        }
        match next {
            Next::GoOn(task) => task,
            Next::SleepUntilWakeup(task) => {
                self.shared.sleep_until_wakeup(self.rt, dispatcher);
                Some(task)
            }
            Next::SleepUntilOldest(task) => {
                let slept_with = task.script;
                let script = self
                    .shared
                    .sleep_until_oldest(self.rt, dispatcher, self.number, slept_with);
                Some(script.map_or(task, Task::of))
            }
        }
    }
}
