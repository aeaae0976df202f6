//! What the workers of a run share.
use crate::dispatcher::Dispatcher;
use city_model::OutOfMemory;
use std::alloc::Global;
use std::sync::{Condvar, Mutex, MutexGuard, Wait};

/// A dispatcher under the lock of a run, and what its workers sleep on.
#[derive(Drop)]
pub struct Shared<D: Dispatcher> {
    dispatcher: Mutex<D>,
    /// Notified after turns ended or killed a script, once for all turns under one lock.
    wakeup: Condvar,
    /// For each worker, notified when the script that it sleeps with is the oldest.
    oldest: Vec<Condvar>,
}

impl<D: Dispatcher> Shared<D> {
    /// What so many workers share.
    pub fn new(alloc: Global, dispatcher: D, workers: usize) -> Result<Shared<D>, OutOfMemory> {
        let mut oldest = Vec::with_capacity(alloc, workers)?;
        for _ in 0..workers {
            oldest.push(Condvar::new())?;
        }
        Ok(Shared {
            dispatcher: Mutex::new(dispatcher),
            wakeup: Condvar::new(),
            oldest,
        })
    }

    /// The dispatcher, out of the lock.
    pub fn into_dispatcher(self) -> D {
        self.dispatcher.into_inner()
    }

    /// The dispatcher, under the lock.
    pub fn lock<R: Wait>(&self, rt: &R) -> MutexGuard<'_, D> {
        self.dispatcher.lock(rt)
    }

    /// Sleeps until another turn has ended or killed a script.
    pub fn sleep_until_wakeup<R: Wait>(&self, rt: &R, dispatcher: MutexGuard<'_, D>) {
        let seen = dispatcher.wakeups();
        drop(
            self.wakeup
                .wait_while(rt, dispatcher, |now| now.wakeups() == seen),
        );
    }

    /// Sleeps until the script, or one exchanged for it, is the oldest under way. Returns the
    /// oldest.
    pub fn sleep_until_oldest<R: Wait>(
        &self,
        rt: &R,
        dispatcher: MutexGuard<'_, D>,
        worker: usize,
        script: usize,
    ) -> Option<usize> {
        let mut dispatcher = dispatcher;
        dispatcher.sleep(worker, script);
        let mut dispatcher = self
            .oldest(worker)
            .wait_while(rt, dispatcher, |now| !now.may_wake(worker));
        dispatcher.wake(worker)
    }

    /// Wakes the workers that sleep until a wakeup, and this worker.
    pub fn wake(&self, worker: Option<usize>) {
        self.wakeup.notify_all();
        if let Some(worker) = worker {
            self.oldest(worker).notify_all();
        }
    }

    /// What the worker sleeps on until its script is the oldest.
    fn oldest(&self, worker: usize) -> &Condvar {
        self.oldest.get(worker).unwrap_or(&self.wakeup)
    }
}
