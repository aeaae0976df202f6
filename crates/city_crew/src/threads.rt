//! The threads of a run.
use crate::dispatcher::Dispatcher;
use crate::fault::CrewFault;
use crate::gate::Gate;
use crate::shared::Shared;
use crate::watcher::Watch;
use crate::worker::Worker;
use std::alloc::Global;
use std::sync::Wait;
use std::sync::atomic::{AtomicBool, Ordering};
use std::thread;
use std::thread::{JoinHandle, Scope, Threads};

/// Runs so many workers to their ends, and the watchers beside them; gives the watchers back.
///
/// Joins all threads, even if one couldn't be made.
pub fn run_threads<R: Threads + Wait + Sync, D: Dispatcher + Send, G: Gate + Sync, W: Watch + Send>(
    rt: &R,
    alloc: Global,
    shared: &Shared<D>,
    gate: &G,
    workers: usize,
    watchers: Vec<W>,
) -> Result<Vec<W>, CrewFault> {
    let over = AtomicBool::new(false);
    let over = &over;
    thread::scope(thread::scope_env(), rt, move |scope| {
        let mut handles = Vec::new(alloc);
        let mut back = Vec::new(alloc);
        let mut made = start_watchers(scope, rt, gate, over, watchers, &mut handles);
        made = made && run_workers(rt, shared, gate, workers);
        over.store(true, Ordering::SeqCst);
        for handle in handles {
            made &= back.push(handle.join(rt)).is_ok();
        }
        if made {
            Ok(back)
        } else {
            Err(CrewFault::OutOfMemory)
        }
    })
}

/// Runs so many workers to their ends, the first of them on this thread. Returns false if a thread
/// for another couldn't be made.
///
/// The first worker begins before the others come: it has read the city, so the data is at hand
/// here.
fn run_workers<R: Threads + Wait + Sync, D: Dispatcher + Send, G: Gate + Sync>(
    rt: &R,
    shared: &Shared<D>,
    gate: &G,
    workers: usize,
) -> bool {
    let first = Worker::new(rt, shared, gate, 0).begin();
    thread::scope(thread::scope_env(), rt, move |scope| {
        let mut made = true;
        for number in 1..workers {
            let started = scope.spawn(move || Worker::new(rt, shared, gate, number).work());
            made &= started.is_ok();
        }
        Worker::new(rt, shared, gate, 0).work_from(first);
        made
    })
}

/// Starts a thread of the scope for each watcher. Returns false if one couldn't be made.
fn start_watchers<'s, E, R: Wait + Sync + 's, G: Gate + Sync + 's, W: Watch + Send + 's>(
    scope: &Scope<'s, E>,
    rt: &'s R,
    gate: &'s G,
    over: &'s AtomicBool,
    watchers: Vec<W>,
    handles: &mut Vec<JoinHandle<W>>,
) -> bool {
    let mut made = true;
    for watcher in watchers {
        match scope.spawn(move || watcher.watch(rt, gate, over)) {
            Ok(handle) => made &= handles.push(handle).is_ok(),
            Err(_) => made = false,
        }
    }
    made
}
