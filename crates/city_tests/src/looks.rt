//! Viewers hold no look while they report: commits are shown while each viewer is held there.
use crate::meeting::PATIENT;
use crate::served::{EMPTY, commits, scripts_of_roads, served};
use city_crew::Gate;
use std::alloc::Global;
use std::sync::Wait;
use std::sync::atomic::{AtomicU64, Ordering};
use std::thread;
use std::thread::Threads;

/// Looks of a thread for the others.
const LOOKS: u64 = PATIENT / 4;

/// Holds the first script until each viewer has looked, and each viewer after its first look until a later script
/// begins. The earlier scripts are shown before.
#[derive(Drop)]
struct HoldsViewers {
    viewers: u64,
    later: usize,
    looked: AtomicU64,
    begun: AtomicU64,
    missed: AtomicU64,
}

impl HoldsViewers {
    fn of(viewers: u64, later: usize) -> HoldsViewers {
        HoldsViewers {
            viewers,
            later,
            looked: AtomicU64::new(0),
            begun: AtomicU64::new(0),
            missed: AtomicU64::new(0),
        }
    }

    /// Waits until a number is so large.
    fn wait_for(&self, number: &AtomicU64, least: u64) {
        for _ in 0..LOOKS {
            if number.load(Ordering::SeqCst) >= least {
                return;
            }
            thread::yield_now();
        }
        self.missed.fetch_add(1, Ordering::SeqCst);
    }
}

impl Gate for HoldsViewers {
    fn pass(&self, script: usize, _replies: usize) {
        if script == 0 {
            self.wait_for(&self.looked, self.viewers);
        }
        if script == self.later {
            self.begun.store(1, Ordering::SeqCst);
        }
    }

    fn saw(&self, _viewer: usize, _edits: u64) {
        self.looked.fetch_add(1, Ordering::SeqCst);
        self.wait_for(&self.begun, 1);
    }
}

/// The numbers of commits and of threads that went on alone.
fn run<R: Threads + Wait + Sync>(
    rt: &R,
    alloc: Global,
    workers: usize,
    viewers: usize,
    later: usize,
) -> Option<(usize, u64)> {
    if workers == 0 || workers > 16 || viewers > 4 {
        return None;
    }
    let scripts = scripts_of_roads(alloc, later.checked_add(1)?).ok()?;
    let gate = HoldsViewers::of(viewers as u64, later);
    let (text, _) = served(
        rt,
        alloc,
        &gate,
        (EMPTY, scripts.as_str()),
        workers,
        viewers,
    )?;
    let missed = gate.missed.load(Ordering::SeqCst);
    Some((commits(text.as_str()), missed))
}

#[test]
fn scripts_are_shown_while_viewers_tell_what_they_saw(rt: HostRuntime) {
    for (workers, viewers, later) in [(1, 1, 2), (1, 4, 5), (2, 2, 50)] {
        let came = run(&rt, rt.alloc(), workers, viewers, later);
        assert_eq!(&rt; came, Some((later + 1, 0)), "{viewers}");
    }
}
