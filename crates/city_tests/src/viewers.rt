//! Viewers look on while scripts run: each sees each commit before the next script begins.
use crate::meeting::PATIENT;
use crate::served::{EMPTY, TWO, commits, scripts_of_roads, served};
use city_crew::Gate;
use std::alloc::Global;
use std::fmt::{self, Display, Formatter, Write};
use std::sync::Wait;
use std::sync::atomic::{AtomicU64, Ordering};
use std::thread;
use std::thread::Threads;

/// Holds script n before its start until each viewer has seen n changes.
#[derive(Drop)]
struct EachSeesEach {
    viewers: usize,
    open: bool,
    /// For each viewer one more than the number of changes it saw last; 0 before its first look.
    seen: [AtomicU64; 4],
    missed: AtomicU64,
}

impl EachSeesEach {
    fn of(viewers: usize, open: bool) -> EachSeesEach {
        EachSeesEach {
            viewers,
            open,
            seen: [
                AtomicU64::new(0),
                AtomicU64::new(0),
                AtomicU64::new(0),
                AtomicU64::new(0),
            ],
            missed: AtomicU64::new(0),
        }
    }

    /// Whether each viewer has seen so many changes.
    fn is_seen(&self, edits: u64) -> bool {
        self.seen
            .iter()
            .take(self.viewers)
            .all(|seen| seen.load(Ordering::SeqCst) > edits)
    }
}

impl Gate for EachSeesEach {
    fn pass(&self, script: usize, replies: usize) {
        if replies > 0 {
            return;
        }
        for _ in 0..PATIENT {
            if self.is_seen(script as u64) {
                return;
            }
            thread::yield_now();
        }
        self.missed.fetch_add(1, Ordering::SeqCst);
    }

    fn saw(&self, viewer: usize, edits: u64) {
        if let Some(seen) = self.seen.get(viewer) {
            seen.store(edits.wrapping_add(1), Ordering::SeqCst);
        }
    }

    fn is_open(&self) -> bool {
        self.open
    }
}

/// The numbers from 0 to the last, as `[0, 1]`.
#[derive(Clone, Copy)]
struct Numbers(usize);

impl Display for Numbers {
    fn fmt<W: Write>(&self, f: &mut Formatter<W>) -> fmt::Result {
        f.write_str("[0")?;
        for number in 1..=self.0 {
            write!(f, ", {number}")?;
        }
        f.write_str("]")
    }
}

/// So many times the same numbers, as `[[0, 1], [0, 1]]`.
#[derive(Clone, Copy)]
struct Each(usize, Numbers);

impl Display for Each {
    fn fmt<W: Write>(&self, f: &mut Formatter<W>) -> fmt::Result {
        let Each(viewers, numbers) = *self;
        for viewer in 0..viewers {
            f.write_str(if viewer == 0 { "[" } else { ", " })?;
            write!(f, "{numbers}")?;
        }
        f.write_str("]")
    }
}

/// The wanted numbers, commits and misses: each viewer sees each number from 0 to the last, all scripts commit, and
/// none is held in vain.
fn each_number(alloc: Global, viewers: usize, last: usize) -> Option<String> {
    let all = Each(viewers, Numbers(last));
    format!(in alloc; "{all} {last} 0").ok()
}

/// The numbers seen by the viewers, and the numbers of commits and of scripts held in vain.
fn seen_of<R: Threads + Wait + Sync>(
    rt: &R,
    alloc: Global,
    gate: &EachSeesEach,
    scripts: &str,
    workers: usize,
) -> Option<String> {
    if workers == 0 || workers > 16 || gate.viewers > 4 {
        return None;
    }
    let (text, seen) = served(rt, alloc, gate, (EMPTY, scripts), workers, gate.viewers)?;
    let (committed, missed) = (commits(text.as_str()), gate.missed.load(Ordering::SeqCst));
    format!(in alloc; "{seen} {committed} {missed}").ok()
}

/// Workers, viewers and scripts, and whether the gate is open.
type Case = (usize, usize, usize, bool);

const CASES: &[Case] = &[
    (1, 1, 3, false),
    (1, 4, 3, false),
    (1, 4, 3, true),
    (2, 2, 5, false),
    (3, 3, 40, true),
    (16, 4, 70, false),
    (1, 2, 600, false),
];

/// The numbers seen in a case.
fn seen_in<R: Threads + Wait + Sync>(rt: &R, alloc: Global, case: &Case) -> Option<String> {
    let (workers, viewers, scripts, open) = *case;
    let texts = scripts_of_roads(alloc, scripts).ok()?;
    let gate = EachSeesEach::of(viewers, open);
    seen_of(rt, alloc, &gate, texts.as_str(), workers)
}

#[test]
fn each_viewer_sees_each_commit_before_the_next_script_begins(rt: HostRuntime) {
    for case in CASES {
        let seen = seen_in(&rt, rt.alloc(), case);
        assert_eq!(&rt; seen, each_number(rt.alloc(), case.1, case.2), "{case:?}");
    }
}

#[test]
fn a_viewer_sees_a_change_while_scripts_run(rt: HostRuntime) {
    let gate = EachSeesEach::of(1, false);
    let seen = seen_of(&rt, rt.alloc(), &gate, TWO, 1);
    assert_eq!(&rt; seen, each_number(rt.alloc(), 1, 2));
}
