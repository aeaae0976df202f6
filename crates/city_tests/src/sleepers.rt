//! Sleeping workers are woken by each end and by each death, and pass no gate before. Each run has a time limit.
use crate::meeting::PATIENT;
use crate::script_texts::{one_and_others, three_scripts, two_scripts};
use crate::served::{commits, served};
use city_crew::Gate;
use city_model::OutOfMemory;
use std::alloc::Global;
use std::process::Abort;
use std::sync::Wait;
use std::sync::atomic::{AtomicBool, AtomicU64, Ordering};
use std::thread;
use std::thread::{Threads, join};
use std::time::{Clock, Duration};

/// Yields of a thread until another falls asleep.
const HOLD: u64 = 20_000;

/// A script and its pass, from 1, held until another script's pass has come and for so many times `HOLD` more. In
/// order: the script, its pass, the other script, the other's pass, the holds.
type Step = (usize, u64, usize, u64, u64);

/// Any number of replies.
const ANY: usize = usize::MAX;

/// Lets scripts pass in the order of its steps. Counts wrong passes: passes that waited in vain, and, if the replies of
/// a script's passes are given, passes with other replies or after the last.
#[derive(Drop)]
struct InSteps<'a> {
    steps: &'a [Step],
    open: bool,
    replies: &'a [&'a [usize]],
    passes: [AtomicU64; 6],
    wrong: AtomicU64,
}

impl<'a> InSteps<'a> {
    fn of(steps: &'a [Step], open: bool, replies: &'a [&'a [usize]]) -> InSteps<'a> {
        InSteps {
            steps,
            open,
            replies,
            passes: [
                AtomicU64::new(0),
                AtomicU64::new(0),
                AtomicU64::new(0),
                AtomicU64::new(0),
                AtomicU64::new(0),
                AtomicU64::new(0),
            ],
            wrong: AtomicU64::new(0),
        }
    }

    /// Notes a pass of a script with so many replies.
    fn note(&self, script: usize, pass: u64, replies: usize) {
        if let Some(wanted) = self.replies.get(script) {
            let right = match wanted.get(pass.wrapping_sub(1) as usize) {
                Some(number) => *number == ANY || *number == replies,
                None => false,
            };
            if !right {
                self.wrong.fetch_add(1, Ordering::SeqCst);
            }
        }
    }

    /// The number of a script's passes so far.
    fn passes(&self, script: usize) -> u64 {
        match self.passes.get(script) {
            Some(passes) => passes.load(Ordering::SeqCst),
            None => 0,
        }
    }

    /// Counts a pass of a script, and gives its number.
    fn next_pass(&self, script: usize) -> u64 {
        match self.passes.get(script) {
            Some(passes) => passes.fetch_add(1, Ordering::SeqCst).wrapping_add(1),
            None => 0,
        }
    }

    /// Waits until so many passes of a script have come.
    fn wait_for(&self, script: usize, passes: u64) {
        for _ in 0..PATIENT {
            if self.passes(script) >= passes {
                return;
            }
            thread::yield_now();
        }
        self.wrong.fetch_add(1, Ordering::SeqCst);
    }
}

/// Yields for so many times `HOLD`.
fn hold(holds: u64) {
    for _ in 0..holds.wrapping_mul(HOLD) {
        thread::yield_now();
    }
}

impl Gate for InSteps<'_> {
    fn pass(&self, script: usize, replies: usize) {
        let pass = self.next_pass(script);
        self.note(script, pass, replies);
        for (held, number, other, passes, holds) in self.steps {
            if *held == script && *number == pass {
                self.wait_for(*other, *passes);
                hold(*holds);
            }
        }
    }

    fn saw(&self, _viewer: usize, _edits: u64) {}

    fn is_open(&self) -> bool {
        self.open
    }
}

/// Ends the tests if a run isn't over within a minute.
fn watch<R: Clock + Abort>(rt: &R, over: &AtomicBool) {
    for _ in 0..6_000 {
        if over.load(Ordering::SeqCst) {
            return;
        }
        thread::sleep(rt, Duration::from_millis(10));
    }
    rt.panic("a run isn't over within a minute: was a worker that sleeps not woken?")
}

/// The output of a run and the number of wrong passes; None if it wasn't served. Notes the end of the run.
fn run<R: Threads + Wait + Sync>(
    rt: &R,
    alloc: Global,
    gate: &InSteps,
    scripts: &str,
    workers: usize,
    over: &AtomicBool,
) -> Option<(String, u64)> {
    if workers == 0 || workers > 16 {
        return None;
    }
    let answer = served(rt, alloc, gate, (LAND, scripts), workers, 0);
    over.store(true, Ordering::SeqCst);
    let (text, _) = answer?;
    Some((text, gate.wrong.load(Ordering::SeqCst)))
}

/// The same within a limit of time.
fn run_in_time<R: Threads + Wait + Clock + Abort + Sync>(
    rt: &R,
    alloc: Global,
    gate: &InSteps,
    scripts: &str,
    workers: usize,
) -> Option<(String, u64)> {
    let over = AtomicBool::new(false);
    let over = &over;
    let (came, _) = join(
        rt,
        move || run(rt, alloc, gate, scripts, workers, over),
        move || watch(rt, over),
    );
    came
}

/// The numbers of commits and of wrong passes in a run of these scripts.
fn committed_in_time<R: Threads + Wait + Clock + Abort + Sync>(
    rt: &R,
    alloc: Global,
    gate: &InSteps,
    scripts: Result<String, OutOfMemory>,
    workers: usize,
) -> Option<(usize, u64)> {
    let scripts = scripts.ok()?;
    let (text, wrong) = run_in_time(rt, alloc, gate, scripts.as_str(), workers)?;
    Some((commits(text.as_str()), wrong))
}

/// Whether a script of this name ends first in a run by three workers, and the number of wrong passes.
fn ends_first<R: Threads + Wait + Clock + Abort + Sync>(
    rt: &R,
    alloc: Global,
    gate: &InSteps,
    scripts: Result<String, OutOfMemory>,
    name: &str,
) -> Option<(bool, u64)> {
    let scripts = scripts.ok()?;
    let (text, wrong) = run_in_time(rt, alloc, gate, scripts.as_str(), 3)?;
    let first = text.as_str().lines().next()?;
    Some((first.contains(name), wrong))
}

/// Two pieces of land.
const LAND: &str = model!(r#"{"x":{"type":"LandUse"},"y":{"type":"LandUse"}}"#, "[]");

/// The first script has `x`; the others die, the last of them first, and sleep until it ends.
const LAST_SLEEPS_FIRST: &[Step] = &[
    (0, 3, 2, 2, 3),
    (1, 1, 0, 3, 0),
    (1, 2, 2, 2, 1),
    (2, 1, 1, 2, 0),
];

/// The same, but the last of them dies last.
const LAST_SLEEPS_LAST: &[Step] = &[(0, 3, 2, 2, 3), (1, 1, 0, 3, 0), (2, 1, 1, 2, 1)];

/// The same for a gate passed only before many turns.
const MANY_TURNS: &[Step] = &[(0, 2, 2, 1, 3), (1, 1, 0, 2, 0), (2, 1, 1, 1, 1)];

/// The replies of the three at their passes: the others die at their second, unless they come late, and begin again
/// once.
const DIE_ONCE: &[&[usize]] = &[&[0, 0, 1], &[0, 0, ANY, 0, 1], &[0, 0, ANY, 0, 1]];

/// The end of the first script, and the number of commits then.
const ENDS: &[(&str, usize)] = &[
    (r#""commit""#, 3),
    (r#""abort""#, 2),
    (r#"{"delete":"z"},"commit""#, 2),
];

/// Steps, whether the gate is open, the replies at each pass, and the number of puts in the first script.
type Sleep = (&'static [Step], bool, &'static [&'static [usize]], usize);

const SLEEPS: &[Sleep] = &[
    (LAST_SLEEPS_FIRST, false, DIE_ONCE, 1),
    (LAST_SLEEPS_LAST, false, DIE_ONCE, 1),
    (MANY_TURNS, true, &[], 300),
];

#[test]
fn an_end_wakes_all_that_sleep(rt: HostRuntime) {
    for (end, commits) in ENDS {
        for (steps, open, replies, count) in SLEEPS {
            let gate = InSteps::of(steps, *open, replies);
            let scripts = three_scripts(rt.alloc(), *count, end);
            let came = committed_in_time(&rt, rt.alloc(), &gate, scripts, 3);
            assert_eq!(&rt; came, Some((*commits, 0)), "{end} {count}");
        }
    }
}

/// The number of puts of `y` in the second script before its put of `x`, steps, and replies. The first waits for `y`,
/// unless it comes late, and sleeps until the second dies at `x`. Then the second sleeps until the first has ended; the
/// first is held before its commit.
type Death = (usize, &'static [Step], &'static [&'static [usize]]);

const DEATHS: &[Death] = &[
    (
        1,
        &[
            (1, 1, 0, 2, 0),
            (0, 3, 1, 3, 0),
            (1, 3, 0, 3, 2),
            (0, 5, 0, 5, 1),
        ],
        &[&[0, 0, 1, ANY, 2], &[0, 0, 1, 0, 0, 1, 2]],
    ),
    (
        3,
        &[
            (1, 1, 0, 2, 0),
            (0, 3, 1, 3, 0),
            (1, 5, 0, 3, 2),
            (0, 5, 0, 5, 1),
        ],
        &[&[0, 0, 1, ANY, 2], &[0, 0, 1, 2, 3, 0, 0, 1, 2, 3, 4]],
    ),
];

#[test]
fn a_death_wakes_one_that_waits(rt: HostRuntime) {
    for (count, steps, replies) in DEATHS {
        for _ in 0..2 {
            let gate = InSteps::of(steps, false, replies);
            let scripts = two_scripts(rt.alloc(), *count);
            let came = committed_in_time(&rt, rt.alloc(), &gate, scripts, 3);
            assert_eq!(&rt; came, Some((2, 0)), "{count}");
        }
    }
}

/// Puts of the first script, and its passes once it has begun: one before each 256 turns, and a last one. The second
/// begins at the last, and overtakes the first there.
const LENGTHS: &[(usize, u64)] = &[(512, 3), (768, 4)];

#[test]
fn a_script_makes_few_turns_under_one_lock(rt: HostRuntime) {
    for (first, passes) in LENGTHS {
        let steps = [(1, 1, 0, *passes, 0), (0, *passes, 1, 1, 3)];
        let gate = InSteps::of(&steps, true, &[]);
        let scripts = one_and_others(rt.alloc(), *first, 1, 62);
        let came = ends_first(&rt, rt.alloc(), &gate, scripts, "other");
        assert_eq!(&rt;
            (came, gate.passes(0)),
            (Some((true, 0)), *passes),
            "{first}"
        );
    }
}

/// Puts of a script beside an older one, its passes, and the first to end. With its commit it has 63 commands, and goes
/// by under one lock, or 64, and sleeps until it is the oldest.
const BESIDE: &[(usize, u64, &str)] = &[(62, 1, "other"), (63, 2, "first")];

#[test]
fn a_long_script_sleeps_until_it_is_the_oldest(rt: HostRuntime) {
    for (each, passes, name) in BESIDE {
        let steps = [(1, 1, 0, 2, 0), (0, 2, 1, 1, 3)];
        let gate = InSteps::of(&steps, true, &[]);
        let scripts = one_and_others(rt.alloc(), 300, 1, *each);
        let came = ends_first(&rt, rt.alloc(), &gate, scripts, name);
        assert_eq!(&rt;
            (came, gate.passes(1)),
            (Some((true, 0)), *passes),
            "{each}"
        );
    }
}

#[test]
fn short_scripts_go_by_under_one_lock(rt: HostRuntime) {
    // (four have 64 turns each, while an older one is between its own; the fifth passes the gate)
    let steps = [(1, 1, 0, 2, 0), (0, 2, 5, 1, 0)];
    let gate = InSteps::of(&steps, true, &[]);
    let scripts = one_and_others(rt.alloc(), 300, 5, 62);
    let came = committed_in_time(&rt, rt.alloc(), &gate, scripts, 2);
    let passes = [1, 2, 3, 4, 5].map(|script| gate.passes(script));
    assert_eq!(&rt; (came, passes), (Some((6, 0)), [1, 0, 0, 0, 1]));
}
