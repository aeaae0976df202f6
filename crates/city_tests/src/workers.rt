//! As many workers as are asked for run scripts at once: they meet at a gate, and one more doesn't come.
use crate::meeting::{Meeting, PATIENT, SHORT};
use crate::script_texts::one_and_others;
use crate::served::{EMPTY, TWO, commits, scripts_of_roads, served};
use city_crew::{Gate, run_crew};
use city_desk::Output;
use std::alloc::Global;
use std::sync::Wait;
use std::sync::atomic::{AtomicU64, Ordering};
use std::thread::Threads;

/// The first scripts meet: before they begin, or after their first replies. If the gate is open, a worker passes it
/// before many turns, as in the program.
#[derive(Drop)]
struct ScriptsMeet {
    meeting: Meeting,
    replies: usize,
    open: bool,
    inside: AtomicU64,
    /// Most scripts at the gate at once.
    most: AtomicU64,
}

impl ScriptsMeet {
    /// So many scripts meet.
    fn of(scripts: u32, looks: u64, open: bool) -> ScriptsMeet {
        ScriptsMeet {
            meeting: Meeting::of((1u64 << scripts.min(63)).wrapping_sub(1), looks),
            replies: if open { 0 } else { 1 },
            open,
            inside: AtomicU64::new(0),
            most: AtomicU64::new(0),
        }
    }
}

impl Gate for ScriptsMeet {
    fn pass(&self, script: usize, replies: usize) {
        if replies == self.replies && script < 63 && self.meeting.awaits(1 << script) {
            let inside = self.inside.fetch_add(1, Ordering::SeqCst).wrapping_add(1);
            self.most.fetch_max(inside, Ordering::SeqCst);
            self.meeting.meet(1 << script);
            self.inside.fetch_sub(1, Ordering::SeqCst);
        }
    }

    fn saw(&self, _viewer: usize, _edits: u64) {}

    fn is_open(&self) -> bool {
        self.open
    }
}

/// Runs so many scripts by so many workers. Returns the numbers of commits, of scripts at the gate at once, and of
/// scripts gone on alone; None if the run wasn't served.
fn met<R: Threads + Wait + Sync>(
    rt: &R,
    alloc: Global,
    gate: &ScriptsMeet,
    scripts: usize,
    workers: usize,
) -> Option<(usize, u64, u64)> {
    if workers == 0 || workers > 16 {
        return None;
    }
    let texts = scripts_of_roads(alloc, scripts).ok()?;
    let (text, _) = served(rt, alloc, gate, (EMPTY, texts.as_str()), workers, 0)?;
    let most = gate.most.load(Ordering::SeqCst);
    Some((commits(text.as_str()), most, gate.meeting.missed()))
}

#[test]
fn as_many_workers_as_are_asked_for_meet(rt: HostRuntime) {
    for (workers, scripts) in [(2, 2), (3, 3), (3, 40), (16, 16), (16, 100)] {
        for open in [false, true] {
            let gate = ScriptsMeet::of(workers, PATIENT, open);
            let came = met(&rt, rt.alloc(), &gate, scripts, workers as usize);
            assert_eq!(&rt; came, Some((scripts, workers as u64, 0)), "{open}");
        }
    }
}

#[test]
fn no_more_workers_come_than_are_asked_for(rt: HostRuntime) {
    for (workers, scripts) in [(2, 3), (5, 6), (15, 16)] {
        for open in [false, true] {
            let gate = ScriptsMeet::of(scripts, SHORT, open);
            let came = met(&rt, rt.alloc(), &gate, scripts as usize, workers);
            let (committed, most, _) = came.unwrap_or((0, 0, 0));
            assert_eq!(&rt;
                (committed, most),
                (scripts as usize, workers as u64),
                "{open}"
            );
        }
    }
}

const TWO_LEFT: &str = model!(
    r#"{"w":{"type":"Road"},"x":{"type":"Road"},"y":{"type":"Road"}}"#,
    "[]"
);

/// Whether two workers leave the model of two scripts, and the number of commits.
fn left_by_two<R: Threads + Wait + Sync>(
    rt: &R,
    alloc: Global,
    gate: &ScriptsMeet,
) -> Option<(bool, usize)> {
    let (text, _) = served(rt, alloc, gate, (EMPTY, TWO), 2, 0)?;
    let text = text.as_str();
    Some((text.trim_end().ends_with(TWO_LEFT), commits(text)))
}

#[test]
fn two_workers_run_two_scripts_at_once(rt: HostRuntime) {
    let gate = ScriptsMeet::of(2, PATIENT, false);
    let left = left_by_two(&rt, rt.alloc(), &gate);
    assert_eq!(&rt; (left, gate.meeting.missed()), (Some((true, 2)), 0));
}

/// The report of one worker of the crew.
const IN_TURN: &str = concat!(
    r#"{"name":"a","outcome":"committed","replies":["added","added"],"script":0,"since":0}"#,
    "\n",
    r#"{"name":"b","outcome":"committed","replies":["added"],"script":1,"since":1}"#,
    "\n"
);

/// The output of one worker of the crew.
fn written_by_one<R: Threads + Wait + Sync, G: Gate + Sync>(
    rt: &R,
    alloc: Global,
    gate: &G,
    scripts: &str,
) -> Option<Output> {
    run_crew(rt, alloc, EMPTY.as_bytes(), scripts.as_bytes(), 1, 0, gate).ok()
}

/// Whether one worker writes the report of two scripts in turn, and then their model.
fn is_in_turn<R: Threads + Wait + Sync>(rt: &R, alloc: Global, gate: &ScriptsMeet) -> Option<bool> {
    let output = written_by_one(rt, alloc, gate, TWO)?;
    let wanted = format!(in alloc; "{IN_TURN}{TWO_LEFT}\n").ok()?;
    Some(output.bytes.as_slice() == wanted.as_bytes())
}

#[test]
fn one_worker_runs_one_script_after_the_other(rt: HostRuntime) {
    let gate = ScriptsMeet::of(2, SHORT, false);
    let in_turn = is_in_turn(&rt, rt.alloc(), &gate);
    assert_eq!(&rt; (in_turn, gate.meeting.missed()), (Some(true), 1));
}

/// Counts the passes of scripts, and notes the last.
#[derive(Drop)]
struct Passes {
    count: AtomicU64,
    last: AtomicU64,
}

impl Gate for Passes {
    fn pass(&self, script: usize, _replies: usize) {
        self.count.fetch_add(1, Ordering::SeqCst);
        self.last.store(script as u64, Ordering::SeqCst);
    }

    fn saw(&self, _viewer: usize, _edits: u64) {}

    fn is_open(&self) -> bool {
        true
    }
}

/// The number of ends of 300 short scripts, run by one worker.
fn ends_of_many<R: Threads + Wait + Sync>(rt: &R, alloc: Global, gate: &Passes) -> Option<usize> {
    let scripts = one_and_others(alloc, 62, 299, 62).ok()?;
    let output = written_by_one(rt, alloc, gate, scripts.as_str())?;
    Some(output.ends.as_slice().len())
}

#[test]
fn a_worker_leaves_the_lock_after_many_short_scripts(rt: HostRuntime) {
    let gate = Passes {
        count: AtomicU64::new(0),
        last: AtomicU64::new(0),
    };
    let ends = ends_of_many(&rt, rt.alloc(), &gate);
    let count = gate.count.load(Ordering::SeqCst);
    let last = gate.last.load(Ordering::SeqCst);
    // (each has 64 turns, but the first has begun before: 16,384 turns are over when 257 scripts have ended)
    assert_eq!(&rt; (ends, count, last), (Some(300), 2, 257));
}
