//! The verbs `crew`, `decimals`, `texts`, `replay` and `model`: runs by so many workers before so many viewers.
ghost use Rattle.city_options.specs.RunOptions.{AreWithin};

use crate::fault_lines::add_run_fault;
use crate::replay::is_replayed;
use crate::served::{add_lent, add_served, all_saw};
use crate::written::Written;
use city_crew::{MAX_VIEWERS, MAX_WORKERS, OpenGate, run_crew};
use city_desk::Output;
use city_model::end::{End, Outcome};
use city_serve::Options;
use std::alloc::Global;
use std::sync::Wait;
use std::thread::Threads;

/// The report of a run.
#[derive(Clone, Copy)]
pub enum Told {
    /// The bytes written.
    Bytes,
    /// The same with `--decimals`.
    Decimals,
    /// The same of lent texts.
    Lent,
    /// Whether the scripts give the same, played one at a time in the order of their ends.
    History,
    /// The same, and then the model.
    Model,
}

/// Runs the scripts by each of the crews, written as `4x1` for four workers and one viewer, and answers with the
/// report: once if it is always the same, else behind the crew.
pub fn play_crews<T: Threads + Wait + Sync>(
    rt: &T,
    alloc: Global,
    told: Told,
    crews: &str,
    document: &[u8],
    scripts: &[u8],
    answer: &mut Written,
) {
    let mut last = Written::new(alloc);
    for crew in crews.split_whitespace() {
        let mut now = Written::new(alloc);
        play_crew(rt, alloc, told, crew, document, scripts, &mut now);
        if !last.as_slice().is_empty() && now.as_slice() != last.as_slice() {
            answer.add_line(crew);
        }
        answer.add_unlike(&mut last, now);
    }
}

/// The options of a crew.
fn options_of(crew: &str, decimals: bool) -> Options
    ensures { AreWithin result }
{
    let (workers, viewers) = crew.split_once("x").unwrap_or((crew, "0"));
    Options {
        workers: workers.parse::<usize>().unwrap_or(1).clamp(1, MAX_WORKERS),
        viewers: viewers.parse::<usize>().unwrap_or(0).min(MAX_VIEWERS),
        decimals,
        explain: false,
    }
}

/// Runs the scripts by one crew, and adds the report.
fn play_crew<T: Threads + Wait + Sync>(
    rt: &T,
    alloc: Global,
    told: Told,
    crew: &str,
    document: &[u8],
    scripts: &[u8],
    answer: &mut Written,
) {
    let options = options_of(crew, matches!(told, Told::Decimals));
    match told {
        Told::Bytes | Told::Decimals => add_served(rt, alloc, options, document, scripts, answer),
        Told::Lent => add_lent(rt, alloc, options, document, scripts, answer),
        _ => add_ran(rt, alloc, told, options, document, scripts, answer),
    }
}

/// Runs the scripts by `run_crew`, for their ends, and adds the report.
fn add_ran<T: Threads + Wait + Sync>(
    rt: &T,
    alloc: Global,
    told: Told,
    options: Options,
    document: &[u8],
    scripts: &[u8],
    answer: &mut Written,
)
    requires { AreWithin options }
{
    let (workers, viewers) = (options.workers, options.viewers);
    match run_crew(rt, alloc, document, scripts, workers, viewers, &OpenGate) {
        Ok(output) => add_output(alloc, told, &output, document, scripts, viewers, answer),
        Err(fault) => add_run_fault(alloc, fault, answer),
    }
}

/// Adds the report of a run's output, if its viewers saw all commits in the end.
fn add_output(
    alloc: Global,
    told: Told,
    output: &Output,
    document: &[u8],
    scripts: &[u8],
    viewers: usize,
    answer: &mut Written,
) {
    let (bytes, ends) = (output.bytes.as_slice(), output.ends.as_slice());
    let seen = output.seen.as_slice();
    if seen.len() != viewers || !all_saw(seen, commits(ends)) {
        answer.add("seen: ");
        answer.show_debug(&seen);
        answer.add("\n");
    } else if is_replayed(alloc, document, scripts, ends, bytes) {
        add_history(told, ends.len(), bytes, answer);
    } else {
        answer.add_line("no serial history");
        answer.add_lines(bytes);
    }
}

/// Adds the number of a history's ends, or its final model.
fn add_history(told: Told, ends: usize, bytes: &[u8], answer: &mut Written) {
    if matches!(told, Told::Model) {
        let lines = str::from_utf8(bytes).unwrap_or("");
        return answer.add_line(lines.lines().nth(ends).unwrap_or("no model"));
    }
    answer.add("a serial history of ");
    answer.show(&ends);
    answer.add_line(" ends");
}

/// The number of commits among these ends.
fn commits(ends: &[End]) -> u64 {
    let mut commits = 0u64;
    for end in ends {
        if matches!(end.outcome, Outcome::Committed) {
            commits = commits.saturating_add(1);
        }
    }
    commits
}
