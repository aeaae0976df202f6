//! Steps: lines of an answer with an arrow.
use crate::written::Written;
use std::alloc::Global;

/// Takes steps one after another.
pub trait TakesSteps {
    /// Takes a step, and adds the answer.
    fn take_step(&mut self, alloc: Global, step: &str, said: &mut Written);
}

/// Takes each step of these lines, and adds it with its answer.
pub fn take_steps<T: TakesSteps>(taker: &mut T, alloc: Global, lines: &str, answer: &mut Written) {
    for line in lines.lines() {
        if let Some(step) = step_of(line) {
            begin_step(step, answer);
            taker.take_step(alloc, step, answer);
            answer.add("\n");
        }
    }
}

/// The step of a line, if it has one: the text before the last arrow.
pub fn step_of(line: &str) -> Option<&str> {
    let (step, _) = line.rsplit_once(" -> ")?;
    Some(step)
}

/// Adds a step, up to its answer.
pub fn begin_step(step: &str, answer: &mut Written) {
    answer.add(step);
    answer.add(" -> ");
}

/// The stamp at the start of a step, and the rest of the step.
pub fn stamped(step: &str) -> Option<(u64, &str)> {
    let (stamp, rest) = step.split_once(" ").unwrap_or((step, ""));
    let stamp = stamp.parse::<u64>().ok()?;
    Some((stamp, rest))
}
