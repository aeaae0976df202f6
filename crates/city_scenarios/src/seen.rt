//! The verb `seen`: a viewer's line of the report.
use crate::steps::TakesSteps;
use crate::written::Written;
use city_model::OutOfMemory;
use city_program::seen_line::seen_line;
use std::alloc::Global;

/// Each step is a viewer's number and the numbers of changes it saw, answered by the line.
#[derive(Clone, Copy)]
pub struct SeenLines;

impl TakesSteps for SeenLines {
    fn take_step(&mut self, alloc: Global, step: &str, said: &mut Written) {
        match line_of(alloc, step) {
            Ok(line) => said.add(line.as_str()),
            Err(OutOfMemory) => said.add("out of memory"),
        }
    }
}

fn line_of(alloc: Global, step: &str) -> Result<String, OutOfMemory> {
    let mut numbers = step.split_whitespace();
    let viewer = numbers.next().unwrap_or("").parse::<usize>().unwrap_or(0);
    let mut seen = Vec::new(alloc);
    for number in numbers {
        seen.push(number.parse::<u64>().unwrap_or(0))?;
    }
    seen_line(alloc, viewer, seen.as_slice())
}
