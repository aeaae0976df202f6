//! The verb `turns`: turns of scripts at a desk.
ghost use Rattle.city_model.specs.CityMap.{object_at};
ghost use Rattle.city_model.specs.Relations.{IsLawful};

use crate::change::add_change;
use crate::fault_lines::add_run_fault;
use crate::steps::{TakesSteps, take_steps};
use crate::written::Written;
use city_desk::{Desk, ListShelf, Turn, output_bytes, read_texts};
use city_doc::FIXED_SEED;
use city_members::sequence::Sequence;
use city_model::OutOfMemory;
use city_model::change::Change;
use city_model::city::City;
use city_model::end::End;
use city_model::script::Script;
use std::alloc::Global;

/// Takes the steps at a desk, and answers each; then come the report, the model and the changes of the commits.
pub fn play_turns(
    alloc: Global,
    document: &[u8],
    scripts: &[u8],
    lines: &str,
    answer: &mut Written,
) {
    match read_texts(alloc, document, scripts) {
        Ok((city, scripts)) => play_over(alloc, city, scripts, lines, answer),
        Err(fault) => add_run_fault(alloc, fault, answer),
    }
}

fn play_over(
    alloc: Global,
    city: City,
    scripts: Sequence<Script>,
    lines: &str,
    answer: &mut Written,
)
    requires { IsLawful (object_at city.1) }
{
    match Desk::open(alloc, city, scripts, ListShelf::new(alloc)) {
        Ok(desk) => play_at(alloc, desk, lines, answer),
        Err(OutOfMemory) => answer.run_out(),
    }
}

/// Takes the steps at a desk, and adds its output. The desk is closed if a script hasn't ended.
fn play_at(alloc: Global, mut desk: Desk<ListShelf>, lines: &str, answer: &mut Written) {
    take_steps(&mut desk, alloc, lines, answer);
    match desk.finish() {
        Ok(left) => add_left(alloc, &left.city, left.ends.as_slice(), &left.shelf, answer),
        Err(desk) => add_closed(alloc, desk, answer),
    }
}

/// Closes a desk, and adds its output.
fn add_closed(alloc: Global, desk: Desk<ListShelf>, answer: &mut Written) {
    let (city, ends, shelf) = desk.close();
    answer.add_line("unfinished");
    add_left(alloc, &city, ends.as_slice(), &shelf, answer);
}

/// Adds a report, a model, and the ids of each change.
fn add_left(alloc: Global, city: &City, ends: &[End], shelf: &ListShelf, answer: &mut Written) {
    match output_bytes(alloc, FIXED_SEED, city, ends, Vec::new(alloc)) {
        Ok((bytes, _)) => answer.add_bytes(bytes.as_slice()),
        Err(OutOfMemory) => answer.run_out(),
    }
    add_changes(shelf.changes(), answer);
}

fn add_changes(changes: &[Change], answer: &mut Written) {
    for change in changes {
        add_change("committed", change, answer);
        answer.add("\n");
    }
}

/// A step is the number of a script, for its turn, or a word.
impl TakesSteps for Desk<ListShelf> {
    fn take_step(&mut self, _alloc: Global, step: &str, said: &mut Written) {
        match step {
            "ready" => add_number(self.ready(), said),
            "take" => add_number(self.take(), said),
            _ => turn(self, step, said),
        }
    }
}

/// Adds a number, or `none`.
fn add_number(number: Option<usize>, said: &mut Written) {
    match number {
        Some(number) => said.show(&number),
        None => said.add("none"),
    }
}

/// Adds the answer to the turn of a script. A script said to be ready must not wait.
fn turn(desk: &mut Desk<ListShelf>, step: &str, said: &mut Written) {
    let number = step.parse::<usize>().unwrap_or(usize::MAX);
    if number >= desk.scripts() {
        return said.add("no script");
    }
    let was_ready = desk.ready() == Some(number);
    let turn = desk.turn(number);
    said.show_debug(&turn);
    if was_ready && turn == Turn::Waits {
        said.add(" though it was ready");
    }
}
