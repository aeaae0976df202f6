//! The verb `locks`: a lock table.
use crate::steps::{TakesSteps, stamped};
use crate::written::Written;
use city_locks::{LockTable, Mode};
use city_members::text::Text;
use city_model::OutOfMemory;
use std::alloc::Global;

/// A step is a stamp, a word and an id.
impl TakesSteps for LockTable {
    fn take_step(&mut self, alloc: Global, step: &str, said: &mut Written) {
        match stamped(step) {
            Some((stamp, rest)) => take_step_of(self, alloc, stamp, rest, said),
            None => said.add("no stamp"),
        }
    }
}

fn take_step_of(table: &mut LockTable, alloc: Global, stamp: u64, words: &str, said: &mut Written) {
    let (does, id) = words.split_once(" ").unwrap_or((words, ""));
    match id.to_string(alloc) {
        Ok(id) => call(table, stamp, does, &Text::new(id), said),
        Err(OutOfMemory) => said.run_out(),
    }
}

fn call(table: &mut LockTable, stamp: u64, does: &str, id: &Text, said: &mut Written) {
    match does {
        "share" => ask(table, stamp, id, Mode::Shared, said),
        "alone" => ask(table, stamp, id, Mode::Exclusive, said),
        "holds" => add_mode(table.mode(stamp, id), said),
        "release" => {
            table.release_all(stamp);
            said.add("done");
        }
        _ => said.add("no such step"),
    }
}

/// Adds the answer foretold by `would_answer`, behind a word if the real one is another.
fn ask(table: &mut LockTable, stamp: u64, id: &Text, mode: Mode, said: &mut Written) {
    let foretold = table.would_answer(stamp, id, mode);
    match table.ask(stamp, id, mode) {
        Ok(answer) => {
            said.add(if answer == foretold { "" } else { "foretold " });
            said.show_debug(&foretold);
        }
        Err(OutOfMemory) => said.run_out(),
    }
}

/// Adds the mode of a held lock, or `None`.
fn add_mode(mode: Option<Mode>, said: &mut Written) {
    match mode {
        Some(mode) => said.show_debug(&mode),
        None => said.add("None"),
    }
}
