//! Answers the words of a live command line.

use crate::status::Status;
use crate::tell::{MEMORY_LINE, refuse_line, tell};
use city_model::OutOfMemory;
use city_options::{AskedLive, LiveLine, live_by};
use city_serve::serve::write_output;
use city_serve::{Device, OutputFiles, ServeFault};
use city_server::{Journals, LiveFault, run_live};
use std::alloc::Global;
use std::io::{Read, Write};
use std::time::Clock;

/// Told if the journal is the model's file or the output file.
const JOURNAL_NAMED: &str =
    "error: --journal names MODEL or FILE\n\nFor more information, try '--help'.\n";

/// Answers the words of a live command line, the program's name first: holds the model until the input ends.
///
/// The output file and the journal are locked before a text is read, and unlocked at the end. A line whose journal is the
/// model's file or the output file is refused.
pub fn run_live_words<C: Clock, F: OutputFiles, K: Journals, R: Read, W: Write, E: Write>(
    clock: &C,
    alloc: Global,
    seed: u64,
    files: &mut F,
    journals: &mut K,
    words: &[String],
    input: &mut Device<R>,
    output: &mut Device<W>,
    errors: &mut Device<E>,
) -> Status {
    match live_by(alloc, words) {
        Ok(AskedLive::Session(line)) => {
            if has_one_file(files, &line) {
                tell(errors, JOURNAL_NAMED);
                return Status::Refused;
            }
            let ended = hold(
                clock, alloc, seed, files, journals, &line, input, output, errors,
            );
            tell_end(alloc, ended, errors)
        }
        Ok(AskedLive::Text(text)) => {
            if write_output(output, text.as_bytes()) {
                Status::Done
            } else {
                tell_end(alloc, Err(LiveFault::Serve(ServeFault::Write)), errors)
            }
        }
        Err(fault) => refuse_line(alloc, &fault, errors),
    }
}

/// Whether the journal is the model's file or the output file.
fn has_one_file<F: OutputFiles>(files: &F, line: &LiveLine<'_>) -> bool {
    let Some(journal) = line.journal else {
        return false;
    };
    let is_output = match line.output {
        Some(output) => files.are_same(journal, output),
        None => false,
    };
    is_output || files.are_same(journal, line.model)
}

/// Locks the output file, if there is one, and holds the model until the input ends.
fn hold<C: Clock, F: OutputFiles, K: Journals, R: Read, W: Write, E: Write>(
    clock: &C,
    alloc: Global,
    seed: u64,
    files: &mut F,
    journals: &mut K,
    line: &LiveLine<'_>,
    input: &mut Device<R>,
    output: &mut Device<W>,
    errors: &mut Device<E>,
) -> Result<(), LiveFault> {
    let Some(path) = line.output else {
        return run_live(
            clock, alloc, seed, files, journals, line, input, output, errors,
        );
    };
    files.lock(path, line.wait)?;
    let ended = run_live(
        clock, alloc, seed, files, journals, line, input, output, errors,
    );
    files.unlock();
    ended
}

/// Tells why a session ended early, if it did.
fn tell_end<E: Write>(
    alloc: Global,
    ended: Result<(), LiveFault>,
    errors: &mut Device<E>,
) -> Status {
    let Err(fault) = ended else {
        return Status::Done;
    };
    match fault_line(alloc, &fault) {
        Ok(line) => tell(errors, line.as_str()),
        Err(OutOfMemory) => tell(errors, MEMORY_LINE),
    }
    Status::Failed
}

/// The line of a fault, with its newline.
fn fault_line(alloc: Global, fault: &LiveFault) -> Result<String, OutOfMemory> {
    format!(in alloc; "cityed: {fault}\n")
}
