//! The verb `cityed`: the program, over files, streams and a command line.
use crate::command_line::words_of;
use crate::folder::Folder;
use crate::journals::{NamedJournals, StillClock};
use crate::named::Named;
use crate::reader::{Giving, Reads};
use crate::serve::joined;
use crate::writer::{Taking, Writes};
use crate::written::Written;
use city_crew::OpenGate;
use city_doc::FIXED_SEED;
use city_model::OutOfMemory;
use city_program::{Status, asks_for_live, run_live_words, run_program};
use city_serve::Device;
use std::alloc::Global;
use std::sync::Wait;
use std::thread::Threads;

/// Runs the program with a line of words, and with the habits behind a `|`. Answers with its status, its standard
/// output and standard error, the steps on files, and a replaced file. The files are the named texts; standard input
/// is the scenario's own texts.
pub fn play_program<T: Threads + Wait + Sync>(
    rt: &T,
    alloc: Global,
    names: &[Named],
    line: &str,
    texts: &[&[u8]],
    answer: &mut Written,
) {
    if run_line(rt, alloc, names, line, texts, answer).is_err() {
        answer.run_out();
    }
}

fn run_line<T: Threads + Wait + Sync>(
    rt: &T,
    alloc: Global,
    names: &[Named],
    line: &str,
    texts: &[&[u8]],
    answer: &mut Written,
) -> Result<(), OutOfMemory> {
    let (line, habits) = line.split_once("|").unwrap_or((line, ""));
    let words = words_of(alloc, line)?;
    let input = joined(alloc, texts)?;
    let mut streams = Streams::new(alloc, habits);
    let mut files = Folder::new(alloc, names, habits);
    let (words, input) = (words.as_slice(), input.as_slice());
    let status = if asks_for_live(words) {
        let mut journals = NamedJournals::new(alloc, names);
        run_live(
            alloc,
            habits,
            words,
            input,
            &mut files,
            &mut journals,
            &mut streams,
        )
    } else {
        run(rt, alloc, habits, words, input, &mut files, &mut streams)
    };
    add_status(status, answer);
    streams.add_to(alloc, habits.contains("sorted"), answer)?;
    add_files(files, answer)
}

/// Runs the program with these words, habits and input.
fn run<T: Threads + Wait + Sync>(
    rt: &T,
    alloc: Global,
    habits: &str,
    words: &[String],
    input: &[u8],
    files: &mut Folder,
    streams: &mut Streams,
) -> Status {
    run_program(
        rt,
        alloc,
        &OpenGate,
        FIXED_SEED,
        files,
        words,
        &mut Device::new(Giving::new(Reads::told(habits), input)),
        &mut Device::new(&mut streams.output),
        &mut Device::new(&mut streams.errors),
        habits.contains("terminal"),
    )
}

/// Runs a live session with these words, habits and input.
fn run_live(
    alloc: Global,
    habits: &str,
    words: &[String],
    input: &[u8],
    files: &mut Folder,
    journals: &mut NamedJournals,
    streams: &mut Streams,
) -> Status {
    run_live_words(
        &StillClock,
        alloc,
        FIXED_SEED,
        files,
        journals,
        words,
        &mut Device::new(Giving::new(Reads::told(habits), input)),
        &mut Device::new(&mut streams.output),
        &mut Device::new(&mut streams.errors),
    )
}

/// Standard output and standard error.
#[derive(Drop)]
struct Streams {
    output: Taking,
    errors: Taking,
}

impl Streams {
    /// Empty streams with these habits; `mute` is standard error's.
    fn new(alloc: Global, habits: &str) -> Streams {
        let mute = if habits.contains("mute") {
            "full 0"
        } else {
            ""
        };
        Streams {
            output: Taking::new(alloc, Writes::told(habits, None)),
            errors: Taking::new(alloc, Writes::told(mute, None)),
        }
    }

    /// Adds the bytes of both.
    fn add_to(self, alloc: Global, sorted: bool, answer: &mut Written) -> Result<(), OutOfMemory> {
        let Streams { output, errors } = self;
        let errors = errors.into_written();
        add_stream(
            alloc,
            "standard output",
            sorted,
            output.into_written(),
            answer,
        )?;
        add_stream(alloc, "standard error", sorted, errors, answer)
    }
}

/// Adds the steps on files and a replaced file, if any.
fn add_files(files: Folder, answer: &mut Written) -> Result<(), OutOfMemory> {
    let (steps, replaced) = files.left()?;
    if !steps.is_empty() {
        answer.add("files");
        answer.add_bytes(steps.as_slice());
        answer.add("\n");
    }
    if !replaced.is_empty() {
        answer.add_lines(replaced.as_slice());
    }
    Ok(())
}

fn add_status(status: Status, answer: &mut Written) {
    answer.add("status ");
    answer.show(&status.code());
    answer.add("\n");
}

/// Adds the bytes of a stream, if any.
fn add_stream(
    alloc: Global,
    title: &str,
    sorted: bool,
    bytes: Vec<u8>,
    answer: &mut Written,
) -> Result<(), OutOfMemory> {
    if bytes.is_empty() {
        return Ok(());
    }
    answer.add_line(title);
    if !sorted {
        answer.add_lines(bytes.as_slice());
        return Ok(());
    }
    add_sorted(
        alloc,
        str::from_utf8(bytes.as_slice()).unwrap_or(""),
        answer,
    )
}

/// Adds sorted lines without the parts that depend on the turns of scripts: without a script's `since`, and with only
/// the last of a viewer's numbers.
fn add_sorted(alloc: Global, text: &str, answer: &mut Written) -> Result<(), OutOfMemory> {
    let mut lines = text.lines().collect::<Vec<&str>>(alloc)?;
    lines.sort()?;
    for line in &lines {
        if line.starts_with("viewer ") {
            add_last_seen(*line, answer);
        } else {
            let (kept, _) = line.rsplit_once(r#","since":"#).unwrap_or((*line, ""));
            answer.add_line(kept);
        }
    }
    Ok(())
}

fn add_last_seen(line: &str, answer: &mut Written) {
    let (viewer, numbers) = line.split_once(":").unwrap_or((line, ""));
    let (_, last) = numbers.rsplit_once(" ").unwrap_or(("", numbers));
    answer.add(viewer);
    answer.add(": .. ");
    answer.add_line(last);
}
