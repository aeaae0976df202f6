//! The verb `words`: command lines parsed.
use crate::steps::TakesSteps;
use crate::written::Written;
use city_model::OutOfMemory;
use city_program::command_line::{Asked, LineFault, asked_by};
use city_serve::{Destination, Options};
use std::alloc::Global;

/// Each step is a command line, answered by its parse.
#[derive(Clone, Copy)]
pub struct CommandLines;

impl TakesSteps for CommandLines {
    fn take_step(&mut self, alloc: Global, line: &str, said: &mut Written) {
        match words_of(alloc, line) {
            Ok(words) => add_asked(alloc, words.as_slice(), said),
            Err(OutOfMemory) => said.run_out(),
        }
    }
}

/// The words of a line, between spaces.
pub fn words_of(alloc: Global, line: &str) -> Result<Vec<String>, OutOfMemory> {
    let mut words = Vec::new(alloc);
    for word in line.split_whitespace() {
        words.push(word.to_string(alloc)?)?;
    }
    Ok(words)
}

/// Adds the parse of a command line: a word and the names, or the first line of the shown text.
fn add_asked(alloc: Global, words: &[String], said: &mut Written) {
    match asked_by(alloc, words) {
        Ok(Asked::Input(options, destination)) => add_input(options, destination, said),
        Ok(Asked::Files(options, destination, model, scripts)) => {
            add_files(model, scripts, options, destination, said);
        }
        Ok(Asked::Check(options, model, scripts)) => add_check(model, scripts, options, said),
        Ok(Asked::Text(text)) => add_first_line("text ", text.as_str(), said),
        Err(LineFault::Refused(text)) => add_first_line("2 ", text.as_str(), said),
        Err(LineFault::OutOfMemory) => said.run_out(),
    }
}

/// Adds a word, the numbers of workers and viewers, and a word each for `--decimals` and `--explain`.
fn add_options(word: &str, options: Options, said: &mut Written) {
    said.add(word);
    said.add(" ");
    said.show(&options.workers);
    said.add(" ");
    said.show(&options.viewers);
    said.add(if options.decimals { " decimals" } else { "" });
    said.add(if options.explain { " explain" } else { "" });
}

/// Adds the output file of the model and the seconds to wait for it, if there are such, and a word each for all or
/// nothing and for the report alone.
fn add_destination(destination: Destination<'_>, said: &mut Written) {
    if let Some(file) = destination.file {
        said.add(" output=");
        said.add(file);
    }
    if destination.wait > 0 {
        said.add(" wait=");
        said.show(&destination.wait);
    }
    said.add(if destination.atomic { " atomic" } else { "" });
    said.add(if destination.report_only {
        " report-only"
    } else {
        ""
    });
}

fn add_input(options: Options, destination: Destination<'_>, said: &mut Written) {
    add_options("input", options, said);
    add_destination(destination, said);
}

fn add_files(
    model: &str,
    scripts: &str,
    options: Options,
    destination: Destination<'_>,
    said: &mut Written,
) {
    said.add("files ");
    said.add(model);
    said.add(" ");
    add_options(scripts, options, said);
    add_destination(destination, said);
}

fn add_check(model: &str, scripts: Option<&str>, options: Options, said: &mut Written) {
    said.add("check ");
    match scripts {
        Some(scripts) => {
            said.add(model);
            said.add(" ");
            add_options(scripts, options, said);
        }
        None => add_options(model, options, said),
    }
}

fn add_first_line(word: &str, text: &str, said: &mut Written) {
    said.add(word);
    said.add(text.lines().next().unwrap_or(""));
}
