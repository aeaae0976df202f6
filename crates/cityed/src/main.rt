//! Edits a CityJSON 2.0 document by scripts.
//!
//! Two names are files, the model's and the scripts'. Without names standard input has the document
//! in its first line and the scripts after it. With `--decimals` numbers of any form are taken, and
//! given back as they were written; `--workers` and `--watch` say how many workers run the scripts
//! and how many viewers look on. Standard output gets a line for each script and the model,
//! standard error one for each viewer. With `--output` the model goes to a file instead, replaced
//! whole; with `--atomic` it goes nowhere if a script is refused or out of memory, and with
//! `--report-only` it always does. With `--check` nothing is run: standard output gets a line for each
//! fault of a model and of scripts. Status 1:
//! a fault, told on standard error, or faults found by a check; 2: a refused command line; 3: a
//! withheld model. With `--live` the program holds a model, and answers requests of many hands,
//! lines of JSON on standard input, by lines on standard output. A fault is explained with `--explain`, and if standard error is a terminal. All
//! this is city_program's `run_program`: here it gets the real files and streams.
#![tactic(auto)]

use city_crew::OpenGate;
use city_program::command_line::LineFault;
use city_program::{asks_for_live, refuse_line, run_live_words, run_program};
use city_serve::{Device, RuntimeFiles, drawn_seed};
use city_server::RuntimeJournals;
use std::io::{ErrorKind, IsTerminal};
use std::process::ExitCode;
use std::{env, io};

fn main(rt: HostRuntime) -> ExitCode {
    let errors = rt.stderr();
    let terminal = errors.is_terminal();
    let mut errors = Device::new(errors);
    let status = match words(&rt) {
        Ok(words) if asks_for_live(words.as_slice()) => run_live_words(
            &rt,
            rt.alloc(),
            drawn_seed(&rt),
            &mut RuntimeFiles::new(&rt),
            &mut RuntimeJournals::new(&rt, drawn_seed(&rt)),
            words.as_slice(),
            &mut Device::new(rt.reader()),
            &mut Device::new(io::writer(&rt)),
            &mut errors,
        ),
        Ok(words) => run_program(
            &rt,
            rt.alloc(),
            &OpenGate,
            drawn_seed(&rt),
            &mut RuntimeFiles::new(&rt),
            words.as_slice(),
            &mut Device::new(rt.reader()),
            &mut Device::new(io::writer(&rt)),
            &mut errors,
            terminal,
        ),
        Err(fault) => refuse_line(rt.alloc(), &fault, &mut errors),
    };
    ExitCode::from(status.code())
}

/// The words of the command line, the program's name first.
fn words(rt: &HostRuntime) -> Result<Vec<String>, LineFault> {
    match env::args(rt) {
        Ok(words) => Ok(words.collect(rt.alloc())?),
        Err(error) if error.kind() == ErrorKind::OutOfMemory => Err(LineFault::OutOfMemory),
        Err(_) => Err(LineFault::Refused("error: an argument isn't text in UTF-8\n".to_string(
            rt.alloc(),
        )?)),
    }
}
