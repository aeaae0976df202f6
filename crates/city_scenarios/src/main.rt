//! Plays scenarios: data files with the answers of the libraries' public calls.
//!
//! Each argument names a file. A line is printed for each, with the number of its scenarios; or the first failed one,
//! with the wanted line and the line that came. CONTRIBUTING.md has the format.
//!
//! - `file`, `scenario`, `named`: a file of scenarios, one of them, and their named texts
//! - `play`: the verbs; `written`, `fault_lines`, `wanted`: their answers, and the comparison
//! - `document`, `scripts`, `prefixes`: texts read; `pieces`: in how many pieces; `tokens`: from their tokens; `check`:
//!   their faults; `diagnostics`: diagnostics of these; `refusals`: of refused scripts; `body`: bodies judged;
//!   `members`: members kept; `faults`: faults shown; `rewrite`: scripts written
//! - `run`, `crew`, `served`, `replay`: whole runs, by one worker, by several, as the program serves them, and their
//!   scripts one at a time; `canonical`: a model's canonical form
//! - `serve`, `reader`, `writer`: from a device to a device; `program`, `folder`, `seen`: the program, over files that
//!   are texts with names, and the line of a viewer; `known_texts`, `taken_steps`: what contracts know of these files
//! - `steps`, `turns`: steps, a desk; `core_steps`, `session_steps`, `reply`, `change`: transactions; `live_steps`,
//!   `live_lists`: hands; `locks`: a lock table; `board`: viewers; `shelves`: a change made by hand
//! - `command_line`, `pool`: command lines parsed, and points numbered
#![tactic(auto)]

mod board;
mod body;
mod canonical;
mod change;
mod check;
mod command_line;
mod core_steps;
mod crew;
mod diagnostics;
mod document;
mod fault_lines;
mod faults;
mod file;
mod folder;
mod journals;
mod known_texts;
mod live_lists;
mod live_steps;
mod locks;
mod members;
mod named;
mod pieces;
mod play;
mod pool;
mod prefixes;
mod program;
mod reader;
mod refusals;
mod replay;
mod reply;
mod rewrite;
mod run;
mod scenario;
mod scripts;
mod seen;
mod serve;
mod served;
mod session_steps;
mod shelves;
mod steps;
mod taken_steps;
mod tokens;
mod turns;
mod wanted;
mod writer;
mod written;

use crate::file::play_file;
use std::env;
use std::process::ExitCode;

fn main(rt: HostRuntime) -> ExitCode {
    let Ok(words) = env::args(&rt) else {
        return ExitCode::FAILURE;
    };
    let Ok(words) = words.collect::<Vec<String>>(rt.alloc()) else {
        return ExitCode::FAILURE;
    };
    for name in words.iter().skip(1) {
        if !play_file(&rt, &rt, name.as_str()) {
            return ExitCode::FAILURE;
        }
    }
    ExitCode::SUCCESS
}
