//! The verb `check`: all faults of a text.
use crate::written::Written;
use city_doc::faults_of;
use city_model::OutOfMemory;
use city_scripts::script_faults_of;
use std::alloc::Global;
use std::fmt::Display;

/// Answers with a line for each fault of a text, a `document` or `scripts`, or `none`.
pub fn play_check(alloc: Global, kind: &str, text: &[u8], answer: &mut Written) {
    match kind {
        "document" => add_faults(faults_of(alloc, text), answer),
        "scripts" => add_faults(script_faults_of(alloc, text), answer),
        _ => answer.add_line("no such text"),
    }
}

fn add_faults<F: Display + Drop>(faults: Result<Vec<F>, OutOfMemory>, answer: &mut Written) {
    let Ok(faults) = faults else {
        return answer.run_out();
    };
    for fault in &faults {
        answer.show(fault);
        answer.add("\n");
    }
    if faults.is_empty() {
        answer.add_line("none");
    }
}
