//! The verbs `lines` and `explain`: diagnostics of a text.
use crate::written::Written;
use city_diagnostics::{check_document, check_scripts, explain_document, explain_scripts};
use city_doc::faults_of;
use city_model::OutOfMemory;
use city_scripts::script_faults_of;
use std::alloc::Global;
use std::fmt::Display;

/// Answers with the line of each fault of a text, a `document` or `scripts`, or `none`.
pub fn play_lines(alloc: Global, kind: &str, text: &[u8], answer: &mut Written) {
    let lines = match kind {
        "document" => check_document(alloc, text, true),
        "scripts" => check_scripts(alloc, text, true),
        _ => return answer.add_line("no such text"),
    };
    match lines {
        Ok(lines) if lines.is_empty() => answer.add_line("none"),
        Ok(lines) => answer.add_bytes(lines.as_slice()),
        Err(OutOfMemory) => answer.run_out(),
    }
}

/// Answers with each fault by its `Display`, and its explanation for a person.
pub fn play_explain(alloc: Global, kind: &str, text: &[u8], answer: &mut Written) {
    let explained = match kind {
        "document" => explain_faults(alloc, text, answer),
        "scripts" => explain_script_faults(alloc, text, answer),
        _ => return answer.add_line("no such text"),
    };
    if explained.is_err() {
        answer.run_out();
    }
}

fn explain_faults(alloc: Global, text: &[u8], answer: &mut Written) -> Result<(), OutOfMemory> {
    let faults = faults_of(alloc, text)?;
    for fault in &faults {
        let lines = explain_document(alloc, text, true, fault)?;
        add_explained(fault, lines.as_str(), answer);
    }
    Ok(())
}

fn explain_script_faults(
    alloc: Global,
    text: &[u8],
    answer: &mut Written,
) -> Result<(), OutOfMemory> {
    let faults = script_faults_of(alloc, text)?;
    for fault in &faults {
        let lines = explain_scripts(alloc, text, true, fault)?;
        add_explained(fault, lines.as_str(), answer);
    }
    Ok(())
}

fn add_explained<F: Display>(fault: &F, lines: &str, answer: &mut Written) {
    answer.show(fault);
    answer.add("\n");
    answer.add(lines);
}
