//! The verb `rewrite`: scripts read, written as a text and read again.
use crate::scripts::add_script_fault;
use crate::written::Written;
use city_scripts::{ScriptFault, read_scripts, write_scripts};
use std::alloc::Global;

/// Hashes points.
const SEED: u64 = 7;

/// Answers with the text written for the scripts of a text, or with the fault of the text. If the scripts of the
/// written text are written otherwise, that follows.
pub fn play_rewrite(alloc: Global, text: &[u8], answer: &mut Written) {
    let mut first = Written::new(alloc);
    if let Err(fault) = add_rewritten(alloc, text, &mut first) {
        return add_script_fault(alloc, fault, answer);
    }
    answer.add_written(&first);
    let mut again = Written::new(alloc);
    if let Err(fault) = add_rewritten(alloc, first.as_slice(), &mut again) {
        add_script_fault(alloc, fault, &mut again);
    }
    if again.as_slice() != first.as_slice() {
        answer.add("again: ");
        answer.add_written(&again);
    }
}

/// Adds the line written for the scripts of a text.
fn add_rewritten(alloc: Global, text: &[u8], answer: &mut Written) -> Result<(), ScriptFault> {
    let scripts = read_scripts(alloc, text)?;
    match write_scripts(alloc, SEED, scripts.as_slice()) {
        Ok(text) => answer.add_lines(text.as_slice()),
        Err(_) => answer.run_out(),
    }
    Ok(())
}
