//! The verb `canonical`: the canonical form of a model with numbers of any form.
use crate::written::Written;
use city_canonical::{CanonicalFault, canonical};
use std::alloc::Global;

/// Answers with the canonical form of a text, or its fault; and with the form's own canonical form if it is another.
pub fn play_canonical(alloc: Global, text: &[u8], answer: &mut Written) {
    match canonical(alloc, text) {
        Ok(form) => {
            answer.add_lines(form.as_slice());
            add_again(alloc, form.as_slice(), answer);
        }
        Err(fault) => add_canonical_fault(&fault, answer),
    }
}

/// Adds the canonical form of a canonical form, if it is another.
fn add_again(alloc: Global, form: &[u8], answer: &mut Written) {
    match canonical(alloc, form) {
        Ok(again) if again.as_slice() == form => {}
        Ok(again) => answer.add_lines(again.as_slice()),
        Err(fault) => add_canonical_fault(&fault, answer),
    }
}

fn add_canonical_fault(fault: &CanonicalFault, answer: &mut Written) {
    match fault {
        CanonicalFault::OutOfMemory => answer.add_line("out of memory"),
        CanonicalFault::NotJson => answer.add_line("no JSON"),
        CanonicalFault::NotModel(fault) => {
            answer.add("no model: ");
            answer.show(fault);
            answer.add("\n");
        }
    }
}
