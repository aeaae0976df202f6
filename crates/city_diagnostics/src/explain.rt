//! Explains one fault, or the refused scripts of a run, to a person.
mod ends;
mod shown;

use crate::check::scripts::{script_text_fault_of, scripts_diagnostic};
use crate::check::{document_diagnostic, document_faults, text_fault_of, tree_for};
use crate::explain::shown::add_shown;
use city_details::{
    Diagnostic, Document, Refusal, RefusedAt, Sight, cause_name, refusal_diagnostic,
};
use city_doc::ReadFault;
use city_model::OutOfMemory;
use city_scripts::ScriptFault;
pub use ends::{explain_ends, is_refused};
pub use shown::shown_name;
use std::alloc::Global;
use std::slice;

/// Explains a fault of a document: its place, the problem and the cure, in indented lines, each
/// with its newline. `is_given` says whether the text is as given, not encoded.
///
/// Texts named by a fault are shown as JSON texts, and nothing in them can steer a terminal.
pub fn explain_document(
    alloc: Global,
    text: &[u8],
    is_given: bool,
    fault: &ReadFault,
) -> Result<String, OutOfMemory> {
    let tree = tree_for(alloc, text, text_fault_of(fault))?;
    let told = document_faults(alloc, slice::from_ref(fault))?;
    let document = Document::new(alloc, &tree, told.as_slice())?;
    let diagnostic = document_diagnostic(alloc, text, is_given, &document, fault)?;
    explained(alloc, &diagnostic)
}

/// The same for a fault of scripts.
pub fn explain_scripts(
    alloc: Global,
    text: &[u8],
    is_given: bool,
    fault: &ScriptFault,
) -> Result<String, OutOfMemory> {
    let tree = tree_for(alloc, text, script_text_fault_of(fault))?;
    let diagnostic = scripts_diagnostic(alloc, text, is_given, &tree, fault)?;
    explained(alloc, &diagnostic)
}

/// Explains a refused script: a line with its number and the cause, and then the same lines as of a fault.
pub fn explain_refusal<S: Sight>(
    alloc: Global,
    at: RefusedAt<'_>,
    refusal: Refusal<'_, '_>,
    sight: &S,
) -> Result<String, OutOfMemory> {
    let diagnostic = refusal_diagnostic(alloc, Some(at), refusal, sight)?;
    let (script, cause) = (at.script, cause_name(refusal.cause));
    let mut lines = format!(in alloc; "script {script} refused: {cause}\n")?;
    let told = explained(alloc, &diagnostic)?;
    lines.push_str(told.as_str())?;
    Ok(lines)
}

/// The lines of a diagnostic, without empty ones.
fn explained(alloc: Global, diagnostic: &Diagnostic) -> Result<String, OutOfMemory> {
    let mut lines = String::new(alloc);
    add_line(&mut lines, "where", diagnostic.place.as_str())?;
    add_line(&mut lines, "what", diagnostic.message.as_str())?;
    add_line(&mut lines, "cure", diagnostic.cure)?;
    Ok(lines)
}

fn add_line(lines: &mut String, name: &str, words: &str) -> Result<(), OutOfMemory> {
    if words.is_empty() {
        return Ok(());
    }
    lines.push_str("  ")?;
    lines.push_str(name)?;
    lines.push_str(": ")?;
    add_shown(lines, words)?;
    lines.push_str("\n")?;
    Ok(())
}
