//! All faults of a text, a line for each.
ghost use Rattle.std.specs.Prelude.{◌≡◌, ◌⊎◌, [], List, IfOk, string_bytes};
ghost use Rattle.city_doc.specs.declared.fault.ReadFault as fault;
ghost use Rattle.city_doc.specs.document.Accepted.{IsAccepted};
ghost use Rattle.city_doc.specs.document.AllFaults.{AreFaultsOf};
ghost use Rattle.city_doc.specs.document.Faults.{DocumentFault};
ghost use Rattle.city_diagnostics.specs.Lines.{AreLinesOf, FirstLineIs, IsLineOf};
ghost use Rattle.city_diagnostics.specs.ModelLines.{Tells};

pub mod scripts;
mod warnings;

use crate::line::document_line;
use city_details::{
    Diagnostic, Document, ModelFault, ObjectFault, TextFault, text_diagnostic, tree_of,
};
use city_doc::{ReadFault, faults_of};
use city_model::OutOfMemory;
pub use scripts::check_scripts;
use serde_json::Value;
use std::alloc::Global;
pub use warnings::warn_scripts;

/// Writes a line of JSON for each fault of a document, in the order of the faults' numbers and then
/// of the ids.
///
/// `is_given` says whether the text is as given, not encoded.
pub fn check_document(alloc: Global, text: &[u8], is_given: bool) -> Result<Vec<u8>, OutOfMemory>
    ensures lines { IfOk result (λ lines. (faults : List fault.ReadFault)
        × AreFaultsOf text.now faults × AreLinesOf Tells faults lines.items) }
    ensures accepted { IfOk result (λ lines. lines.items ≡ [] → IsAccepted text.now) }
    ensures none { IsAccepted text.now → IfOk result (λ lines. lines.items ≡ []) }

    // The first line tells a fault that `read_city` answers, and any one it answers but out of
    // memory.
    ensures first { IfOk result (λ lines. (lines.items ≡ [])
        ⊎ ((f : fault.ReadFault) × DocumentFault text.now f × FirstLineIs (Tells f) lines.items)) }
    ensures answered { IfOk result (λ lines. (f : fault.ReadFault) → DocumentFault text.now f
        → (f ≡ ReadFault.OutOfMemory) ⊎ FirstLineIs (Tells f) lines.items) }
{
    let faults = faults_of(alloc, text)?;
    let lines = document_lines(alloc, text, is_given, faults.as_slice())?;
    Ok(lines)
}

/// The lines of these faults of a document.
fn document_lines(
    alloc: Global,
    text: &[u8],
    is_given: bool,
    faults: &[ReadFault],
) -> Result<Vec<u8>, OutOfMemory>
    ensures { IfOk result (λ lines. AreLinesOf Tells faults.now lines.items) }
{
    let mut lines = Vec::new(alloc);
    let Some(first) = faults.first() else {
        return Ok(lines);
    };
    let tree = tree_for(alloc, text, text_fault_of(first))?;
    let told = document_faults(alloc, faults)?;
    let document = Document::new(alloc, &tree, told.as_slice())?;
    for fault in faults {
        let line = line_of(alloc, text, is_given, &document, fault)?;
        lines.extend_from_slice(line.as_bytes())?;
    }
    Ok(lines)
}

/// The line of a fault of the document, or of its text.
fn line_of(
    alloc: Global,
    text: &[u8],
    is_given: bool,
    document: &Document<'_>,
    fault: &ReadFault,
) -> Result<String, OutOfMemory>
    ensures { IfOk result (λ line. IsLineOf (Tells fault.now) (string_bytes line)) }
{
    let diagnostic = document_diagnostic(alloc, text, is_given, document, fault)?;
    document_line(alloc, fault, diagnostic)
}

/// What is told of a fault of the document, or of its text.
pub fn document_diagnostic(
    alloc: Global,
    text: &[u8],
    is_given: bool,
    document: &Document<'_>,
    fault: &ReadFault,
) -> Result<Diagnostic, OutOfMemory> {
    if let Some(fault) = text_fault_of(fault) {
        return text_diagnostic(alloc, text, is_given, fault);
    }
    match document_fault_of(fault) {
        None => Ok(Diagnostic::new(alloc)),
        Some(fault) => document.diagnostic(alloc, fault),
    }
}

/// Those of these faults that are faults of a document's tree.
pub fn document_faults<'f>(
    alloc: Global,
    faults: &'f [ReadFault],
) -> Result<Vec<ModelFault<'f>>, OutOfMemory> {
    let mut found = Vec::new(alloc);
    for fault in faults {
        if let Some(fault) = document_fault_of(fault) {
            found.push(fault)?;
        }
    }
    Ok(found)
}

/// A document's fault as a `ModelFault`, if it is one.
fn document_fault_of(fault: &ReadFault) -> Option<ModelFault<'_>> {
    let (id, wrong) = match fault {
        ReadFault::OutOfMemory | ReadFault::TooLong | ReadFault::NotJson | ReadFault::NotWhole => {
            return None;
        }
        ReadFault::NotCityJson(member) => return Some(ModelFault::WrongMember(member.as_str())),
        ReadFault::UnknownType(id) => (id, ObjectFault::UnknownType),
        ReadFault::Unsupported(id, _) => (id, ObjectFault::Unsupported),
        ReadFault::BadGeometry(id) => (id, ObjectFault::BadGeometry),
        ReadFault::BadVertex(id) => (id, ObjectFault::BadVertex),
        ReadFault::BadRing(id) => (id, ObjectFault::BadRing),
        ReadFault::Relations(id) => (id, ObjectFault::Relations),
        ReadFault::OpenShell(id) => (id, ObjectFault::OpenShell),
    };
    Some(ModelFault::WrongObject(id.as_str(), wrong))
}

/// The tree of a text, to look up faults in; `null` for a fault of the text itself. Such a fault
/// stands alone.
pub fn tree_for(
    alloc: Global,
    text: &[u8],
    fault: Option<TextFault>,
) -> Result<Value, OutOfMemory> {
    match fault {
        None => tree_of(alloc, text),
        Some(_) => Ok(Value::Null),
    }
}

/// A document's fault as a `TextFault`, if it is one.
pub fn text_fault_of(fault: &ReadFault) -> Option<TextFault> {
    match fault {
        ReadFault::TooLong => Some(TextFault::TooLong),
        ReadFault::NotJson => Some(TextFault::NotJson),
        ReadFault::NotWhole => Some(TextFault::NotWhole),
        _ => None,
    }
}
