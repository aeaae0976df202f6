//! All faults of a text of scripts, a line for each.
ghost use Rattle.std.specs.Prelude.{◌≡◌, ◌⊎◌, [], List, IfOk, string_bytes};
ghost use Rattle.city_scripts.specs.declared.fault.ScriptFault as fault;
ghost use Rattle.city_scripts.specs.AllFaults.{AreFaultsOf, IsAccepted};
ghost use Rattle.city_scripts.specs.Faults.{ScriptTextFault};
ghost use Rattle.city_diagnostics.specs.Lines.{AreLinesOf, FirstLineIs, IsLineOf};
ghost use Rattle.city_diagnostics.specs.ScriptLines.{TellsScript};

use crate::check::tree_for;
use crate::line::script_line;
use city_details::{Diagnostic, ScriptsFault, TextFault, script_diagnostic, text_diagnostic};
use city_model::OutOfMemory;
use city_scripts::{ScriptFault, script_faults_of};
use serde_json::Value;
use std::alloc::Global;

/// Writes a line of JSON for each fault of a text of scripts, in the order of the faults' numbers,
/// and then of the script and the command. `is_given` says whether the text is as given, not
/// encoded.
pub fn check_scripts(alloc: Global, text: &[u8], is_given: bool) -> Result<Vec<u8>, OutOfMemory>
    ensures lines { IfOk result (λ lines. (faults : List fault.ScriptFault)
        × AreFaultsOf text.now faults × AreLinesOf TellsScript faults lines.items) }
    ensures accepted { IfOk result (λ lines. lines.items ≡ [] → IsAccepted text.now) }
    ensures none { IsAccepted text.now → IfOk result (λ lines. lines.items ≡ []) }

    // The first line tells a fault that `read_scripts` answers, and any one it answers but out of
    // memory.
    ensures first { IfOk result (λ lines. (lines.items ≡ [])
        ⊎ ((f : fault.ScriptFault) × ScriptTextFault text.now f × FirstLineIs (TellsScript f) lines.items)) }
    ensures answered { IfOk result (λ lines. (f : fault.ScriptFault) → ScriptTextFault text.now f
        → (f ≡ ScriptFault.OutOfMemory) ⊎ FirstLineIs (TellsScript f) lines.items) }
{
    let faults = script_faults_of(alloc, text)?;
    let lines = script_lines(alloc, text, is_given, faults.as_slice())?;
    Ok(lines)
}

/// The lines of these faults of scripts.
fn script_lines(
    alloc: Global,
    text: &[u8],
    is_given: bool,
    faults: &[ScriptFault],
) -> Result<Vec<u8>, OutOfMemory>
    ensures { IfOk result (λ lines. AreLinesOf TellsScript faults.now lines.items) }
{
    let mut lines = Vec::new(alloc);
    let Some(first) = faults.first() else {
        return Ok(lines);
    };
    let tree = tree_for(alloc, text, script_text_fault_of(first))?;
    for fault in faults {
        let line = line_of(alloc, text, is_given, &tree, fault)?;
        lines.extend_from_slice(line.as_bytes())?;
    }
    Ok(lines)
}

/// The line of a fault of the scripts, or of their text.
fn line_of(
    alloc: Global,
    text: &[u8],
    is_given: bool,
    tree: &Value,
    fault: &ScriptFault,
) -> Result<String, OutOfMemory>
    ensures { IfOk result (λ line. IsLineOf (TellsScript fault.now) (string_bytes line)) }
{
    let diagnostic = scripts_diagnostic(alloc, text, is_given, tree, fault)?;
    script_line(alloc, fault, diagnostic)
}

/// What is told of a fault of scripts, or of their text.
pub fn scripts_diagnostic(
    alloc: Global,
    text: &[u8],
    is_given: bool,
    tree: &Value,
    fault: &ScriptFault,
) -> Result<Diagnostic, OutOfMemory> {
    match script_text_fault_of(fault) {
        Some(fault) => text_diagnostic(alloc, text, is_given, fault),
        None => script_diagnostic(alloc, tree, scripts_fault_of(fault)),
    }
}

/// A fault of scripts as a `TextFault`, if it is one.
pub fn script_text_fault_of(fault: &ScriptFault) -> Option<TextFault> {
    match fault {
        ScriptFault::TooLong => Some(TextFault::TooLong),
        ScriptFault::NotJson => Some(TextFault::NotJson),
        ScriptFault::NotWhole => Some(TextFault::NotWhole),
        _ => None,
    }
}

/// Another fault of scripts as a `ScriptsFault`.
fn scripts_fault_of(fault: &ScriptFault) -> ScriptsFault {
    match fault {
        ScriptFault::BadScript(script) => ScriptsFault::BadScript(*script),
        ScriptFault::TooMany => ScriptsFault::TooMany,
        ScriptFault::BadCommand(script, command) => ScriptsFault::BadCommand(*script, *command),
        ScriptFault::BadVertex(script, command) => ScriptsFault::BadVertex(*script, *command),
        _ => ScriptsFault::NotScripts,
    }
}
