//! Warnings: what a run would refuse of scripts, whatever the model holds.
ghost use Rattle.std.specs.Prelude.{◌≡◌, IfOk, IfSome, string_bytes};
ghost use Rattle.city_diagnostics.specs.Lines.{IsLineOf};
ghost use Rattle.city_diagnostics.specs.Warnings.{AreWarnings, Warns};

use crate::line::warning_line;
use city_details::{Refusal, RefusedAt, Sight, cause_name, geometries_of, refusal_diagnostic};
use city_members::text::Id;
use city_model::OutOfMemory;
use city_model::body_fault::geometry_fault;
use city_model::command::{Cause, Command};
use city_model::object::Object;
use city_scripts::{ScriptFault, read_scripts};
use std::alloc::Global;

/// Writes a line of JSON for each put, add and reshape of scripts that has a faulty ring or an open shell, in the order of
/// the scripts and then of the commands. None for a text that is refused.
///
/// Such a command would be refused whatever the model holds, so a line is named by the cause.
pub fn warn_scripts(alloc: Global, text: &[u8]) -> Result<Vec<u8>, OutOfMemory>
    ensures { IfOk result (λ lines. AreWarnings lines.items) }
{
    let mut lines = Vec::new(alloc);
    let scripts = match read_scripts(alloc, text) {
        Ok(scripts) => scripts,
        Err(ScriptFault::OutOfMemory) => return Err(OutOfMemory),
        Err(_) => return Ok(lines),
    };
    for (number, script) in scripts.as_slice().iter().enumerate() {
        for (place, command) in script.commands().iter().enumerate() {
            let at = RefusedAt {
                script: number,
                name: script.name().as_str(),
                command: place,
            };
            if let Some(line) = warning_of(alloc, at, command)? {
                lines.extend_from_slice(line.as_bytes())?;
            }
        }
    }
    Ok(lines)
}

/// The line of a command with a faulty ring or an open shell.
fn warning_of(
    alloc: Global,
    at: RefusedAt<'_>,
    command: &Command,
) -> Result<Option<String>, OutOfMemory>
    ensures { IfOk result (λ line. IfSome line (λ words. IsLineOf Warns (string_bytes words))) }
{
    let Some(cause) = geometry_fault(alloc, geometries_of(command))? else {
        return Ok(None);
    };
    let line = line_for(alloc, at, command, &cause)?;
    Ok(Some(line))
}

/// The line of a command that is refused for a cause.
fn line_for<'r>(
    alloc: Global,
    at: RefusedAt<'_>,
    command: &'r Command,
    cause: &'r Cause,
) -> Result<String, OutOfMemory>
    ensures { IfOk result (λ line. IsLineOf Warns (string_bytes line)) }
{
    let refusal = Refusal {
        command,
        cause,
        past: None,
    };
    let diagnostic = refusal_diagnostic(alloc, Some(at), refusal, &NoObjects)?;
    warning_line(alloc, at, cause_name(cause), diagnostic)
}

/// The objects of a command that isn't run: none is known.
struct NoObjects;

impl Sight for NoObjects {
    fn object(&self, _: &Id) -> Option<&Object> {
        None
    }
}
