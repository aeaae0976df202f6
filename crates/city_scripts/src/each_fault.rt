//! Finds all faults of the commands of a text of scripts, one kind after another.
ghost use Rattle.std.specs.Prelude.{◌≡◌, ◌++◌, OnOk, map};
ghost use Rattle.serde_json.specs.View.{view};
ghost use Rattle.city_scripts.specs.AllFaults.{is_misplaced};
ghost use Rattle.city_scripts.specs.internal.Told.{Finder, bad_command, bad_vertex, told_in, told_each};
ghost use Rattle.city_scripts.specs.internal.Told.{numbered_view};

use crate::command_faults::{is_bad_command, names_bad_vertex};
use crate::fault::ScriptFault;
use crate::faults::vertex_count;
use crate::numbered::NumberedForm;
use city_model::OutOfMemory;
use serde_json::Value;

/// A kind of fault.
pub trait Search {
    ghost found: { Finder };

    /// The fault, if this command of a script with so many vertices has it.
    fn look(vertices: usize, script: usize, number: usize, command: &Value) -> Option<ScriptFault>
        ensures { result ≡ found vertices script number (view command.now) };
}

/// Adds the faults of this kind in the commands of a script.
fn tell_in<S: Search>(
    numbered: &NumberedForm,
    faults: &mut Vec<ScriptFault>,
) -> Result<(), OutOfMemory>
    ensures { OnOk result (faults.new.items
        ≡ faults.old.items ++ told_in S.found (numbered_view numbered.now).0 (numbered_view numbered.now).1) }
{
    let vertices = vertex_count(&numbered.form);
    for (i, command) in numbered.form.commands.iter().enumerate() {
        if let Some(fault) = S::look(vertices, numbered.number, i, command) {
            faults.push(fault)?;
        }
    }
    Ok(())
}

/// Adds the faults of this kind in all scripts, in their order.
pub fn tell_each<S: Search>(
    forms: &[NumberedForm],
    faults: &mut Vec<ScriptFault>,
) -> Result<(), OutOfMemory>
    ensures { OnOk result (faults.new.items
        ≡ faults.old.items ++ told_each S.found (map numbered_view forms.now)) }
{
    for numbered in forms {
        tell_in::<S>(numbered, faults)?;
    }
    Ok(())
}

pub struct BadCommand;

/// A position without a vertex of the script, in a command without `BadCommand`.
pub struct BadVertex;

impl Search for BadCommand {
    ghost found = { bad_command };

    fn look(
        _vertices: usize,
        script: usize,
        number: usize,
        command: &Value,
    ) -> Option<ScriptFault> {
        if is_bad_command(command) {
            Some(ScriptFault::BadCommand(script, number))
        } else {
            None
        }
    }
}

/// Whether a position has no vertex, among so many; false if the command is bad.
fn is_misplaced(vertices: usize, command: &Value) -> bool
    ensures { result ≡ is_misplaced vertices (view command.now) }
{
    !is_bad_command(command) && names_bad_vertex(vertices, command)
}

impl Search for BadVertex {
    ghost found = { bad_vertex };

    fn look(vertices: usize, script: usize, number: usize, command: &Value) -> Option<ScriptFault> {
        if is_misplaced(vertices, command) {
            Some(ScriptFault::BadVertex(script, number))
        } else {
            None
        }
    }
}
