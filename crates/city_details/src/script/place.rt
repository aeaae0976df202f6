//! The place of a script or a command: found in the tree, and in words.
use crate::diagnostic::Diagnostic;
use crate::quoted::Quoted;
use city_model::OutOfMemory;
use serde_json::Value;
use std::fmt::Write;

/// Most bytes of a name shown. A longer one would be copied for each fault of its script.
const LONGEST_NAME: usize = 100;

/// The command of this number in the script of this number.
pub fn command_at(tree: &Value, script: usize, command: usize) -> Option<&Value> {
    tree.get(script)?.get("commands")?.get(command)
}

/// The name of a script, if it is a text.
fn name_in(tree: &Value, script: usize) -> Option<&str> {
    tree.get(script)?.get("name")?.as_str()
}

/// Narrows the place to a script, by its number and its name.
pub fn narrow_to_script(
    tree: &Value,
    script: usize,
    diagnostic: &mut Diagnostic,
) -> Result<(), OutOfMemory> {
    narrow_to_named(script, name_in(tree, script), diagnostic)
}

/// Narrows the place to a script, by its number, and by its name if that is known and short enough to be shown.
pub fn narrow_to_named(
    script: usize,
    name: Option<&str>,
    diagnostic: &mut Diagnostic,
) -> Result<(), OutOfMemory> {
    let place = diagnostic.narrowed()?;
    write!(place, "script {script}")?;
    if let Some(name) = name {
        if name.len() <= LONGEST_NAME {
            let name = Quoted(name);
            write!(place, " {name}")?;
        }
    }
    Ok(())
}

/// Narrows the place to a command of a script.
pub fn narrow_to_command(
    tree: &Value,
    script: usize,
    command: usize,
    diagnostic: &mut Diagnostic,
) -> Result<(), OutOfMemory> {
    narrow_to_script(tree, script, diagnostic)?;
    write!(diagnostic.narrowed()?, "command {command}")?;
    Ok(())
}
