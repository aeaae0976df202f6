//! Too many scripts, or too many commands in one.
use crate::diagnostic::Diagnostic;
use crate::script::item::broken_rule;
use crate::script::place::narrow_to_script;
use city_model::OutOfMemory;
use city_tokens::{MAX_COMMANDS, MAX_SCRIPTS};
use serde_json::Value;
use std::fmt::Write;

/// Tells the number of scripts if it is too large, else the first script with too many commands.
pub fn tell_too_many(tree: &Value, diagnostic: &mut Diagnostic) -> Result<(), OutOfMemory> {
    let Some(items) = tree.as_array() else {
        return tell_scripts(0, diagnostic);
    };
    if items.len() <= MAX_SCRIPTS {
        if let Some((script, commands)) = first_too_long(items.as_slice()) {
            narrow_to_script(tree, script, diagnostic)?;
            return tell_commands(script, commands, diagnostic);
        }
    }
    tell_scripts(items.len(), diagnostic)
}

/// The first script with too many commands, and their number.
fn first_too_long(items: &[Value]) -> Option<(usize, usize)> {
    for (script, item) in items.iter().enumerate() {
        let commands = command_count(item);
        if commands > MAX_COMMANDS && broken_rule(item).is_none() {
            return Some((script, commands));
        }
    }
    None
}

/// The number of an item's commands.
fn command_count(item: &Value) -> usize {
    match item.get("commands").and_then(Value::as_array) {
        Some(commands) => commands.len(),
        None => 0,
    }
}

fn tell_scripts(scripts: usize, diagnostic: &mut Diagnostic) -> Result<(), OutOfMemory> {
    diagnostic.details.number("scripts", scripts)?;
    write!(
        diagnostic.told("Split the text, and run its parts one after the other."),
        "There are {scripts} scripts, and a text may have {MAX_SCRIPTS}."
    )?;
    Ok(())
}

fn tell_commands(
    script: usize,
    commands: usize,
    diagnostic: &mut Diagnostic,
) -> Result<(), OutOfMemory> {
    diagnostic.details.number("script", script)?;
    diagnostic.details.number("commands", commands)?;
    write!(
        diagnostic.told("Split the script into several."),
        "It has {commands} commands, and a script may have {MAX_COMMANDS}."
    )?;
    Ok(())
}
