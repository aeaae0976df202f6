//! The script of a commit, as it stands in a line.
ghost use Rattle.std.specs.Prelude.{◌≡◌, ◌++◌, ◌∷◌, [], ℕ, List, false, IfOk, IfSome};
ghost use Rattle.city_decimals.specs.Texts.{IsDecoded};
ghost use Rattle.city_journal.specs.Entries.{IsScriptOf, IsWrittenAlone, script_by};
ghost use Rattle.city_journal.specs.Steps.{commands_of_steps};
ghost use Rattle.city_scripts.specs.WrittenScripts.{IsShort};
ghost use Rattle.city_writer.specs.script.Canonical.{scripts_text};

use crate::line_parts::{before, behind};
use crate::steps::script_of_steps;
use city_decimals::{DecimalsFault, decode};
use city_live::{Commands, Entry, Unwritten};
use city_members::text::Text;
use city_model::OutOfMemory;
use city_model::script::Script;
use city_tokens::{MAX_COMMANDS, MAX_TEXT};
use city_writer::append_scripts;
use std::alloc::Global;
use std::slice;

/// How deep a text of scripts may nest.
const MAX_DEPTH: usize = 127;

/// The text of a commit's script. With `decimals`, its numbers are as they were written.
///
/// `CannotWrite` if it couldn't be read again.
pub(crate) fn script_text(
    alloc: Global,
    seed: u64,
    decimals: bool,
    entry: &Entry<'_>,
) -> Result<Vec<u8>, Unwritten>
    ensures { IfOk result (λ text. IsScriptOf decimals
        (script_by entry.now.name.now entry.now.commands) text.items) }
{
    if has_many(&entry.commands) {
        return Err(Unwritten::CannotWrite);
    }
    let array = array_by(alloc, seed, entry.name, &entry.commands)?;
    if array.len() > MAX_TEXT || is_deep(array.as_slice()) {
        return Err(Unwritten::CannotWrite);
    }
    let Some(script) = inside(array.as_slice()) else {
        return Err(Unwritten::CannotWrite);
    };
    if decimals {
        decoded(alloc, script)
    } else {
        copied(alloc, script)
    }
}

/// The text between the brackets of an array.
fn inside(array: &[u8]) -> Option<&[u8]>
    ensures { IfSome result (λ text. array.now ≡ 91 ∷ (text.now ++ 93 ∷ [])) }
{
    let rest = behind(array, b"[")?;
    before(rest, b"]")
}

/// The text of an array of the script of these commands, its numbers whole.
fn array_by(
    alloc: Global,
    seed: u64,
    name: &Text,
    commands: &Commands<'_>,
) -> Result<Vec<u8>, Unwritten>
    ensures text { IfOk result (λ text. text.items ≡ scripts_text (script_by name.now commands.now ∷ [])) }
    ensures written { IfOk result (λ _. IsWrittenAlone (script_by name.now commands.now)) }
{
    match commands {
        Commands::Script(script) => array_of(alloc, seed, script),
        Commands::Each(steps) => array_of_steps(alloc, seed, name, steps),
    }
}

/// The text of an array of the script made of the first commands of these and a commit.
fn array_of_steps(
    alloc: Global,
    seed: u64,
    name: &Text,
    steps: &[Script],
) -> Result<Vec<u8>, Unwritten>
    ensures text { IfOk result (λ text. text.items
        ≡ scripts_text ((name.now, commands_of_steps steps.now) ∷ [])) }
    ensures written { IfOk result (λ _. IsWrittenAlone (name.now, commands_of_steps steps.now)) }
{
    match script_of_steps(alloc, name, steps) {
        Ok(Some(script)) => array_of(alloc, seed, &script),
        Ok(None) => Err(Unwritten::CannotWrite),
        Err(OutOfMemory) => Err(Unwritten::OutOfMemory),
    }
}

/// The text of an array of a script, its numbers whole.
fn array_of(alloc: Global, seed: u64, script: &Script) -> Result<Vec<u8>, Unwritten>
    ensures text { IfOk result (λ text. text.items ≡ scripts_text (script.now ∷ [])) }
    ensures written { IfOk result (λ _. IsWrittenAlone script.now) }
{
    match append_scripts(alloc, seed, Vec::new(alloc), slice::from_ref(script)) {
        Ok(text) => Ok(text),
        Err(OutOfMemory) => Err(Unwritten::OutOfMemory),
    }
}

/// The text with its numbers as they were written.
fn decoded(alloc: Global, text: &[u8]) -> Result<Vec<u8>, Unwritten>
    ensures { IfOk result (λ out. IsDecoded text.now out.items) }
{
    match decode(alloc, text) {
        Ok(text) => Ok(text),
        Err(DecimalsFault::OutOfMemory) => Err(Unwritten::OutOfMemory),
        Err(DecimalsFault::NotJson) => Err(Unwritten::CannotWrite),
    }
}

/// A copy of the text.
fn copied(alloc: Global, text: &[u8]) -> Result<Vec<u8>, Unwritten>
    ensures { IfOk result (λ out. out.items ≡ text.now) }
{
    match text.to_vec(alloc) {
        Ok(text) => Ok(text),
        Err(OutOfMemory) => Err(Unwritten::OutOfMemory),
    }
}

/// Whether there are more commands than a script may have. Doesn't allocate.
fn has_many(commands: &Commands<'_>) -> bool
    ensures { (name : List ℕ) → result ≡ false → IsShort (script_by name commands.now) }
{
    match commands {
        Commands::Script(script) => script.commands().len() > MAX_COMMANDS,
        Commands::Each(steps) => steps.len() >= MAX_COMMANDS,
    }
}

/// Where a walk over a JSON text is.
#[derive(Clone, Copy)]
enum At {
    /// Outside of strings.
    Value,
    String,
    /// Behind a backslash.
    Escape,
}

/// Whether a text nests deeper than it may. Doesn't allocate.
fn is_deep(text: &[u8]) -> bool {
    let mut depth: usize = 0;
    let mut at = At::Value;
    for byte in text {
        at = match (at, *byte) {
            (At::Escape, _) => At::String,
            (At::String, b'\\') => At::Escape,
            (At::String, b'"') => At::Value,
            (At::String, _) => At::String,
            (At::Value, b'"') => At::String,
            (At::Value, b'[' | b'{') => {
                if depth >= MAX_DEPTH {
                    return true;
                }
                depth += 1;
                At::Value
            }
            (At::Value, b']' | b'}') => {
                depth = depth.saturating_sub(1);
                At::Value
            }
            (At::Value, _) => At::Value,
        };
    }
    false
}
