//! Scripts, and single commands.
ghost use Rattle.std.specs.Prelude.{◌≡◌, ◌++◌, [], ◌∷◌, IfOk, IfSome, OnOk, option_map};
ghost use Rattle.city_tokens.specs.script.Scripts.{IsReadAs};
ghost use Rattle.city_lines.specs.Requests.{script_text, command_text, vertices_text};

use crate::fault::LineFault;
use city_diagnostics::check_scripts;
use city_members::sequence::Sequence;
use city_model::OutOfMemory;
use city_model::script::Script;
use city_scripts::{ScriptFault, read_scripts};
use std::alloc::Global;

/// The script of its JSON text.
pub fn script_in(alloc: Global, text: &str) -> Result<Script, LineFault>
    ensures { IfOk result (λ s. IsReadAs (script_text text.now) (s ∷ [])) }
{
    let whole = listed(alloc, text)?;
    only_script(alloc, whole.as_slice())
}

/// The script of one command, and a commit that isn't meant. The command's boundaries index these vertices.
pub fn command_in(alloc: Global, text: &str, vertices: Option<&str>) -> Result<Script, LineFault>
    ensures { IfOk result (λ s. IsReadAs (command_text text.now (option_map (λ v. v.now) vertices.entry)) (s ∷ [])) }
{
    let whole = scripted(alloc, text, vertices)?;
    only_script(alloc, whole.as_slice())
}

/// The text of scripts that has this one alone.
fn listed(alloc: Global, text: &str) -> Result<Vec<u8>, OutOfMemory>
    ensures { IfOk result (λ whole. whole.items ≡ script_text text.now) }
{
    let mut whole = Vec::new(alloc);
    whole.push(b'[')?;
    whole.extend_from_slice(text.as_bytes())?;
    whole.push(b']')?;
    Ok(whole)
}

/// The text of scripts that has one script, of this command.
fn scripted(alloc: Global, text: &str, vertices: Option<&str>) -> Result<Vec<u8>, OutOfMemory>
    ensures { IfOk result (λ whole. whole.items
        ≡ command_text text.now (option_map (λ v. v.now) vertices.entry)) }
{
    let mut whole = Vec::new(alloc);
    whole.extend_from_slice(b"[{\"name\":\"\",\"commands\":[")?;
    whole.extend_from_slice(text.as_bytes())?;
    whole.extend_from_slice(b",\"commit\"]")?;
    add_vertices(vertices, &mut whole)?;
    whole.extend_from_slice(b"}]")?;
    Ok(whole)
}

/// Adds the vertices of a script.
fn add_vertices(vertices: Option<&str>, whole: &mut Vec<u8>) -> Result<(), OutOfMemory>
    ensures { OnOk result (whole.new.items
        ≡ whole.old.items ++ vertices_text (option_map (λ v. v.now) vertices.entry)) }
{
    match vertices {
        None => Ok(()),
        Some(vertices) => {
            whole.extend_from_slice(b",\"vertices\":")?;
            whole.extend_from_slice(vertices.as_bytes())?;
            Ok(())
        }
    }
}

/// The script of a text of one script.
fn only_script(alloc: Global, text: &[u8]) -> Result<Script, LineFault>
    ensures { IfOk result (λ s. IsReadAs text.now (s ∷ [])) }
{
    match read_scripts(alloc, text) {
        Ok(scripts) => match only(scripts) {
            Some(script) => Ok(script),
            None => Err(LineFault::NoRequest),
        },
        Err(ScriptFault::OutOfMemory) => Err(LineFault::NoMemory),
        Err(_) => Err(told(alloc, text)?),
    }
}

/// The script of a list of one.
fn only(scripts: Sequence<Script>) -> Option<Script>
    ensures { IfSome result (λ s. scripts ≡ s ∷ []) }
{
    let mut scripts = scripts;
    let script = scripts.pop()?;
    if scripts.len() == 0 {
        Some(script)
    } else {
        None
    }
}

/// What `check_scripts` tells of a refused text first.
fn told(alloc: Global, text: &[u8]) -> Result<LineFault, OutOfMemory> {
    let mut lines = check_scripts(alloc, text, false)?;
    if let Some(end) = lines.as_slice().iter().position(|byte| *byte == b'\n') {
        lines.truncate(end);
    }
    Ok(LineFault::Refused(lines))
}
