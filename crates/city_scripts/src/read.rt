//! Reads a text of scripts: from its tokens, or else its tree is taken apart, and each command is built at once.
ghost use Rattle.std.specs.Prelude.{◌≡◌, ◌⊎◌, List, map, IfOk, IfErr, OnOk, option_map};
ghost use Rattle.serde_json.specs.View.{view};
ghost use Rattle.city_model.specs.Runs.{Scripted};
ghost use Rattle.city_tokens.specs.tree.Texts.{IsReadable};
ghost use Rattle.city_tokens.specs.script.Scripts.{IsReadAs, vertex_points, script_of, scripts_of};
ghost use Rattle.city_scripts.specs.Faults.{ScriptTextFault};
ghost use Rattle.city_tokens.specs.script.Commands.{command_of};
ghost use Rattle.city_tokens.specs.tree.Lists.{all_read};
ghost use Rattle.city_scripts.specs.internal.Forms.{parts_view};
ghost use Rattle.city_tokens.specs.internal.ScriptItems.{script_of_item};

use crate::command::command_of;
use crate::fault::ScriptFault;
use crate::faults::first_fault;
use crate::parts::{has_too_many_commands, parts_of};
use crate::script_form::ScriptForm;
use city_doc::{into_array, parse, points_of};
use city_members::sequence::Sequence;
use city_model::OutOfMemory;
use city_model::command::Command;
use city_model::object::Point;
use city_model::script::Script;
use city_texts::{Pieces, streamed_scripts, streamed_scripts_by};
use city_tokens::MAX_SCRIPTS;
use serde_json::Value;
use std::alloc::Global;
use std::thread::Threads;

/// Reads a text of scripts.
///
/// The fault is the text's first in the order of `ScriptFault`'s list, at the least script and then
/// the least command; `OutOfMemory` may be answered for any text. Unless memory runs out, the answer
/// is `Ok` exactly if the text isn't too long, its numbers are whole, and it stands for scripts.
pub fn read_scripts(alloc: Global, bytes: &[u8]) -> Result<Sequence<Script>, ScriptFault>
    ensures readable { OnOk result (IsReadable bytes.now) }
    ensures fault { IfErr result (λ f. ScriptTextFault bytes.now f) }
    ensures read { IfOk result (λ ss. IsReadAs bytes.now ss) }
    ensures refused { IfErr result (λ f. (f ≡ ScriptFault.OutOfMemory)
        ⊎ ((ss : List Scripted) → IsReadAs bytes.now ss → ⊥)) }
{
    match streamed_scripts(alloc, bytes) {
        Some(scripts) => Ok(scripts),
        None => read_tree(alloc, bytes),
    }
}

/// Reads a text of scripts as `read_scripts` does, and answers the same; a large one is read in pieces, each by a
/// thread.
pub fn read_scripts_by<R: Threads + Sync>(
    rt: &R,
    alloc: Global,
    bytes: &[u8],
    pieces: Pieces,
) -> Result<Sequence<Script>, ScriptFault>
    ensures readable { OnOk result (IsReadable bytes.now) }
    ensures fault { IfErr result (λ f. ScriptTextFault bytes.now f) }
    ensures read { IfOk result (λ ss. IsReadAs bytes.now ss) }
    ensures refused { IfErr result (λ f. (f ≡ ScriptFault.OutOfMemory)
        ⊎ ((ss : List Scripted) → IsReadAs bytes.now ss → ⊥)) }
{
    match streamed_scripts_by(rt, alloc, bytes, pieces) {
        Some(scripts) => Ok(scripts),
        None => read_tree(alloc, bytes),
    }
}

/// Reads a text of scripts from its tree.
fn read_tree(alloc: Global, bytes: &[u8]) -> Result<Sequence<Script>, ScriptFault>
    ensures readable { OnOk result (IsReadable bytes.now) }
    ensures fault { IfErr result (λ f. ScriptTextFault bytes.now f) }
    ensures read { IfOk result (λ ss. IsReadAs bytes.now ss) }
    ensures refused { IfErr result (λ f. (f ≡ ScriptFault.OutOfMemory)
        ⊎ ((ss : List Scripted) → IsReadAs bytes.now ss → ⊥)) }
{
    let tree = parse(alloc, bytes)?;
    match scripts_of(alloc, tree)? {
        Some(scripts) => Ok(scripts),
        None => Err(first_fault(alloc, bytes)),
    }
}

/// The scripts of a tree, if it stands for any.
fn scripts_of(alloc: Global, tree: Value) -> Result<Option<Sequence<Script>>, OutOfMemory>
    ensures { IfOk result (λ o. o ≡ scripts_of (view tree)) }
{
    let Some(items) = into_array(tree) else {
        return Ok(None);
    };
    if items.len() > MAX_SCRIPTS {
        return Ok(None);
    }
    scripts_of_items(alloc, items)
}

/// The scripts of an array's items, if each stands for one.
fn scripts_of_items(
    alloc: Global,
    items: Vec<Value>,
) -> Result<Option<Sequence<Script>>, OutOfMemory>
    ensures { IfOk result (λ o. o ≡ all_read script_of_item (map view items.items)) }
{
    let mut scripts = Sequence::with_capacity(alloc, items.len())?;
    for item in items {
        let Some(script) = script_of_item(alloc, item)? else {
            return Ok(None);
        };
        scripts.push(script)?;
    }
    Ok(Some(scripts))
}

/// The script of an item, unless it has too many commands.
fn script_of_item(alloc: Global, item: Value) -> Result<Option<Script>, OutOfMemory>
    ensures { IfOk result (λ o. o ≡ script_of_item (view item)) }
{
    let Some(form) = parts_of(item) else {
        return Ok(None);
    };
    if has_too_many_commands(&form) {
        return Ok(None);
    }
    script_of(alloc, form)
}

/// The script of a form, if it stands for one.
fn script_of(alloc: Global, form: ScriptForm) -> Result<Option<Script>, OutOfMemory>
    ensures { IfOk result (λ o. o ≡ script_of (parts_view form)) }
{
    let ScriptForm {
        name,
        commands,
        vertices,
        ..
    } = form;
    let Some(points) = vertex_points(alloc, vertices.as_ref())? else {
        return Ok(None);
    };
    let Some(commands) = commands_of(alloc, points.as_slice(), commands)? else {
        return Ok(None);
    };
    match Script::new(name, commands) {
        Ok(script) => Ok(Some(script)),
        Err(_) => unreachable!(),
    }
}

/// The points of a script's vertices.
fn vertex_points(
    alloc: Global,
    vertices: Option<&Value>,
) -> Result<Option<Sequence<Point>>, OutOfMemory>
    ensures { IfOk result (λ o. o ≡ vertex_points (option_map (λ v. view v.now) vertices.entry)) }
{
    match vertices {
        Some(vertices) => points_of(alloc, vertices),
        None => Ok(Some(Sequence::new(alloc))),
    }
}

/// The commands of these trees, if they stand for any. Positions index these points.
fn commands_of(
    alloc: Global,
    points: &[Point],
    items: Vec<Value>,
) -> Result<Option<Sequence<Command>>, OutOfMemory>
    ensures { IfOk result (λ o. o ≡ all_read (command_of points.now) (map view items.items)) }
{
    let mut commands = Sequence::with_capacity(alloc, items.len())?;
    for item in items {
        let Some(command) = command_of(alloc, points, item)? else {
            return Ok(None);
        };
        commands.push(command)?;
    }
    Ok(Some(commands))
}
