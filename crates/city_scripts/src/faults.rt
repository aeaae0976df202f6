//! Judges a text of scripts: finds its first fault.
ghost use Rattle.std.specs.Prelude.{◌≡◌, ◌⊎◌, ℕ, true, Bool, None, MatchOption, option_map, option_and_then, map};
ghost use Rattle.std.specs.List.{list_all};
ghost use Rattle.serde_json.specs.Data.{Data};
ghost use Rattle.serde_json.specs.View.{view};
ghost use Rattle.city_members.specs.Integral.{is_integral};
ghost use Rattle.city_scripts.specs.CommandFaults.{is_bad_command, names_bad_vertex};
ghost use Rattle.city_tokens.specs.tree.Lists.{array_of, all_read};
ghost use Rattle.city_tokens.specs.script.Scripts.{count_of, vertex_count, parts_of, scripts_of_parts, scripts_of};
ghost use Rattle.city_scripts.specs.internal.Forms.{parts_views};
ghost use Rattle.city_scripts.specs.internal.Searches.{first_in, first_command};
ghost use Rattle.city_scripts.specs.Faults.{PartsFault, ItemsFault, TreeFault, ScriptTextFault};
ghost use Rattle.city_scripts.specs.internal.Faultless.{AreFaultlessParts};
ghost use Rattle.city_tokens.specs.tree.Texts.{HasTree};

use crate::command_faults::{is_bad_command, names_bad_vertex};
use crate::fault::ScriptFault;
use crate::parts::{are_too_many, forms_of};
use crate::script_form::ScriptForm;
use city_doc::{into_array, parse};
use serde_json::Value;
use std::alloc::Global;

/// A fault of a command.
trait CommandTest {
    ghost test: { ℕ → Data → Bool };

    /// Whether a command of a script with so many vertices has the fault.
    fn judge(vertices: usize, command: &Value) -> bool
        ensures { result ≡ test vertices (view command.now) };
}

struct BadCommand;

struct NamesBadVertex;

impl CommandTest for BadCommand {
    ghost test = { λ _ d. is_bad_command d };

    fn judge(_vertices: usize, command: &Value) -> bool {
        is_bad_command(command)
    }
}

impl CommandTest for NamesBadVertex {
    ghost test = { names_bad_vertex };

    fn judge(vertices: usize, command: &Value) -> bool {
        names_bad_vertex(vertices, command)
    }
}

/// How many items an array has; another value has none.
fn item_count(value: &Value) -> usize
    ensures { result ≡ count_of (array_of (view value.now)) }
{
    match value.as_array() {
        Some(items) => items.as_slice().len(),
        None => 0,
    }
}

/// How many vertices a script has.
pub fn vertex_count(form: &ScriptForm) -> usize
    ensures { result ≡ vertex_count (option_map view form.now.vertices) }
{
    match &form.vertices {
        Some(vertices) => item_count(vertices),
        None => 0,
    }
}

/// The first of a script's commands with the fault.
fn first_in<J: CommandTest>(vertices: usize, commands: &[Value]) -> Option<usize>
    ensures { result ≡ first_in J.test vertices (map view commands.now) }
{
    for (i, command) in commands.iter().enumerate() {
        if J::judge(vertices, command) {
            return Some(i);
        }
    }
    None
}

/// The first script with such a command, and its first such command.
fn first_command<J: CommandTest>(forms: &[ScriptForm]) -> Option<(usize, usize)>
    ensures { result ≡ first_command J.test (parts_views forms.now) }
{
    for (n, form) in forms.iter().enumerate() {
        if let Some(i) = first_in::<J>(vertex_count(form), form.commands.as_slice()) {
            return Some((n, i));
        }
    }
    None
}

/// The first fault of scripts of these forms.
pub fn parts_fault(forms: &[ScriptForm]) -> Option<ScriptFault>
    ensures { MatchOption result (AreFaultlessParts (parts_views forms.now))
        (λ f. PartsFault (parts_views forms.now) f) }
{
    if are_too_many(forms) {
        return Some(ScriptFault::TooMany);
    }
    if let Some((n, i)) = first_command::<BadCommand>(forms) {
        return Some(ScriptFault::BadCommand(n, i));
    }
    if let Some((n, i)) = first_command::<NamesBadVertex>(forms) {
        return Some(ScriptFault::BadVertex(n, i));
    }
    None
}

/// The first fault of an array's items, if they stand for no scripts.
fn items_fault(alloc: Global, items: Vec<Value>) -> ScriptFault
    requires whole { list_all is_integral (map view items.items) ≡ true }
    requires none { option_and_then scripts_of_parts (all_read parts_of (map view items.items))
        ≡ None }
    ensures { (result ≡ ScriptFault.OutOfMemory) ⊎ ItemsFault (map view items.items) result }
{
    let forms = match forms_of(alloc, items) {
        Ok(forms) => forms,
        Err(fault) => return fault,
    };
    match parts_fault(forms.as_slice()) {
        Some(fault) => fault,
        None => unreachable!(),
    }
}

/// The first fault of a tree of whole numbers, if it stands for no scripts.
fn tree_fault(alloc: Global, tree: Value) -> ScriptFault
    requires whole { is_integral (view tree) ≡ true }
    requires none { scripts_of (view tree) ≡ None }
    ensures { (result ≡ ScriptFault.OutOfMemory) ⊎ TreeFault (view tree) result }
{
    match into_array(tree) {
        Some(items) => items_fault(alloc, items),
        None => ScriptFault::NotScripts,
    }
}

/// The first fault of a text, if it stands for no scripts, or `OutOfMemory`.
pub fn first_fault(alloc: Global, bytes: &[u8]) -> ScriptFault
    requires { (d : Data) → HasTree bytes.now d → scripts_of d ≡ None }
    ensures { ScriptTextFault bytes.now result }
{
    match parse(alloc, bytes) {
        Ok(tree) => tree_fault(alloc, tree),
        Err(fault) => fault.into(),
    }
}
