//! Reads the forms of scripts: their names and parts. Their commands stay unread.
ghost use Rattle.std.specs.Prelude.{◌≡◌, ◌⊎◌, true, map, Some, IfOk, IfErr, IfSome, codes, option_map};
ghost use Rattle.city_members.specs.Members.{without};
ghost use Rattle.serde_json.specs.View.{view, members_view};
ghost use Rattle.city_tokens.specs.script.CommandForms.{text_in};
ghost use Rattle.city_tokens.specs.tree.Lists.{all_read};
ghost use Rattle.city_tokens.specs.script.Scripts.{is_end_text, is_end_word, word_ends, are_vertices};
ghost use Rattle.city_tokens.specs.script.Scripts.{has_script_members, commands_in, parts_of, parts_in, are_too_many};
ghost use Rattle.city_scripts.specs.internal.Forms.{parts_view, parts_views};
ghost use Rattle.city_tokens.specs.internal.ScriptItems.{has_too_many_commands};
ghost use Rattle.city_scripts.specs.internal.Searches.{first_at, bad_script};

use crate::fault::ScriptFault;
use crate::script_form::ScriptForm;
use city_doc::{into_array, into_text};
use city_members::members::{into_object, member, members_count, take};
use city_members::sequence::Sequence;
use city_members::text::Text;
use city_tokens::{MAX_COMMANDS, MAX_SCRIPTS, are_triples};
use serde_json::{Map, Value};
use std::alloc::Global;

fn is_end_text(text: Option<&str>) -> bool
    ensures { result ≡ is_end_text (option_map (λ s. s.now) text.entry) }
{
    match text {
        None => false,
        Some(word) => word == "commit" || word == "abort",
    }
}

/// Whether a tree is a word that ends a script.
fn is_end_word(tree: &Value) -> bool
    ensures { result ≡ is_end_word (view tree.now) }
{
    is_end_text(tree.as_str())
}

/// Whether the last of the trees, and no other, is a word that ends a script.
fn word_ends(trees: &[Value]) -> bool
    ensures { result ≡ word_ends (map view trees.now) }
{
    for (i, tree) in trees.iter().enumerate() {
        if is_end_word(tree) {
            return i + 1 == trees.len();
        }
    }
    false
}

/// Whether the vertices of a script are absent or an array of arrays of three numbers.
fn are_vertices(vertices: Option<&Value>) -> bool
    ensures { result ≡ are_vertices (option_map (λ v. view v.now) vertices.entry) }
{
    match vertices {
        None => true,
        Some(value) => are_triples(value),
    }
}

/// Whether there are as many members as a script has, and its vertices have their form.
fn has_script_members(members: &Map<String, Value>) -> bool
    ensures { result ≡ has_script_members (members_view members.now.entries) }
{
    let vertices = member(members, "vertices");
    let wanted = if vertices.is_some() { 3 } else { 2 };
    members_count(members) == wanted && are_vertices(vertices)
}

/// Takes the name of a script out, if it is a text.
fn take_name(members: &mut Map<String, Value>) -> Option<Text>
    ensures found { result ≡ text_in (codes "name") (members_view members.old.entries) }
    ensures left { members_view members.new.entries
        ≡ without (codes "name") (members_view members.old.entries) }
{
    into_text(take(members, "name")?)
}

/// Takes the commands of a script out, if the last one, and no other, is a word that ends it.
fn take_commands(members: &mut Map<String, Value>) -> Option<Vec<Value>>
    ensures found { option_map (λ v. map view v.items) result
        ≡ commands_in (members_view members.old.entries) }
    ensures left { members_view members.new.entries
        ≡ without (codes "commands") (members_view members.old.entries) }
    ensures ended { IfSome result (λ v. word_ends (map view v.items) ≡ true) }
{
    let items = into_array(take(members, "commands")?)?;
    if word_ends(items.as_slice()) {
        Some(items)
    } else {
        None
    }
}

/// The parts of a script with these members.
fn parts_in(mut members: Map<String, Value>) -> Option<ScriptForm>
    ensures { option_map parts_view result ≡ parts_in (members_view members.entries) }
{
    let name = take_name(&mut members)?;
    let commands = take_commands(&mut members)?;
    let vertices = take(&mut members, "vertices");
    Some(ScriptForm {
        name,
        commands,
        vertices,
    })
}

/// The parts of a script, if the tree has the form of one.
pub fn parts_of(script: Value) -> Option<ScriptForm>
    ensures { option_map parts_view result ≡ parts_of (view script) }
{
    let members = into_object(script)?;
    if has_script_members(&members) {
        parts_in(members)
    } else {
        None
    }
}

/// The forms of the scripts of an array's items.
///
/// `BadScript` names the first item without that form; `OutOfMemory` if memory ran out for the list.
pub fn forms_of(alloc: Global, items: Vec<Value>) -> Result<Sequence<ScriptForm>, ScriptFault>
    ensures forms { IfOk result (λ fs. all_read parts_of (map view items.items) ≡ Some (parts_views fs)) }
    ensures fault { IfErr result (λ f. (f ≡ ScriptFault.OutOfMemory)
        ⊎ (first_at bad_script 0 (map view items.items) ≡ Some f)) }
{
    let mut forms = Sequence::new(alloc);
    for item in items {
        let Some(form) = parts_of(item) else {
            return Err(ScriptFault::BadScript(forms.len()));
        };
        forms.push(form)?;
    }
    Ok(forms)
}

/// Whether a script has too many commands.
pub fn has_too_many_commands(form: &ScriptForm) -> bool
    ensures { result ≡ has_too_many_commands (parts_view form.now) }
{
    form.commands.len() > MAX_COMMANDS
}

/// Whether there are too many scripts, or too many commands in one.
pub fn are_too_many(forms: &[ScriptForm]) -> bool
    ensures { result ≡ are_too_many (parts_views forms.now) }
{
    if forms.len() > MAX_SCRIPTS {
        return true;
    }
    for form in forms {
        if has_too_many_commands(form) {
            return true;
        }
    }
    false
}
