//! Refused commands.
use crate::diagnostic::Diagnostic;
use crate::quoted::Quoted;
use crate::script::forms::{Form, form_in, form_named, is_word};
use crate::script::given::tell_bad_given;
use crate::script::nearest::{nearest, nearest_member};
use city_model::OutOfMemory;
use serde_json::{Map, Value};
use std::alloc::Global;
use std::fmt::Write;

const CORRECT_NAME: &str = "Correct the name of the command.";

/// A rule for the form of commands, broken by a tree.
#[derive(Clone, Copy)]
enum BrokenForm<'t> {
    /// It is neither a text nor an object.
    NoCommand,
    /// It is an object without members.
    NoMember,
    /// It is a text, but no command.
    Word(&'t str),
    /// It is an object of these members without the name of a command; this is the first of them.
    FirstMember(&'t str, &'t Map<String, Value>),
    /// This member is missing.
    Missing(&'static str),
    /// The command of this name has no such member.
    OtherMember(&'static str, &'t str),
    /// This member isn't a text.
    NoText(&'static str),
}

/// The first rule broken by a tree; none if it has the form of a command.
fn broken_form(command: &Value) -> Option<BrokenForm<'_>> {
    match command {
        Value::String(word) => broken_word(word.as_str()),
        Value::Object(members) => broken_members(members),
        _ => Some(BrokenForm::NoCommand),
    }
}

fn broken_word(word: &str) -> Option<BrokenForm<'_>> {
    if is_word(word) {
        return None;
    }
    Some(BrokenForm::Word(word))
}

fn broken_members(members: &Map<String, Value>) -> Option<BrokenForm<'_>> {
    match form_in(members) {
        Some(form) => broken_by(form, members),
        None => Some(nameless(members)),
    }
}

/// The fault of an object without the name of a command.
fn nameless(members: &Map<String, Value>) -> BrokenForm<'_> {
    match members.keys().next() {
        Some(name) => BrokenForm::FirstMember(name.as_str(), members),
        None => BrokenForm::NoMember,
    }
}

/// The first fault of the members of a command of this form.
fn broken_by<'t>(form: &'static Form, members: &'t Map<String, Value>) -> Option<BrokenForm<'t>> {
    if let Some(member) = form.missing(members) {
        return Some(BrokenForm::Missing(member));
    }
    if let Some(member) = form.other_member(members) {
        return Some(BrokenForm::OtherMember(form.name, member));
    }
    Some(BrokenForm::NoText(form.not_text(members)?))
}

/// Tells the first rule broken by a command: for its form, or for a part of it.
pub fn tell_bad_command(
    alloc: Global,
    command: &Value,
    diagnostic: &mut Diagnostic,
) -> Result<(), OutOfMemory> {
    match broken_form(command) {
        None => tell_bad_given(command, diagnostic),
        Some(BrokenForm::NoCommand) => {
            tell_no_command("It is neither a text nor an object.", diagnostic)
        }
        Some(BrokenForm::NoMember) => {
            tell_no_command("It is an object without members.", diagnostic)
        }
        Some(BrokenForm::Word(word)) => tell_word(alloc, word, diagnostic),
        Some(BrokenForm::FirstMember(first, members)) => {
            tell_nameless(alloc, first, members, diagnostic)
        }
        Some(BrokenForm::Missing(member)) => tell_missing(member, diagnostic),
        Some(BrokenForm::OtherMember(name, member)) => {
            tell_other_member(name, member, diagnostic)
        }
        Some(BrokenForm::NoText(member)) => tell_no_text(member, diagnostic),
    }
}

fn tell_no_command(message: &str, diagnostic: &mut Diagnostic) -> Result<(), OutOfMemory> {
    diagnostic.details.text("rule", "no command")?;
    diagnostic.tell(
        message,
        "Write one of the commands, as a text or as an object with its members.",
    )
}

fn tell_missing(member: &str, diagnostic: &mut Diagnostic) -> Result<(), OutOfMemory> {
    diagnostic.details.text("rule", "missing")?;
    diagnostic.details.text("member", member)?;
    write!(
        diagnostic.told("Give the command all its members."),
        "Its member \"{member}\" is missing."
    )?;
    Ok(())
}

fn tell_other_member(
    command: &str,
    member: &str,
    diagnostic: &mut Diagnostic,
) -> Result<(), OutOfMemory> {
    diagnostic.details.text("rule", "member")?;
    diagnostic.details.text("member", member)?;
    let member = Quoted(member);
    write!(
        diagnostic.told(
            "Drop the member, or correct its name; each command is an object of its own."
        ),
        "The command \"{command}\" doesn't have the member {member}."
    )?;
    Ok(())
}

fn tell_no_text(member: &str, diagnostic: &mut Diagnostic) -> Result<(), OutOfMemory> {
    diagnostic.details.text("rule", "no text")?;
    diagnostic.details.text("member", member)?;
    write!(
        diagnostic.told("Write ids and names as texts, in quotes."),
        "Its member \"{member}\" isn't a text."
    )?;
    Ok(())
}

/// Says that a text is no command, and tells the nearest one.
fn tell_word(alloc: Global, word: &str, diagnostic: &mut Diagnostic) -> Result<(), OutOfMemory> {
    let nearest = tell_given(alloc, word, diagnostic)?;
    let given = Quoted(word);
    if form_named(word).is_some() {
        write!(
            diagnostic.told("Write the command as an object with its members."),
            "The command {given} is an object, and no text."
        )?;
        return Ok(());
    }
    match nearest {
        None => {
            write!(
                diagnostic.told(CORRECT_NAME),
                "No command is named {given}."
            )?;
            Ok(())
        }
        Some(name) => {
            write!(
                diagnostic.told(CORRECT_NAME),
                "No command is named {given}; the nearest is \"{name}\"."
            )?;
            Ok(())
        }
    }
}

/// Says that no member of an object names a command, and tells the one nearest to a name.
fn tell_nameless(
    alloc: Global,
    first: &str,
    members: &Map<String, Value>,
    diagnostic: &mut Diagnostic,
) -> Result<(), OutOfMemory> {
    diagnostic.details.text("rule", "no command")?;
    let Some(near) = nearest_member(alloc, members)? else {
        diagnostic.details.text("given", first)?;
        let given = Quoted(first);
        write!(
            diagnostic.told(CORRECT_NAME),
            "None of its members names a command; the first is {given}."
        )?;
        return Ok(());
    };
    diagnostic.details.text("given", near.member)?;
    diagnostic.details.text("nearest", near.name)?;
    let (given, name) = (Quoted(near.member), near.name);
    if is_word(near.member) {
        write!(
            diagnostic.told("Write the word alone, as a text."),
            "The command {given} is a text, and no object."
        )?;
        return Ok(());
    }
    let (before, behind) = if near.member == first {
        ("the first, ", ",")
    } else {
        ("its member ", "")
    };
    write!(
        diagnostic.told(CORRECT_NAME),
        "None of its members names a command; {before}{given}{behind} is nearest to \"{name}\"."
    )?;
    Ok(())
}

/// Adds a word in place of a command's name, and the nearest name. Returns the latter.
fn tell_given(
    alloc: Global,
    word: &str,
    diagnostic: &mut Diagnostic,
) -> Result<Option<&'static str>, OutOfMemory> {
    diagnostic.details.text("rule", "no command")?;
    diagnostic.details.text("given", word)?;
    let nearest = nearest(alloc, word)?;
    if let Some(name) = nearest {
        diagnostic.details.text("nearest", name)?;
    }
    Ok(nearest)
}
