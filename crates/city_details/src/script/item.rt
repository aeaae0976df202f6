//! Items other than scripts.
use crate::diagnostic::Diagnostic;
use crate::quoted::Quoted;
use city_model::OutOfMemory;
use city_tokens::triple_of;
use serde_json::{Map, Value};
use std::fmt::{self, Display, Formatter, Write};

/// A rule for scripts, broken by an item.
#[derive(Clone, Copy)]
pub enum BrokenRule<'t> {
    NoObject,
    NoName,
    NameNoText,
    NoCommands,
    CommandsNoArray,
    /// No command ends the script.
    NoEnd,
    /// This first end isn't the last command.
    EndNotLast(usize),
    VerticesNoArray,
    /// This vertex, the first such, isn't three whole numbers.
    NoVertex(usize),
    /// An unknown member.
    OtherMember(&'t str),
}

/// The first rule broken by an item; none if it is a script.
pub fn broken_rule(item: &Value) -> Option<BrokenRule<'_>> {
    let Some(members) = item.as_object() else {
        return Some(BrokenRule::NoObject);
    };
    broken_name(members)
        .or_else(|| broken_commands(members))
        .or_else(|| broken_vertices(members))
        .or_else(|| other_member(members))
}

fn broken_name(members: &Map<String, Value>) -> Option<BrokenRule<'static>> {
    match members.get("name") {
        None => Some(BrokenRule::NoName),
        Some(Value::String(_)) => None,
        Some(_) => Some(BrokenRule::NameNoText),
    }
}

fn broken_commands(members: &Map<String, Value>) -> Option<BrokenRule<'static>> {
    match members.get("commands") {
        None => Some(BrokenRule::NoCommands),
        Some(Value::Array(commands)) => broken_end(commands.as_slice()),
        Some(_) => Some(BrokenRule::CommandsNoArray),
    }
}

/// The fault of commands unless exactly the last one ends the script.
fn broken_end(commands: &[Value]) -> Option<BrokenRule<'static>> {
    match commands.iter().position(is_end) {
        None => Some(BrokenRule::NoEnd),
        Some(end) if end + 1 < commands.len() => Some(BrokenRule::EndNotLast(end)),
        Some(_) => None,
    }
}

/// Whether a command ends a script.
fn is_end(command: &Value) -> bool {
    matches!(command.as_str(), Some("commit" | "abort"))
}

fn broken_vertices(members: &Map<String, Value>) -> Option<BrokenRule<'static>> {
    match members.get("vertices") {
        None => None,
        Some(Value::Array(vertices)) => broken_vertex(vertices.as_slice()),
        Some(_) => Some(BrokenRule::VerticesNoArray),
    }
}

fn broken_vertex(vertices: &[Value]) -> Option<BrokenRule<'static>> {
    let vertex = vertices
        .iter()
        .position(|vertex| triple_of(vertex).is_none())?;
    Some(BrokenRule::NoVertex(vertex))
}

/// The first unknown member, in byte order.
fn other_member(members: &Map<String, Value>) -> Option<BrokenRule<'_>> {
    for (name, _) in members.iter() {
        if !matches!(name.as_str(), "name" | "commands" | "vertices") {
            return Some(BrokenRule::OtherMember(name.as_str()));
        }
    }
    None
}

/// Tells the first rule broken by an item.
pub fn tell_bad_script(
    item: Option<&Value>,
    diagnostic: &mut Diagnostic,
) -> Result<(), OutOfMemory> {
    // (the item breaks some rule)
    let rule = item.and_then(broken_rule).unwrap_or(BrokenRule::NoObject);
    diagnostic.details.text("rule", rule.name())?;
    match rule {
        BrokenRule::EndNotLast(command) => diagnostic.details.number("command", command)?,
        BrokenRule::OtherMember(member) => diagnostic.details.text("member", member)?,
        _ => {}
    }
    write!(diagnostic.told(rule.cure()), "{rule}")?;
    Ok(())
}

impl BrokenRule<'_> {
    fn name(&self) -> &'static str {
        match self {
            BrokenRule::NoObject => "no object",
            BrokenRule::NoName | BrokenRule::NameNoText => "name",
            BrokenRule::NoCommands | BrokenRule::CommandsNoArray => "commands",
            BrokenRule::NoEnd => "no end",
            BrokenRule::EndNotLast(_) => "end not last",
            BrokenRule::VerticesNoArray | BrokenRule::NoVertex(_) => "vertices",
            BrokenRule::OtherMember(_) => "member",
        }
    }

    fn cure(&self) -> &'static str {
        match self {
            BrokenRule::NoObject => "Write each script as an object with a name and commands.",
            BrokenRule::NoName | BrokenRule::NameNoText =>
                "Give the script a name, which is a text.",
            BrokenRule::NoCommands | BrokenRule::CommandsNoArray =>
                "Give the script an array of commands.",
            BrokenRule::NoEnd => "Make \"commit\" or \"abort\" the last command.",
            BrokenRule::EndNotLast(_) => "Write \"commit\" or \"abort\" once, as the last command.",
            BrokenRule::VerticesNoArray | BrokenRule::NoVertex(_) => {
                "Write each vertex as three whole numbers, a position in the model's grid."
            }
            BrokenRule::OtherMember(_) => "Drop the member, or correct its name.",
        }
    }
}

impl Display for BrokenRule<'_> {
    fn fmt<W: Write>(&self, f: &mut Formatter<W>) -> fmt::Result {
        let message = match *self {
            BrokenRule::NoObject => "It isn't an object.",
            BrokenRule::NoName => "It has no name.",
            BrokenRule::NameNoText => "Its name isn't a text.",
            BrokenRule::NoCommands => "It has no commands.",
            BrokenRule::CommandsNoArray => "Its commands aren't an array.",
            BrokenRule::NoEnd => "None of its commands is \"commit\" or \"abort\".",
            BrokenRule::VerticesNoArray => "Its vertices aren't an array.",
            BrokenRule::EndNotLast(command) => {
                return write!(f, "Its command {command} ends it, and isn't the last one.");
            }
            BrokenRule::NoVertex(vertex) => {
                return write!(
                    f,
                    "Its vertex {vertex} isn't an array of three whole numbers."
                );
            }
            BrokenRule::OtherMember(member) => {
                let member = Quoted(member);
                return write!(f, "It has the member {member}, which no script has.");
            }
        };
        f.write_str(message)
    }
}
