//! Reads commands before points replace their positions.
ghost use Rattle.std.specs.Prelude.{◌≡◌, Some, None, IfSome};
ghost use Rattle.serde_json.specs.Data.{Members, object, string};
ghost use Rattle.city_tokens.specs.script.Commands.{command_of};
ghost use Rattle.city_tokens.specs.shape.Geometries.{geometry_of};
ghost use Rattle.city_tokens.specs.internal.Geometries.{IsGeometry};
ghost use Rattle.city_tokens.specs.internal.Positions.{IsResolved, points_of};
ghost use Rattle.city_tokens.specs.internal.Standing.{IsArrayOf};
ghost use Rattle.city_tokens.specs.tree.Lists.{list_of};
ghost use Rattle.city_tokens.specs.internal.Commands.{verb_name, with_verb, AreOthers, IsCommand, IsCommandSoFar};

use crate::list::FromTokens;
use crate::member_visitor::{MemberVisitor, read_opened};
use crate::other::{Other, read_other};
use crate::resolve::ResolvePositions;
use crate::text::{read_str, text_of};
use crate::vertices::Vertex;
use city_members::shared::Shared;
use city_members::text::{Id, Text};
use city_model::command::Command;
use city_model::object::Body;
use city_reader::Reader;
use json::Token;
use std::alloc::Global;
use std::mem::replace;

/// The kind of a command with an id or a name.
#[derive(Clone, Copy)]
pub enum Verb {
    Read,
    Put,
    Add,
    Set,
    Unset,
    Reshape,
    Expect,
    Delete,
    Attach,
    Detach,
    Mark,
    Back,
}

/// The members of a command read so far.
#[derive(Drop)]
pub struct CommandParts {
    pub verb: Option<(Verb, Text)>,
    pub other: Option<Other>,
}

fn verb_named(name: &str) -> Option<Verb>
    ensures { IfSome result (λ verb. name.now ≡ verb_name verb) }
{
    match name {
        "read" => Some(Verb::Read),
        "put" => Some(Verb::Put),
        "add" => Some(Verb::Add),
        "set" => Some(Verb::Set),
        "unset" => Some(Verb::Unset),
        "reshape" => Some(Verb::Reshape),
        "expect" => Some(Verb::Expect),
        "delete" => Some(Verb::Delete),
        "attach" => Some(Verb::Attach),
        "detach" => Some(Verb::Detach),
        "mark" => Some(Verb::Mark),
        "back" => Some(Verb::Back),
        _ => None,
    }
}

impl MemberVisitor for CommandParts {
    ghost stands = { IsCommandSoFar };

    fn visit_member(
        &mut self,
        alloc: Global,
        name: &str,
        reader: &mut Reader<'_>,
        depth: usize,
    ) -> Option<bool> {
        // (a second verb is no other member)
        if self.verb.is_none() {
            if let Some(verb) = verb_named(name) {
                let text = read_str(reader)?;
                let copy = text_of(alloc, text)?;
                self.verb = Some((verb, copy));
                return Some(true);
            }
        }
        if self.other.is_some() {
            return None;
        }
        let other = read_other(alloc, name, reader, depth)?;
        self.other = Some(other);
        Some(true)
    }
}

/// The command of one member.
fn single_command(verb: Verb, text: Text) -> Option<Command>
    ensures { IfSome result (λ c. (others : Members) → AreOthers None others
        → IsCommand c (object (with_verb (Some (verb, text)) others))) }
{
    match verb {
        Verb::Read => Some(Command::Read(text)),
        Verb::Delete => Some(Command::Delete(text)),
        Verb::Mark => Some(Command::Mark(text)),
        Verb::Back => Some(Command::Back(text)),
        _ => None,
    }
}

/// The command of two members.
fn pair_command(verb: Verb, id: Id, other: Other) -> Option<Command>
    ensures { IfSome result (λ c. (others : Members) → AreOthers (Some other) others
        → IsCommand c (object (with_verb (Some (verb, id)) others))) }
{
    match (verb, other) {
        (Verb::Put, Other::Object(body)) => Some(Command::Put(id, Shared::unshared(body))),
        (Verb::Add, Other::Object(body)) => Some(Command::Add(id, Shared::unshared(body))),
        (Verb::Set, Other::Attributes(values)) => Some(Command::Set(id, values)),
        (Verb::Unset, Other::Names(names)) => Some(Command::Unset(id, names)),
        (Verb::Reshape, Other::Geometry(geometry)) => Some(Command::Reshape(id, geometry)),
        (Verb::Expect, Other::Attributes(values)) => Some(Command::Expect(id, values)),
        (Verb::Attach, Other::Parent(parent)) => Some(Command::Attach(id, parent)),
        (Verb::Detach, Other::Parent(parent)) => Some(Command::Detach(id, parent)),
        _ => None,
    }
}

/// The command of all its members.
fn command_of(parts: CommandParts) -> Option<Command>
    ensures { IfSome result (λ c. (found kept : Members)
        → IsCommandSoFar parts found kept → IsCommand c (object found)) }
{
    let (verb, text) = parts.verb?;
    match parts.other {
        None => single_command(verb, text),
        Some(other) => pair_command(verb, text, other),
    }
}

/// The command of a single word.
fn word_command(word: &str) -> Option<Command>
    ensures { IfSome result (λ c. IsCommand c (string word.now)) }
{
    match word {
        "commit" => Some(Command::Commit),
        "abort" => Some(Command::Abort),
        _ => None,
    }
}

impl FromTokens for Command {
    // (an edit and a commit)
    const ROOM: usize = 2;

    ghost stands = { IsCommand };

    fn from_tokens(alloc: Global, reader: &mut Reader<'_>, depth: usize) -> Option<Command> {
        match reader.next()? {
            Token::String(word) => word_command(word),
            Token::BeginObject => {
                let start = CommandParts {
                    verb: None,
                    other: None,
                };
                let (parts, _kept) = read_opened(alloc, reader, depth, start)?;
                command_of(parts)
            }
            _ => None,
        }
    }
}

/// The body with points in place of its positions. From here on all copies share it.
fn resolved_body(alloc: Global, vertices: &[Vertex], body: Shared<Body>) -> Option<Shared<Body>>
    ensures kind { IfSome result (λ resolved. resolved.kind ≡ body.kind) }
    ensures extra { IfSome result (λ resolved. resolved.extra ≡ body.extra) }
    ensures geometry { IfSome result (λ resolved. IsResolved (IsArrayOf IsGeometry)
        (list_of (geometry_of (points_of vertices.now))) body.geometry resolved.geometry) }
{
    let mut body = body.into_owned(alloc).ok()?;
    body.geometry.resolve_positions(alloc, vertices)?;
    let shared = Shared::new(alloc, body).ok()?;
    Some(shared)
}

/// The command with points in place of its positions.
fn resolved(alloc: Global, vertices: &[Vertex], command: Command) -> Option<Command>
    ensures { IfSome result (λ resolved. IsResolved IsCommand (command_of (points_of vertices.now)) command resolved) }
{
    match command {
        Command::Put(id, body) => Some(Command::Put(id, resolved_body(alloc, vertices, body)?)),
        Command::Add(id, body) => Some(Command::Add(id, resolved_body(alloc, vertices, body)?)),
        Command::Reshape(id, geometry) => {
            let mut geometry = geometry;
            geometry.resolve_positions(alloc, vertices)?;
            Some(Command::Reshape(id, geometry))
        }
        command => Some(command),
    }
}

impl ResolvePositions for Command {
    ghost stands = { IsCommand };

    ghost reads = { command_of };

    fn resolve_positions(&mut self, alloc: Global, vertices: &[Vertex]) -> Option<()> {
        let unresolved = replace(self, Command::Commit);
        *self = resolved(alloc, vertices, unresolved)?;
        Some(())
    }
}
