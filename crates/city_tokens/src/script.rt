//! Reads scripts.
ghost use Rattle.std.specs.Prelude.{Some, IfSome};
ghost use Rattle.serde_json.specs.Data.{Members, object};
ghost use Rattle.city_tokens.specs.internal.Scripts.{IsScript, IsScriptSoFar};

use crate::limits::MAX_COMMANDS;
use crate::list::FromTokens;
use crate::member_visitor::{MemberVisitor, read_object};
use crate::resolve::ResolvePositions;
use crate::vertices::Vertex;
use city_members::sequence::Sequence;
use city_members::text::Text;
use city_model::command::Command;
use city_model::script::Script;
use city_reader::Reader;
use std::alloc::Global;

/// The members of a script read so far.
#[derive(Drop)]
pub struct ScriptParts {
    pub name: Option<Text>,
    pub commands: Option<Sequence<Command>>,
    pub vertices: Sequence<Vertex>,
}

impl MemberVisitor for ScriptParts {
    ghost stands = { IsScriptSoFar };

    fn visit_member(
        &mut self,
        alloc: Global,
        name: &str,
        reader: &mut Reader<'_>,
        depth: usize,
    ) -> Option<bool> {
        match name {
            "name" => {
                let name = Text::from_tokens(alloc, reader, depth)?;
                self.name = Some(name);
            }
            "commands" => {
                let commands = Sequence::<Command>::from_tokens(alloc, reader, depth)?;
                self.commands = Some(commands);
            }
            "vertices" => {
                let vertices = Sequence::<Vertex>::from_tokens(alloc, reader, depth)?;
                self.vertices = vertices;
            }
            _ => return None,
        }
        Some(true)
    }
}

/// The script of all its members.
fn script_of(alloc: Global, parts: ScriptParts) -> Option<Script>
    ensures { IfSome result (λ s. (found kept : Members)
        → IsScriptSoFar parts found kept → IsScript s (object found)) }
{
    let name = parts.name?;
    let mut commands = parts.commands?;
    commands.resolve_positions(alloc, parts.vertices.as_slice())?;
    if commands.len() > MAX_COMMANDS {
        return None;
    }
    Script::new(name, commands).ok()
}

impl FromTokens for Script {
    const ROOM: usize = 8;

    ghost stands = { IsScript };

    fn from_tokens(alloc: Global, reader: &mut Reader<'_>, depth: usize) -> Option<Script> {
        let start = ScriptParts {
            name: None,
            commands: None,
            vertices: Sequence::new(alloc),
        };
        let (parts, _kept) = read_object(alloc, reader, depth, start)?;
        script_of(alloc, parts)
    }
}
