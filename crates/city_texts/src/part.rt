//! Reads the parts between two positions of a text, one after another: objects by their ids,
//! vertices, scripts.
ghost use Rattle.std.specs.Prelude.{◌≡◌, ◌<◌, List, length, IfSome};
ghost use Rattle.json.specs.Token.{Token as SpecToken};
ghost use Rattle.city_reader.specs.Positions.{tokens_from};
ghost use Rattle.city_texts.specs.internal.Parts.{AreNext, IsNextObject, IsNextVertex, IsNextScript};

use city_members::text::Id;
use city_model::script::Script;
use city_reader::{Position, Reader};
use city_tokens::list::FromTokens;
use city_tokens::object::{UnresolvedObject, read_object};
use city_tokens::text::text_of;
use city_tokens::vertices::Vertex;
use std::alloc::Global;

/// How deep a city object, or a vertex, may nest.
pub const PART_DEPTH: usize = 125;

/// How deep a script may nest.
pub const SCRIPT_DEPTH: usize = 126;

/// A repeated part of a text.
pub trait Part: Sized + Drop {
    /// The first tokens begin with it, and the second are left.
    ghost stands: { Self → List SpecToken → List SpecToken → Type 0 };

    /// The next one.
    fn next_part(alloc: Global, reader: &mut Reader<'_>) -> Option<Self>
        ensures stands { IfSome result (λ x. stands x reader.old reader.new) }
        ensures shorter { IfSome result (λ _. length reader.new < length reader.old) };
}

impl Part for (Id, UnresolvedObject) {
    ghost stands = { IsNextObject };

    fn next_part(alloc: Global, reader: &mut Reader<'_>) -> Option<(Id, UnresolvedObject)> {
        let name = reader.next_key()??;
        let id = text_of(alloc, name)?;
        let object = read_object(alloc, reader, PART_DEPTH)?;
        Some((id, object))
    }
}

impl Part for Vertex {
    ghost stands = { IsNextVertex };

    fn next_part(alloc: Global, reader: &mut Reader<'_>) -> Option<Vertex> {
        Vertex::from_tokens(alloc, reader, PART_DEPTH)
    }
}

impl Part for Script {
    ghost stands = { IsNextScript };

    fn next_part(alloc: Global, reader: &mut Reader<'_>) -> Option<Script> {
        Script::from_tokens(alloc, reader, SCRIPT_DEPTH)
    }
}

/// The parts between two positions of a text; `None` if no part ends at the second.
pub fn read_between<T: Part>(
    alloc: Global,
    text: &str,
    from: Position,
    to: Position,
) -> Option<Vec<T>>
    ensures { IfSome result
        (λ ps. AreNext T.stands ps.items (tokens_from from text.now) (tokens_from to text.now)) }
{
    let mut reader = Reader::from(text, from)?;
    let mut parts = Vec::new(alloc);
    'parts: while !reader.is_at(text, to) {
        let part = T::next_part(alloc, &mut reader)?;
        parts.push(part).ok()?;
    }
    Some(parts)
}
