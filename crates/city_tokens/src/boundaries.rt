//! Reads boundaries. Their type may come after them.
ghost use Rattle.std.specs.Prelude.{◌≡◌, ◌+◌, ◌∷◌, ℕ, List, IfSome};
ghost use Rattle.json.specs.Token.{Token as SpecToken, begin_array};
ghost use Rattle.city_tokens.specs.internal.Geometries.{AreBoundaries};
ghost use Rattle.city_tokens.specs.internal.Positions.{IsPosition, opened};
ghost use Rattle.city_tokens.specs.internal.Standing.{IsArrayOf, IsReadAs};

use crate::list::{FromTokens, read_rest};
use city_members::sequence::Sequence;
use city_model::object::{Point, Shell, Solid, Surface};
use city_reader::{Reader, whole_of};
use json::Token;
use std::alloc::Global;

/// Boundaries of some type, as deep as their brackets are.
#[derive(Drop)]
pub enum Boundaries {
    Surfaces(Sequence<Surface>),
    Shells(Sequence<Shell>),
    Solids(Sequence<Solid>),
}

/// How many brackets open before the first position, and the position.
fn read_brackets(reader: &mut Reader<'_>) -> Option<(usize, Point)>
    ensures { IfSome result (λ p. (before : List SpecToken) × (reader.old ≡ opened p.0 before)
        × ((depth : ℕ) → IsReadAs IsPosition p.1 depth before reader.new)) }
{
    for brackets in 0..6usize {
        match reader.next()? {
            Token::BeginArray => {}
            Token::Number(text) => {
                let x = whole_of(text)?;
                return Some((brackets, Point { x, y: 0, z: 0 }));
            }
            _ => return None,
        }
    }
    None
}

/// Reads the items up to the closing bracket, after the first one.
fn read_after<T: FromTokens>(
    alloc: Global,
    reader: &mut Reader<'_>,
    depth: usize,
    first: T,
) -> Option<Sequence<T>>
    ensures { IfSome result (λ all. (before : List SpecToken)
        → IsReadAs T.stands first depth before reader.old
        → IsReadAs (IsArrayOf T.stands) all (depth + 1) (begin_array ∷ before) reader.new) }
{
    let mut start = Vec::with_capacity(alloc, T::ROOM).ok()?;
    start.push(first).ok()?;
    read_rest(alloc, reader, depth, start)
}

/// The next boundaries; `None` if a list is empty before the first position.
pub fn read_boundaries(alloc: Global, reader: &mut Reader<'_>, depth: usize) -> Option<Boundaries>
    ensures { IfSome result (λ b. IsReadAs AreBoundaries b depth reader.old reader.new) }
{
    let (brackets, first) = read_brackets(reader)?;
    if brackets < 3 || brackets > depth {
        return None;
    }
    let inner = depth - brackets;
    let ring = read_after(alloc, reader, inner, first)?;
    let surface = read_after(alloc, reader, inner + 1, ring)?;
    let surfaces = read_after(alloc, reader, inner + 2, surface)?;
    if brackets == 3 {
        return Some(Boundaries::Surfaces(surfaces));
    }
    let shells = read_after(alloc, reader, inner + 3, surfaces)?;
    if brackets == 4 {
        return Some(Boundaries::Shells(shells));
    }
    let solids = read_after(alloc, reader, inner + 4, shells)?;
    if brackets == 5 {
        return Some(Boundaries::Solids(solids));
    }
    None
}
