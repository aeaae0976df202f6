//! Reads vertices.
ghost use Rattle.std.specs.Prelude.{◌≡◌, ℕ, Some, IfSome};
ghost use Rattle.serde_json.specs.Data.{number};
ghost use Rattle.serde_json.specs.Find.{of_integer, as_i64};
ghost use Rattle.city_tokens.specs.internal.Positions.{IsVertex};
ghost use Rattle.city_tokens.specs.internal.Taken.{IsValue};

use crate::list::FromTokens;
use city_model::object::Point;
use city_reader::Reader;
use json::Token;
use std::alloc::Global;

/// The point of a vertex.
#[derive(Clone, Copy)]
pub struct Vertex {
    pub point: Point,
}

/// The next value, a whole number.
#[inline(always)]
pub(crate) fn read_whole(reader: &mut Reader<'_>) -> Option<i64>
    ensures value { IfSome result
        (λ n. (depth : ℕ) → IsValue depth reader.old (number (of_integer n)) reader.new) }
    ensures in_range { IfSome result (λ n. as_i64 (of_integer n) ≡ Some n) }
{
    let n = reader.whole()?;
    Some(n)
}

impl FromTokens for Vertex {
    const ROOM: usize = 8;

    ghost stands = { IsVertex };

    fn from_tokens(_alloc: Global, reader: &mut Reader<'_>, depth: usize) -> Option<Vertex> {
        let Token::BeginArray = reader.next()? else {
            return None;
        };
        if depth == 0 {
            return None;
        }
        let x = read_whole(reader)?;
        let y = read_whole(reader)?;
        let z = read_whole(reader)?;
        if !reader.take_end_array() {
            return None;
        }
        Some(Vertex {
            point: Point { x, y, z },
        })
    }
}
