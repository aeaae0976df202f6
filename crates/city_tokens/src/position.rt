//! Reads positions. Their points may not be known yet.
ghost use Rattle.city_tokens.specs.internal.Positions.{IsPosition};

use crate::list::FromTokens;
use crate::vertices::read_whole;
use city_model::object::Point;
use city_reader::Reader;
use std::alloc::Global;

impl FromTokens for Point {
    const ROOM: usize = 4;

    ghost stands = { IsPosition };

    #[inline(always)]
    fn from_tokens(_alloc: Global, reader: &mut Reader<'_>, _depth: usize) -> Option<Point> {
        let x = read_whole(reader)?;
        Some(Point { x, y: 0, z: 0 })
    }
}
