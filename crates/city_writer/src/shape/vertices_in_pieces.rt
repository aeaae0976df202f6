//! Writes a list of vertices in pieces, by several workers.
ghost use Rattle.std.specs.Prelude.{◌<◌, IfOk, IfSome};
ghost use Rattle.city_writer.specs.internal.Pieces.{EachPiece};
ghost use Rattle.city_writer.specs.internal.shape.InTurn.{AreVertices};

use crate::shape::vertices::write_each;
use city_model::OutOfMemory;
use city_model::object::Point;
use json::Writer;
use std::alloc::Global;
use std::thread::{Threads, map_chunks};

/// The text of a piece: points by their numbers, without brackets around them.
fn text_of_vertices(alloc: Global, points: &[Point]) -> Result<Vec<u8>, OutOfMemory>
    ensures { IfOk result (λ text. AreVertices points.now text.items) }
{
    let mut out = Writer::new(Vec::new(alloc));
    write_each(points, &mut out)?;
    let text = out.into_inner();
    Ok(text)
}

/// The text of each piece of `len` points, by a thread for each; none if memory runs out.
pub fn texts_of_vertices<R: Threads + Sync>(
    rt: &R,
    alloc: Global,
    points: &[Point],
    len: usize,
) -> Result<Vec<Option<Vec<u8>>>, OutOfMemory>
    requires { 0 < len }
    ensures { IfOk result (λ os. EachPiece len points.now os.items (λ ps text. AreVertices ps text.items)) }
{
    let text = move |_: usize, piece: &[Point]| -> Option<Vec<u8>>
        ensures { IfSome result (λ text. AreVertices piece.entry.now text.items) }
    { text_of_vertices(alloc, piece).ok() };
    let texts = map_chunks(rt, alloc, points, len, &text)?;
    Ok(texts)
}
