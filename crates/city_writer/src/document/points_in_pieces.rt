//! Numbers the points of a city in pieces, by several workers.
ghost use Rattle.std.specs.Prelude.{◌≡◌, [], ◌*◌, ◌<◌, ◌^◌, IfOk, IfSome, OnOk, drop, filter, is_some, take, true};
ghost use Rattle.std.specs.Fork.{slice_chunk};
ghost use Rattle.std.specs.FinMap.{entries};
ghost use Rattle.std.specs.List.{IsDistinct, list_all, list_any};
ghost use Rattle.city_model.specs.Shells.{same_point};
ghost use Rattle.city_writer.specs.Pool.{pool_of};
ghost use Rattle.city_writer.specs.internal.Pieces.{EachPiece, joined};
ghost use Rattle.city_writer.specs.internal.Pool.{AreNewAt, is_new, new_points};
ghost use Rattle.city_writer.specs.internal.document.Pieces.{IsListed};

use crate::object::text::add_first;
use crate::piece_points::PiecePoints;
use crate::pool::VertexPool;
use city_members::text::Id;
use city_model::OutOfMemory;
use city_model::city::City;
use city_model::object::{Object, Point};
use std::alloc::Global;
use std::collections::btree_map::Iter;
use std::thread::{Threads, map_indices};

/// The objects behind the first `from`.
pub fn objects_from(city: &City, mut from: usize) -> Iter<'_, Id, Object>
    ensures { result ≡ drop from (entries city.now.1) }
{
    let mut left = city.iter();
    'passed: while from > 0 {
        let _ = left.next();
        from -= 1;
    }
    left
}

/// The points of a piece; none if memory runs out.
fn points_of_piece(
    alloc: Global,
    seed: u64,
    city: &City,
    from: usize,
    len: usize,
) -> Option<PiecePoints>
    ensures { IfSome result (λ ps. IsListed (take len (drop from (entries city.now.1))) ps) }
{
    let mut pool = VertexPool::with_seed(alloc, seed);
    add_first(objects_from(city, from), len, &mut pool).ok()?;
    Some(PiecePoints::new(pool))
}

/// The points of each piece, by a thread for each.
fn points_of_pieces<R: Threads + Sync>(
    rt: &R,
    alloc: Global,
    seed: u64,
    city: &City,
    len: usize,
) -> Result<Vec<Option<PiecePoints>>, OutOfMemory>
    requires { 0 < len }
    ensures { IfOk result (λ os. EachPiece len (entries city.now.1) os.items IsListed) }
{
    let points = move |i: usize| -> Option<PiecePoints>
        requires { i * len < 2 ^ 64 }
        ensures { IfSome result (λ ps. IsListed (slice_chunk (entries city.entry.now.1) len i) ps) }
    { points_of_piece(alloc, seed, city, i * len, len) };
    let pieces = map_indices(rt, alloc, city.len().div_ceil(len), &points)?;
    Ok(pieces)
}

/// A place of a point: a piece, and an index in it.
#[derive(Clone, Copy, Drop)]
struct Place {
    piece: usize,
    index: usize,
}

/// The points of a piece that no piece before it has.
#[derive(Drop)]
struct NewPoints {
    points: Vec<Point>,
    /// For each point of the piece its place among these, or its place in the first piece that has it.
    places: Vec<Place>,
}

/// The place of a point in the first of these pieces that has it.
fn place_in(pieces: &[Option<PiecePoints>], point: &Point) -> Option<Place>
    ensures { is_some result ≡ list_any (same_point point.now) (joined pieces.now (λ ps. ps)) }
{
    let mut piece = 0_usize;
    for points in pieces {
        if let Some(points) = points {
            if let Some(index) = points.number(point) {
                return Some(Place { piece, index });
            }
        }
        piece = piece.saturating_add(1);
    }
    None
}

/// Those points of a piece that no piece before it has.
fn new_among(
    alloc: Global,
    before: &[Option<PiecePoints>],
    points: &[Point],
    piece: usize,
) -> Option<NewPoints>
    ensures { IfSome result (λ new. new.points.items ≡ filter (is_new (joined before.now (λ ps. ps))) points.now) }
{
    let mut new = Vec::new(alloc);
    let mut places = Vec::with_capacity(alloc, points.len()).ok()?;
    for point in points {
        match place_in(before, point) {
            Some(place) => places.push(place).ok()?,
            None => {
                let index = new.len();
                places.push(Place { piece, index }).ok()?;
                new.push(*point).ok()?;
            }
        }
    }
    Some(NewPoints {
        points: new,
        places,
    })
}

/// The new points of a piece; none if it isn't there, or memory runs out.
fn new_points_at(alloc: Global, pieces: &[Option<PiecePoints>], piece: usize) -> Option<NewPoints>
    ensures { IfSome result (λ new. AreNewAt pieces.now piece new.points.items) }
{
    let points = pieces.get(piece)?.as_ref()?;
    let before = pieces.get(..piece)?;
    new_among(alloc, before, points.as_slice(), piece)
}

/// The new points of each piece, by a thread for each.
fn new_points_of_pieces<R: Threads + Sync>(
    rt: &R,
    alloc: Global,
    pieces: &[Option<PiecePoints>],
) -> Result<Vec<Option<NewPoints>>, OutOfMemory>
    ensures { IfOk result (λ os. list_all is_some os.items ≡ true → (list_all is_some pieces.now ≡ true)
        × (joined os.items (λ new. new.points.items) ≡ new_points [] pieces.now)) }
{
    let new = move |i: usize| -> Option<NewPoints>
        ensures { IfSome result (λ new. AreNewAt pieces.entry.now i new.points.items) }
    { new_points_at(alloc, pieces, i) };
    let all = map_indices(rt, alloc, pieces.len(), &new)?;
    Ok(all)
}

/// The new points of all pieces, one piece after the other.
fn all_new(alloc: Global, pieces: &[Option<NewPoints>]) -> Result<Vec<Point>, OutOfMemory>
    ensures points { IfOk result (λ ps. ps.items ≡ joined pieces.now (λ new. new.points.items)) }
    ensures all { OnOk result (list_all is_some pieces.now ≡ true) }
{
    let mut all = Vec::new(alloc);
    for piece in pieces {
        let Some(new) = piece else {
            return Err(OutOfMemory);
        };
        all.extend_from_slice(new.points.as_slice())?;
    }
    Ok(all)
}

/// The number of the first new point of each piece.
fn first_numbers(alloc: Global, pieces: &[Option<NewPoints>]) -> Result<Vec<usize>, OutOfMemory> {
    let mut all = Vec::with_capacity(alloc, pieces.len())?;
    let mut next = 0_usize;
    for piece in pieces {
        all.push(next)?;
        if let Some(new) = piece {
            next = next.saturating_add(new.points.len());
        }
    }
    Ok(all)
}

/// What is noted for the point at a place of a piece.
fn noted(pieces: &[Option<NewPoints>], place: Place) -> Option<Place> {
    let new = pieces.get(place.piece)?.as_ref()?;
    new.places.as_slice().get(place.index).copied()
}

/// The number of the point noted at this place for a piece's point.
fn number_at(
    pieces: &[Option<NewPoints>],
    first: &[usize],
    piece: usize,
    place: Place,
) -> Option<usize> {
    let own = if place.piece == piece {
        place
    } else {
        noted(pieces, place)?
    };
    first.get(own.piece)?.checked_add(own.index)
}

/// The numbers of the points of a piece; none if it isn't there, or memory runs out.
fn numbers_of_piece(
    alloc: Global,
    pieces: &[Option<NewPoints>],
    first: &[usize],
    piece: usize,
) -> Option<Vec<usize>> {
    let new = pieces.get(piece)?.as_ref()?;
    let mut numbers = Vec::with_capacity(alloc, new.places.len()).ok()?;
    for place in &new.places {
        let number = number_at(pieces, first, piece, *place)?;
        numbers.push(number).ok()?;
    }
    Some(numbers)
}

/// The numbers of the points of each piece, by a thread for each.
fn numbers_of_pieces<R: Threads + Sync>(
    rt: &R,
    alloc: Global,
    pieces: &[Option<NewPoints>],
) -> Result<Vec<Option<Vec<usize>>>, OutOfMemory> {
    let first = first_numbers(alloc, pieces)?;
    let first = first.as_slice();
    let numbers = |i: usize| -> Option<Vec<usize>> { numbers_of_piece(alloc, pieces, first, i) };
    let all = map_indices(rt, alloc, pieces.len(), &numbers)?;
    Ok(all)
}

/// The points of a city, numbered by pieces.
#[derive(Drop)]
pub struct NumberedPoints {
    /// All points by their numbers, each once.
    pub all: Vec<Point>,
    /// The points of each piece.
    pub pieces: Vec<Option<PiecePoints>>,
    /// The numbers of the points of each piece.
    pub numbers: Vec<Option<Vec<usize>>>,
}

impl NumberedPoints {
    /// The points of a city in pieces of `len` objects.
    ///
    /// A point's number depends on the points before it. So each piece numbers its own points first, then looks in the
    /// pieces before it for each of them; what it finds nowhere is new, and is numbered on from the pieces before it.
    pub fn of<R: Threads + Sync>(
        rt: &R,
        alloc: Global,
        seed: u64,
        city: &City,
        len: usize,
    ) -> Result<NumberedPoints, OutOfMemory>
        requires { 0 < len }
        ensures points { IfOk result (λ numbered. numbered.all.items ≡ pool_of city.now) }
        ensures distinct { IfOk result (λ numbered. IsDistinct same_point numbered.all.items) }
    {
        let pieces = points_of_pieces(rt, alloc, seed, city, len)?;
        let new = new_points_of_pieces(rt, alloc, pieces.as_slice())?;
        let all = all_new(alloc, new.as_slice())?;
        let numbers = numbers_of_pieces(rt, alloc, new.as_slice())?;
        Ok(NumberedPoints {
            all,
            pieces,
            numbers,
        })
    }
}
