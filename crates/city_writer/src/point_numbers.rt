//! Numbers points as they are met, or as they were numbered beforehand.
ghost use Rattle.std.specs.Prelude.{◌≡◌, [], IfOk, IfSome, OnOk};
ghost use Rattle.std.specs.List.{IsDistinct};
ghost use Rattle.city_model.specs.Shells.{same_point};
ghost use Rattle.city_writer.specs.Pool.{number_of, with_point};

use crate::pool::{PLACES, VertexPool, is_numbered, place_of};
use city_model::OutOfMemory;
use city_model::object::Point;
use std::alloc::Global;
use std::marker::Model;

/// Points numbered beforehand, and the numbers of those of one piece. Contracts see the numbered points.
///
/// It remembers numbers given lately, as a pool does.
#[derive(Drop)]
pub struct KnownPoints<'a> {
    all: &'a [Point],
    piece: &'a VertexPool,
    numbers: &'a [usize],
    lately: [usize; PLACES],
}

impl<'a> Model for KnownPoints<'a> {
    ghost use Rattle.std.specs.Prelude.{List};
    ghost use Rattle.city_model.specs.declared.object.Point.{Point};

    ghost Value = { List Point };

    ghost view = { λ a. a.all.now };

    ghost use Rattle.std.specs.List.{IsDistinct};
    ghost use Rattle.city_model.specs.Shells.{same_point};

    ghost invariant = { λ a. IsDistinct same_point a.all.now };
}

impl<'a> KnownPoints<'a> {
    /// The number of a point; none unless the number noted for it is its own.
    #[inline(always)]
    fn number(&mut self, point: &Point) -> Option<usize>
        ensures number { IfSome result (λ n. n ≡ number_of self.old point.now) }
        ensures there { IfSome result (λ _. with_point self.old point.now ≡ self.old) }
        ensures same { self.new ≡ self.old }
    {
        let place = place_of(point);
        let lately = self.lately[place as usize];
        if is_numbered(self.all, point, lately) {
            return Some(lately);
        }
        self.number_by_table(point, place)
    }

    /// The same, by the piece's table alone; the number is remembered at this place. Never inlined: that keeps the
    /// callers small.
    #[inline(never)]
    fn number_by_table(&mut self, point: &Point, place: u8) -> Option<usize>
        ensures number { IfSome result (λ n. n ≡ number_of self.old point.now) }
        ensures there { IfSome result (λ _. with_point self.old point.now ≡ self.old) }
        ensures same { self.new ≡ self.old }
    {
        let number = *self.numbers.get(self.piece.number(point)?)?;
        if !is_numbered(self.all, point, number) {
            return None;
        }
        self.lately[place as usize] = number;
        Some(number)
    }
}

/// Where numbers come from.
#[derive(Drop)]
enum Source<'a> {
    /// Points are numbered as they are met.
    Met(VertexPool),
    /// They were numbered beforehand.
    Known(KnownPoints<'a>),
}

/// The numbers of points: as they are met, or as they were given beforehand, to a piece by several workers.
#[derive(Drop)]
pub struct PointNumbers<'a> {
    source: Source<'a>,
}

impl<'a> Model for PointNumbers<'a> {
    ghost use Rattle.std.specs.Prelude.{List};
    ghost use Rattle.city_model.specs.declared.object.Point.{Point};

    ghost Value = { List Point };

    ghost use Rattle.city_writer.specs.internal.PointNumbers.{points_of};

    ghost view = { λ a. points_of a.source };
}

impl<'a> PointNumbers<'a> {
    /// Numbers points as they are met, and hashes them by the seed. Doesn't allocate.
    pub fn as_met(alloc: Global, seed: u64) -> Self
        ensures { result ≡ [] }
    {
        PointNumbers {
            source: Source::Met(VertexPool::with_seed(alloc, seed)),
        }
    }

    /// Points with numbers; `numbers` guesses the numbers of a piece's points, by their numbers in the piece.
    /// Doesn't allocate.
    pub fn known(all: &'a [Point], piece: &'a VertexPool, numbers: &'a [usize]) -> Self
        requires { IsDistinct same_point all.now }
        ensures { result ≡ all.now }
    {
        PointNumbers {
            source: Source::Known(KnownPoints {
                all,
                piece,
                numbers,
                lately: [0; PLACES],
            }),
        }
    }

    /// Adds a point, and gives its number. A point of the pool keeps its number.
    ///
    /// If memory runs out, no point is lost. It also answers `OutOfMemory` if the number noted for the point isn't
    /// its own.
    #[inline(always)]
    pub fn add(&mut self, point: Point) -> Result<usize, OutOfMemory>
        ensures number { IfOk result (λ i. i ≡ number_of self.old point) }
        ensures added { OnOk result (self.new ≡ with_point self.old point) }
    {
        match &mut self.source {
            Source::Met(pool) => pool.add(point),
            Source::Known(known) => known.number(&point).ok_or(OutOfMemory),
        }
    }

    /// The points by their numbers. Doesn't allocate.
    pub fn as_slice(&self) -> &[Point]
        ensures { result.now ≡ self.now }
    {
        match &self.source {
            Source::Met(pool) => pool.as_slice(),
            Source::Known(known) => known.all,
        }
    }
}
