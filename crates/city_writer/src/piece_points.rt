//! The points of one piece of a city, for other pieces to look up.
ghost use Rattle.std.specs.Prelude.{◌≡◌, is_some};
ghost use Rattle.std.specs.List.{list_all, list_any};
ghost use Rattle.city_model.specs.Shells.{same_point};
ghost use Rattle.city_writer.specs.internal.PiecePoints.{is_between, is_within};

use crate::pool::VertexPool;
use city_model::object::Point;
use std::marker::Model;

/// A box along the axes, by two of its corners.
#[derive(Clone, Copy, Drop)]
pub struct Bounds {
    least: Point,
    most: Point,
}

impl Bounds {
    /// The box of a point.
    fn of(point: Point) -> Bounds {
        Bounds {
            least: point,
            most: point,
        }
    }

    /// A box that has a point as well.
    fn with(self, point: &Point) -> Bounds {
        Bounds {
            least: Point {
                x: self.least.x.min(point.x),
                y: self.least.y.min(point.y),
                z: self.least.z.min(point.z),
            },
            most: Point {
                x: self.most.x.max(point.x),
                y: self.most.y.max(point.y),
                z: self.most.z.max(point.z),
            },
        }
    }

    /// Whether a point is in the box.
    #[inline(always)]
    fn has(self, point: &Point) -> bool
        ensures { result ≡ is_within self point.now }
    {
        if !is_between(self.least.x, point.x, self.most.x) {
            return false;
        }
        if !is_between(self.least.y, point.y, self.most.y) {
            return false;
        }
        is_between(self.least.z, point.z, self.most.z)
    }

    /// Whether all points are in the box.
    fn has_all(self, points: &[Point]) -> bool
        ensures { result ≡ list_all (is_within self) points.now }
    {
        for point in points {
            if !self.has(point) {
                return false;
            }
        }
        true
    }
}

/// Whether a number is at least the first of two and at most the other.
#[tactic(auto, unfolding(crate::specs::internal::PiecePoints::is_between))]
#[inline(always)]
fn is_between(least: i64, number: i64, most: i64) -> bool
    ensures { result ≡ is_between least number most }
{
    least <= number && number <= most
}

/// The least box around points.
fn bounds_of(points: &[Point]) -> Option<Bounds> {
    let mut bounds = Bounds::of(*points.first()?);
    for point in points {
        bounds = bounds.with(point);
    }
    Some(bounds)
}

/// The points of a piece, each once. Most points of one piece lie outside the box around another's, so most need no
/// look at its table.
#[derive(Drop)]
pub struct PiecePoints {
    pool: VertexPool,
    bounds: Option<Bounds>,
}

impl Model for PiecePoints {
    ghost use Rattle.std.specs.Prelude.{List};
    ghost use Rattle.city_model.specs.declared.object.Point.{Point};

    ghost Value = { List Point };

    ghost view = { λ a. a.pool };

    ghost use Rattle.city_writer.specs.internal.PiecePoints.{are_bounded};

    ghost invariant = { λ a. are_bounded a.bounds a.pool };
}

impl PiecePoints {
    /// The points of a pool. Doesn't allocate.
    pub fn new(pool: VertexPool) -> PiecePoints
        ensures { result ≡ pool }
    {
        let bounds = bounds_of(pool.as_slice()).filter(|bounds| bounds.has_all(pool.as_slice()));
        PiecePoints { pool, bounds }
    }

    /// The number of a point in the piece; `None` if the piece doesn't have it. Doesn't allocate.
    #[tactic(auto, using(crate::proofs::pool::Bounded::outside))]
    pub fn number(&self, point: &Point) -> Option<usize>
        ensures { is_some result ≡ list_any (same_point point.now) self.now }
    {
        if let Some(bounds) = self.bounds {
            if !bounds.has(point) {
                return None;
            }
        }
        self.pool.number(point)
    }

    /// The points by their numbers in the piece. Doesn't allocate.
    pub fn as_slice(&self) -> &[Point]
        ensures { result.now ≡ self.now }
    {
        self.pool.as_slice()
    }

    /// The pool of the points. Doesn't allocate.
    pub fn pool(&self) -> &VertexPool {
        &self.pool
    }
}
