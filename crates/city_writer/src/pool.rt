//! Numbers points in the order of their first occurrence.
ghost use Rattle.std.specs.Prelude.{◌≡◌, [], IfOk, OnOk, OnErr, is_some, true};
ghost use Rattle.std.specs.List.{IsDistinct, list_any};
ghost use Rattle.city_model.specs.Shells.{same_point};
ghost use Rattle.city_writer.specs.Pool.{number_of, with_point};

use city_model::OutOfMemory;
use city_model::object::Point;
use indexmap::IndexSet;
use std::alloc::Global;
use std::hash::{BuildHasher, FoldHasher, Hasher};
use std::marker::Model;

/// The seed of callers without one of their own.
pub const FIXED_SEED: u64 = 0;

/// Hashes by a seed. With a random seed for each run, nobody can write a text full of points of one hash.
#[derive(Clone, Copy)]
pub struct SeededHasher {
    first: FoldHasher,
}

impl SeededHasher {
    fn new(seed: u64) -> Self {
        let mut first = FoldHasher::default();
        first.write(&seed.to_le_bytes());
        SeededHasher { first }
    }
}

impl BuildHasher for SeededHasher {
    type Hasher = FoldHasher;

    ghost build_hasher = { λ s. s.first };

    fn build_hasher(&self) -> FoldHasher {
        self.first
    }
}

/// How many numbers a pool remembers beside its table.
pub const PLACES: usize = 256;

/// The points met so far, each once; numbered from 0 in that order.
///
/// Most points are met again soon, by the next surfaces of the same solid. So the pool remembers the number found last
/// at each of a few places, and tries it before the table. A number counts only if its point is the one asked for.
#[derive(Drop)]
pub struct VertexPool {
    points: IndexSet<Point, SeededHasher>,
    lately: [usize; PLACES],
}

/// The place of a point's remembered number. The factors are odd and their bits are spread, so points near each other
/// mostly have different places.
#[inline(always)]
pub fn place_of(point: &Point) -> u8 {
    let x = point.x.wrapping_mul(0x1E37_79B9_7F4A_7C15);
    let y = point.y.wrapping_mul(0x42B2_AE3D_27D4_EB4F);
    let z = point.z.wrapping_mul(0x1656_67B1_9E37_79F9);
    let [.., place] = (x ^ y ^ z).to_le_bytes();
    place
}

#[inline(always)]
fn is_same(point: &Point, other: &Point) -> bool
    ensures { result ≡ same_point point.now other.now }
{
    *point == *other
}

/// Whether a point stands at this number among distinct points.
#[tactic(auto, using(crate::proofs::pool::NumberedAt::kept_at))]
#[inline(always)]
pub fn is_numbered(points: &[Point], point: &Point, number: usize) -> bool
    requires { IsDistinct same_point points.now }
    ensures number { result ≡ true → number ≡ number_of points.now point.now }
    ensures there { result ≡ true → with_point points.now point.now ≡ points.now }
{
    match points.get(number) {
        None => false,
        Some(there) => is_same(there, point),
    }
}

impl Model for VertexPool {
    ghost use Rattle.std.specs.Prelude.{List};
    ghost use Rattle.city_model.specs.declared.object.Point.{Point};

    ghost Value = { List Point };

    ghost view = { λ a. a.points.keys };
}

impl VertexPool {
    /// A pool without points. Doesn't allocate.
    pub fn new(alloc: Global) -> Self
        ensures { result ≡ [] }
    {
        VertexPool::with_seed(alloc, FIXED_SEED)
    }

    /// A pool without points. It hashes points by the seed. Doesn't allocate.
    pub fn with_seed(alloc: Global, seed: u64) -> Self
        ensures { result ≡ [] }
    {
        VertexPool {
            points: IndexSet::with_hasher(alloc, SeededHasher::new(seed)),
            lately: [0; PLACES],
        }
    }

    /// Adds a point, and gives its number. A point of the pool keeps its number.
    ///
    /// If memory runs out, the pool is unchanged.
    #[inline(always)]
    pub fn add(&mut self, point: Point) -> Result<usize, OutOfMemory>
        ensures number { IfOk result (λ i. i ≡ number_of self.old point) }
        ensures added { OnOk result (self.new ≡ with_point self.old point) }
        ensures unchanged { OnErr result (self.new ≡ self.old) }
    {
        let place = place_of(&point);
        let lately = self.lately[place as usize];
        if is_numbered(self.as_slice(), &point, lately) {
            return Ok(lately);
        }
        self.add_by_table(point, place)
    }

    /// The same, by the table alone; its number is remembered at this place. Never inlined: that keeps the callers
    /// small.
    #[inline(never)]
    fn add_by_table(&mut self, point: Point, place: u8) -> Result<usize, OutOfMemory>
        ensures number { IfOk result (λ i. i ≡ number_of self.old point) }
        ensures added { OnOk result (self.new ≡ with_point self.old point) }
        ensures unchanged { OnErr result (self.new ≡ self.old) }
    {
        let (number, _) = self.points.insert_full(point)?;
        self.lately[place as usize] = number;
        Ok(number)
    }

    /// The number of a point; `None` if the pool doesn't have it. Doesn't allocate.
    pub fn number(&self, point: &Point) -> Option<usize>
        ensures { is_some result ≡ list_any (same_point point.now) self.now }
    {
        self.points.get_index_of(point)
    }

    /// The points by their numbers. Doesn't allocate.
    pub fn points(&self) -> &IndexSet<Point, SeededHasher>
        ensures { result.now.keys ≡ self.now }
    {
        &self.points
    }

    /// The points by their numbers, each once. Doesn't allocate.
    pub fn as_slice(&self) -> &[Point]
        ensures points { result.now ≡ self.now }
        ensures distinct { IsDistinct same_point self.now }
    {
        self.points.as_slice()
    }
}
