//! Points are hashed by the seed; each run draws one.
use city_doc::VertexPool;
use city_model::object::Point;
use city_serve::drawn_seed;
use std::alloc::Global;
use std::hash::BuildHasher;

/// How a pool with this seed hashes a point.
fn hash_by(alloc: Global, seed: u64, point: Point) -> u64 {
    let pool = VertexPool::with_seed(alloc, seed);
    pool.points().hasher().hash_one(point)
}

const POINTS: &[Point] = &[Point { x: 0, y: 0, z: 0 }, Point { x: 3, y: -4, z: 5 }];

#[test]
fn each_seed_hashes_a_point_otherwise(rt: HostRuntime) {
    let alloc = rt.alloc();
    for point in POINTS {
        for (one, other) in [(0, 1), (1, 2), (0, u64::MAX)] {
            let hash = hash_by(alloc, one, *point);
            assert_eq!(rt; hash_by(alloc, one, *point), hash);
            assert!(rt; hash_by(alloc, other, *point) != hash, "{other}");
        }
    }
}

#[test]
fn each_draw_is_another_seed(rt: HostRuntime) {
    let (one, other, third) = (drawn_seed(&rt), drawn_seed(&rt), drawn_seed(&rt));
    assert!(rt; one != other && other != third && one != third);
}
