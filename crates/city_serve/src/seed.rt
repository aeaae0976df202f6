//! The seed for a run's hashes of points.
use city_doc::FIXED_SEED;
use std::hash::{BuildHasher, RandomState};
use std::random::RandomSource;

/// A number unknown to whoever writes a text, so nobody can write a text with one hash for all
/// points. The fixed one, if the system draws none.
pub fn drawn_seed<R: RandomSource>(rt: &R) -> u64 {
    match RandomState::new(rt) {
        Ok(state) => state.hash_one(0_u64),
        Err(_) => FIXED_SEED,
    }
}
