//! How the asker of a lock stands.
ghost use Rattle.std.specs.Prelude.{◌≡◌, is_some};
ghost use Rattle.std.specs.Ordering.{nat_cmp};
ghost use Rattle.std.specs.Cmp.Lexicographic.{slice_cmp};
ghost use Rattle.std.specs.BTreeMap.{get};
ghost use Rattle.city_locks.specs.Locks.{answer_of, mode_of};

use crate::answer::Answer;
use crate::holders::Holders;
use city_members::text::Id;
use city_model::mode::Mode;
use std::collections::BTreeMap;

/// How an asker of an id stands.
#[derive(Clone, Copy)]
pub struct LockRequest {
    /// The answer to it.
    pub answer: Answer,
    /// Its mode at the id, if it is a holder.
    pub own: Option<Mode>,
    /// Whether the id has holders.
    pub is_held: bool,
}

impl LockRequest {
    /// How an asker of the id stands. The id is looked up once.
    pub fn at(held: &BTreeMap<Id, Holders>, stamp: u64, id: &Id, mode: Mode) -> LockRequest
        ensures answer { result.answer ≡ answer_of held.now.entries stamp id.now mode }
        ensures own { result.own ≡ mode_of held.now.entries stamp id.now }
        ensures is_held { result.is_held ≡ is_some (get (slice_cmp nat_cmp) held.now id.now) }
    {
        match held.get(id) {
            Some(holders) => LockRequest {
                answer: holders.answer(stamp, mode),
                own: holders.mode(stamp),
                is_held: true,
            },
            None => LockRequest {
                answer: Answer::Granted,
                own: None,
                is_held: false,
            },
        }
    }
}
