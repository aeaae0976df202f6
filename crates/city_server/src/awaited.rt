//! The keys of requests that aren't over.

use city_members::copied::Copied;
use city_members::text::Text;
use city_model::OutOfMemory;
use std::alloc::Global;
use std::collections::{BTreeMap, BTreeSet};

/// The keys of requests that aren't over: at most one of a hand, and each once.
#[derive(Drop)]
pub(crate) struct Awaited {
    alloc: Global,
    /// The key of each hand that has one.
    by_hand: BTreeMap<Text, Text>,
    keys: BTreeSet<Text>,
}

impl Awaited {
    /// None yet. Doesn't allocate.
    pub fn new(alloc: Global) -> Awaited {
        Awaited {
            alloc,
            by_hand: BTreeMap::new(alloc),
            keys: BTreeSet::new(alloc),
        }
    }

    /// Whether a request with this key isn't over. Doesn't allocate.
    pub fn has_key(&self, key: &Text) -> bool {
        self.keys.contains(key)
    }

    /// Whether a request of this hand with a key isn't over. Doesn't allocate.
    pub fn has_hand(&self, hand: &Text) -> bool {
        !self.by_hand.is_empty() && self.by_hand.contains_key(hand)
    }

    /// Notes the key of a hand's request. If memory runs out, nothing is noted.
    pub fn note(&mut self, hand: &Text, key: &Text) -> Result<(), OutOfMemory> {
        let listed = key.copy(self.alloc)?;
        let (hand, key) = (hand.copy(self.alloc)?, key.copy(self.alloc)?);
        self.by_hand.insert(hand, key)?;
        self.keys.insert(listed)?;
        Ok(())
    }

    /// The hand's request with a key, if it has one, is over. Doesn't allocate.
    pub fn forget(&mut self, hand: &Text) {
        if let Some(key) = self.by_hand.remove(hand) {
            self.keys.remove(&key);
        }
    }
}
