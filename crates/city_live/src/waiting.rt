//! Waiting works, by their reasons.
use city_locks::Mode;
use city_members::copied::Copied;
use city_members::text::Id;
use city_model::OutOfMemory;
use std::alloc::Global;
use std::collections::{BTreeMap, BTreeSet};

/// The stamps of waiting works, by the ids of the locks they want, with the mode; and by the stamps in front
/// of them.
#[derive(Drop)]
pub struct Waiting {
    alloc: Global,
    at_ids: BTreeMap<Id, BTreeMap<u64, Mode>>,
    behind: BTreeMap<u64, BTreeSet<u64>>,
}

impl Waiting {
    /// Nothing waits. Doesn't allocate.
    pub fn new(alloc: Global) -> Waiting {
        Waiting {
            alloc,
            at_ids: BTreeMap::new(alloc),
            behind: BTreeMap::new(alloc),
        }
    }

    /// Whether nothing waits. Doesn't allocate.
    pub fn is_empty(&self) -> bool {
        self.at_ids.is_empty() && self.behind.is_empty()
    }

    /// Lists a stamp at an id, for a lock in the mode. If memory runs out, it isn't listed.
    pub fn add_at(&mut self, id: &Id, stamp: u64, mode: Mode) -> Result<(), OutOfMemory> {
        if let Some(waiters) = self.at_ids.get_mut(id) {
            waiters.insert(stamp, mode)?;
            return Ok(());
        }
        let mut waiters = BTreeMap::new(self.alloc);
        waiters.insert(stamp, mode)?;
        self.at_ids.insert(id.copy(self.alloc)?, waiters)?;
        Ok(())
    }

    /// Lists a stamp behind another. If memory runs out, it isn't listed.
    pub fn add_behind(&mut self, other: u64, stamp: u64) -> Result<(), OutOfMemory> {
        if let Some(waiters) = self.behind.get_mut(&other) {
            waiters.insert(stamp)?;
            return Ok(());
        }
        let mut waiters = BTreeSet::new(self.alloc);
        waiters.insert(stamp)?;
        self.behind.insert(other, waiters)?;
        Ok(())
    }

    /// Takes a stamp off the list at an id. Doesn't allocate.
    pub fn remove_at(&mut self, id: &Id, stamp: u64) {
        if let Some(waiters) = self.at_ids.get_mut(id) {
            waiters.remove(&stamp);
            if waiters.is_empty() {
                self.at_ids.remove(id);
            }
        }
    }

    /// Takes a stamp off the list behind another. Doesn't allocate.
    pub fn remove_behind(&mut self, other: u64, stamp: u64) {
        if let Some(waiters) = self.behind.get_mut(&other) {
            waiters.remove(&stamp);
            if waiters.is_empty() {
                self.behind.remove(&other);
            }
        }
    }

    /// The oldest waiting stamp at the id with a mode in conflict with this one, if it is older than the
    /// stamp. Doesn't allocate.
    pub fn older_at(&self, id: &Id, stamp: u64, mode: Mode) -> Option<u64> {
        for (other, wanted) in self.at_ids.get(id)?.iter() {
            if stamp <= *other {
                return None;
            }
            if mode.is_exclusive() || wanted.is_exclusive() {
                return Some(*other);
            }
        }
        None
    }

    /// Takes the list at an id. Doesn't allocate.
    pub fn take_at(&mut self, id: &Id) -> Option<BTreeMap<u64, Mode>> {
        self.at_ids.remove(id)
    }

    /// Takes the list behind a stamp. Doesn't allocate.
    pub fn take_behind(&mut self, other: u64) -> Option<BTreeSet<u64>> {
        self.behind.remove(&other)
    }
}
