//! The keys of the last commits.
use city_members::copied::Copied;
use city_members::text::Text;
use city_model::OutOfMemory;
use std::alloc::Global;
use std::collections::BTreeMap;

/// How many keys are known at most. The oldest is forgotten first.
pub const MAX_KEYS: usize = 65_536;

/// A commit that was made with a key.
#[derive(Drop)]
pub struct Made {
    /// The name of its script or transaction.
    pub name: Text,
    /// The version after it.
    pub version: u64,
    /// How many keys were noted before.
    turn: u64,
}

/// The keys of the last commits that had one.
#[derive(Drop)]
pub struct Keys {
    alloc: Global,
    made: BTreeMap<Text, Made>,
    /// The keys, by how many were noted before.
    in_turn: BTreeMap<u64, Text>,
    turn: u64,
}

impl Keys {
    /// No keys. Doesn't allocate.
    pub fn new(alloc: Global) -> Keys {
        Keys {
            alloc,
            made: BTreeMap::new(alloc),
            in_turn: BTreeMap::new(alloc),
            turn: 0,
        }
    }

    /// How many keys are known. Doesn't allocate.
    pub fn len(&self) -> usize {
        self.made.len()
    }

    /// The commit that was made with this key, if it is known. Doesn't allocate.
    pub fn get(&self, key: &Text) -> Option<&Made> {
        self.made.get(key)
    }

    /// Notes the key of a commit. If memory runs out, the others are known as before, or all but the oldest.
    pub fn note(&mut self, key: &Text, name: &Text, version: u64) -> Result<(), OutOfMemory> {
        let copy = key.copy(self.alloc)?;
        let made = Made {
            name: name.copy(self.alloc)?,
            version,
            turn: self.turn,
        };
        let listed = key.copy(self.alloc)?;
        if self.made.len() >= MAX_KEYS {
            self.forget_oldest();
        }
        self.in_turn.insert(self.turn, listed)?;
        match self.made.insert(copy, made) {
            Ok(before) => {
                if let Some(before) = before {
                    self.in_turn.remove(&before.turn);
                }
                self.turn = self.turn.wrapping_add(1);
                Ok(())
            }
            Err(_) => {
                self.in_turn.remove(&self.turn);
                Err(OutOfMemory)
            }
        }
    }

    /// Forgets a key. Doesn't allocate.
    pub(crate) fn forget(&mut self, key: &Text) {
        if let Some(made) = self.made.remove(key) {
            self.in_turn.remove(&made.turn);
        }
    }

    /// Forgets the key that was noted first.
    fn forget_oldest(&mut self) {
        if let Some((_, key)) = self.in_turn.pop_first() {
            self.made.remove(&key);
        }
    }

    /// The keys, in the order in which they were noted, each with its commit.
    pub(crate) fn each(&self) -> Result<Vec<(&Text, &Made)>, OutOfMemory> {
        let mut each = Vec::with_capacity(self.alloc, self.in_turn.len())?;
        for (_, key) in &self.in_turn {
            if let Some(made) = self.made.get(key) {
                each.push((key, made))?;
            }
        }
        Ok(each)
    }
}
