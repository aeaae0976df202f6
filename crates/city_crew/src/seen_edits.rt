//! The numbers of changes seen by a viewer.
ghost use Rattle.std.specs.Prelude.{◌≡◌, ◌<◌, [], length, OnOk};
ghost use Rattle.city_crew.specs.Rising.{Rises, last_of};

use city_model::OutOfMemory;
use std::alloc::Global;
use std::marker::Model;

/// The number of changes at a viewer's first look, then each larger number seen.
#[derive(Drop)]
pub struct SeenEdits {
    numbers: Vec<u64>,
    last: u64,
}

impl Model for SeenEdits {
    ghost use Rattle.std.specs.Prelude.{◌≡◌, List, ℕ};
    ghost use Rattle.city_crew.specs.Rising.{Rises, last_of};

    ghost Value = { List ℕ };

    ghost view = { λ s. s.numbers.items };

    ghost invariant = { λ s. Rises s.numbers.items × (s.last ≡ last_of s.numbers.items) };
}

impl SeenEdits {
    /// No looks yet. Doesn't allocate.
    pub fn new(alloc: Global) -> SeenEdits
        ensures { result ≡ [] }
    {
        SeenEdits {
            numbers: Vec::new(alloc),
            last: 0,
        }
    }

    /// The last number, or 0.
    pub fn last(&self) -> u64
        ensures { result ≡ last_of self.now }
    {
        self.last
    }

    /// Keeps the number if it is the first or larger than the last.
    #[tactic(auto, using(crate::proofs::Rising::rises_more, crate::proofs::Rising::last_more))]
    pub fn keep(&mut self, edits: u64) -> Result<(), OutOfMemory>
        ensures { OnOk result (0 < length self.new) }
    {
        if !self.numbers.is_empty() && edits <= self.last {
            return Ok(());
        }
        self.numbers.push(edits)?;
        self.last = edits;
        Ok(())
    }

    /// The numbers, each larger than the one before.
    pub fn into_vec(self) -> Vec<u64>
        ensures numbers { result.items ≡ self }
        ensures rise { Rises self }
    {
        self.numbers
    }
}
