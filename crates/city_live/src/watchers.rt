//! The hands that watch.
ghost use Rattle.std.specs.Prelude.{◌≡◌, [], Some, IsTrue, OnOk, OnErr};
ghost use Rattle.std.specs.Arc.{arc_value};
ghost use Rattle.city_live.specs.Ending.{AreTold};
ghost use Rattle.city_live.specs.Watched.{with_name, without_name};

use crate::answer::{Changed, Name};
use crate::log::Log;
use city_members::copied::Copied;
use city_members::text::Text;
use city_model::OutOfMemory;
use std::alloc::Global;
use std::collections::BTreeMap;
use std::marker::Model;
use std::sync::Arc;

/// The hands that watch.
///
/// Contracts see their names, in byte order.
#[derive(Drop)]
pub struct Watchers {
    by_name: BTreeMap<Text, Name>,
}

impl Model for Watchers {
    ghost use Rattle.std.specs.Prelude.{ℕ, List};
    ghost use Rattle.std.specs.Map.{keys_of};
    ghost use Rattle.city_live.specs.Naming.{AreNamed};

    ghost Value = { List (List ℕ) };

    ghost view = { λ w. keys_of w.by_name.entries };

    ghost invariant = { λ w. AreNamed w.by_name.entries };
}

impl Watchers {
    /// Nobody watches. Doesn't allocate.
    pub fn new(alloc: Global) -> Watchers
        ensures { result ≡ [] }
    {
        Watchers {
            by_name: BTreeMap::new(alloc),
        }
    }

    /// How many watch. Doesn't allocate.
    pub fn len(&self) -> usize {
        self.by_name.len()
    }

    /// Whether nobody watches. Doesn't allocate.
    pub fn is_empty(&self) -> bool
        ensures { IsTrue result → self.now ≡ [] }
    {
        self.by_name.is_empty()
    }

    /// Adds a hand. If memory runs out, nothing changes.
    pub fn add(&mut self, alloc: Global, hand: &Name) -> Result<(), OutOfMemory>
        ensures added { OnOk result (self.new ≡ with_name self.old (arc_value hand.now)) }
        ensures err { OnErr result (self.new ≡ self.old) }
    {
        let key = hand.copy(alloc)?;
        let name = Arc::try_clone(hand)?;
        self.by_name.insert(key, name)?;
        Ok(())
    }

    /// Takes a hand out. Doesn't allocate.
    pub fn remove(&mut self, hand: &Text)
        ensures { self.new ≡ without_name self.old hand.now }
    {
        self.by_name.remove(hand);
    }

    /// Tells each of a change, in byte order.
    pub fn tell(&self, log: &mut Log, changed: &Arc<Changed>)
        ensures { AreTold self.now (Some changed.now) log.old log.new }
    {
        for (_, hand) in self.by_name.iter() {
            log.tell(hand, changed);
        }
    }
}
