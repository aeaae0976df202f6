//! A value that its copies share.
ghost use Rattle.std.specs.Prelude.{◌≡◌, IfOk};

use crate::OutOfMemory;
use std::alloc::Global;
use std::marker::Model;
use std::sync::Arc;

/// A value, shared by its copies: a change of a tree copies the items of a leaf.
#[derive(Drop)]
pub struct Item<T> {
    value: Arc<T>,
}

impl<T> Model for Item<T> {
    ghost use Rattle.std.specs.Arc.{arc_value};

    ghost Value = { T };

    ghost view = { λ a. arc_value a.value };
}

impl<T> Item<T> {
    /// The value, for all copies to share. Fails only when out of memory.
    pub fn new(alloc: Global, value: T) -> Result<Self, OutOfMemory>
    where
        T: Drop,
        ensures { IfOk result (λ item. item ≡ value) }
    {
        let value = Arc::new(alloc, value)?;
        Ok(Item { value })
    }

    /// The value. Doesn't allocate.
    pub fn get(&self) -> &T
        ensures { result.now ≡ self.now }
    {
        &self.value
    }

    /// The same value, shared. Fails only when out of memory.
    pub fn copy(&self) -> Result<Self, OutOfMemory>
    where
        T: Drop,
        ensures { IfOk result (λ item. item ≡ self.now) }
    {
        let value = self.value.clone()?;
        Ok(Item { value })
    }
}
