//! A value shared by its copies.
ghost use Rattle.std.specs.Prelude.{◌≡◌, IfOk};

use crate::OutOfMemory;
use crate::copied::Copied;
use std::alloc::Global;
use std::marker::Model;
use std::sync::Arc;

#[derive(Drop)]
enum Storage<T> {
    Own(T),
    Shared(Arc<T>),
}

/// A value, shared by its copies: a body or its geometries may be long, and each edit of an object
/// writes the object anew.
#[derive(Drop)]
pub struct Shared<T> {
    storage: Storage<T>,
}

impl<T> Model for Shared<T> {
    ghost use Rattle.city_members.specs.internal.Stored.{stored};

    ghost Value = { T };

    ghost view = { λ s. stored s.storage };
}

impl<T> Shared<T> {
    /// The value, for all copies to share. Fails only when out of memory.
    pub fn new(alloc: Global, value: T) -> Result<Self, OutOfMemory>
    where
        T: Drop,
        ensures { IfOk result (λ shared. shared ≡ value) }
    {
        Ok(Shared {
            storage: Storage::Shared(Arc::new(alloc, value)?),
        })
    }

    /// The value by itself: a copy copies it. Doesn't allocate.
    pub fn unshared(value: T) -> Self
        ensures { result ≡ value }
    {
        Shared {
            storage: Storage::Own(value),
        }
    }

    /// The value. Doesn't allocate.
    pub fn get(&self) -> &T
        ensures { result.now ≡ self.now }
    {
        match &self.storage {
            Storage::Own(value) => value,
            Storage::Shared(value) => value,
        }
    }

    /// The value itself, if it stands alone, or else a copy. Fails only when out of memory.
    pub fn into_owned(self, alloc: Global) -> Result<T, OutOfMemory>
    where
        T: Copied + Drop,
        ensures { IfOk result (λ value. value ≡ self) }
    {
        match self.storage {
            Storage::Own(value) => Ok(value),
            Storage::Shared(value) => value.copy(alloc),
        }
    }
}

impl<T: Copied + Drop> Copied for Shared<T> {
    fn copy(&self, alloc: Global) -> Result<Shared<T>, OutOfMemory> {
        match &self.storage {
            Storage::Own(value) => Shared::new(alloc, value.copy(alloc)?),
            Storage::Shared(value) => {
                let storage = Storage::Shared(value.clone()?);
                Ok(Shared { storage })
            }
        }
    }
}
