//! Fallible copies: memory may run out.
ghost use Rattle.std.specs.Prelude.{◌≡◌, IfOk};

use crate::OutOfMemory;
use crate::kept::extra::Extra;
use crate::kept::site::Site;
use crate::sequence::Sequence;
use crate::text::Text;
use std::alloc::Global;

/// A value with a fallible copy.
pub trait Copied {
    fn copy(&self, alloc: Global) -> Result<Self, OutOfMemory>
        ensures { IfOk result (λ c. c ≡ self.now) };
}

impl Copied for Text {
    fn copy(&self, alloc: Global) -> Result<Text, OutOfMemory> {
        Ok(Text::new(self.as_str().to_string(alloc)?))
    }
}

impl<T: Copied + Drop> Copied for Sequence<T> {
    fn copy(&self, alloc: Global) -> Result<Sequence<T>, OutOfMemory> {
        let items = self.as_slice();
        let mut copies = Vec::with_capacity(alloc, items.len())?;
        for item in items {
            copies.push(item.copy(alloc)?)?;
        }
        Ok(Sequence::from_vec(copies))
    }
}

impl<P: Site> Copied for Extra<P> {
    fn copy(&self, _alloc: Global) -> Result<Extra<P>, OutOfMemory> {
        self.copy_members()
    }
}

impl<T: Copied> Copied for Option<T> {
    fn copy(&self, alloc: Global) -> Result<Option<T>, OutOfMemory> {
        match self {
            None => Ok(None),
            Some(item) => Ok(Some(item.copy(alloc)?)),
        }
    }
}

impl<A: Copied + Drop, B: Copied> Copied for (A, B) {
    fn copy(&self, alloc: Global) -> Result<(A, B), OutOfMemory> {
        let first = self.0.copy(alloc)?;
        let second = self.1.copy(alloc)?;
        Ok((first, second))
    }
}
