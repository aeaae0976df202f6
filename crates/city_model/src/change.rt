//! The writes of a commit, as a finite map.
ghost use Rattle.std.specs.Prelude.{◌≡◌, ◌++◌, ℕ, List, [], Some, length, option_to_list, IfNone, OnOk, OnErr};
ghost use Rattle.std.specs.Prelude.{if◌then◌else◌};
ghost use Rattle.std.specs.List.Sorted.{IsStrictlySortedBy};
ghost use Rattle.std.specs.Map.{keys_of};
ghost use Rattle.std.specs.Option.{unwrap_or};
ghost use Rattle.std.specs.Ordering.{nat_cmp};
ghost use Rattle.std.specs.Cmp.Lexicographic.{slice_cmp};
ghost use Rattle.city_model.specs.CityMap.{CityMap, changed, same_id};
ghost use Rattle.city_model.specs.Runs.{after_change};
ghost use Rattle.city_model.specs.Writing.{write_in};

use crate::OutOfMemory;
use crate::copied::copy_map;
use crate::object::Object;
use city_members::copied::Copied;
use city_members::text::Id;
use std::alloc::Global;
use std::collections::{BTreeMap, btree_map};
use std::marker::Model;

/// The writes of a commit: ids, each with its object afterwards, or `None` if the object is
/// removed.
///
/// Contracts see the pairs of id and object, the ids in byte order, each once.
#[derive(Drop)]
pub struct Change {
    writes: BTreeMap<Id, Option<Object>>,
}

impl Model for Change {
    ghost use Rattle.std.specs.Prelude.{ℕ, List, Option};
    ghost use Rattle.city_model.specs.declared.object.Object.{Object};

    ghost Value = { List (List ℕ × Option Object) };

    ghost use Rattle.std.specs.Coded.{codes};
    ghost use Rattle.city_members.specs.internal.DataCode.{coded_members};

    ghost coded = { Prim.hlevel (codes, coded_members) };

    ghost view = { λ c. c.writes.entries };

    ghost use Rattle.std.specs.Ordering.{nat_cmp};
    ghost use Rattle.std.specs.Cmp.Lexicographic.{slice_cmp};
    ghost use Rattle.std.specs.BTreeMap.{IsOrdered};

    ghost invariant = { λ c. IsOrdered (slice_cmp nat_cmp) c.writes };
}

impl Change {
    /// A change without writes. Doesn't allocate.
    pub fn new(alloc: Global) -> Self
        ensures { result ≡ [] }
    {
        Change {
            writes: BTreeMap::new(alloc),
        }
    }

    /// How many ids it writes. Doesn't allocate.
    pub fn len(&self) -> usize
        ensures { result ≡ length self.now }
    {
        self.writes.len()
    }

    /// The pairs of id and object, the ids in byte order. Doesn't allocate.
    ///
    /// Since each id is there once, a map after the change has its write at a written id, and the
    /// previous object at any other.
    pub fn iter(&self) -> btree_map::Iter<'_, Id, Option<Object>>
        ensures pairs { result ≡ self.now }
        ensures in_byte_order { IsStrictlySortedBy (slice_cmp nat_cmp) (keys_of self.now) }
        ensures map { (m : CityMap) (q : List ℕ) → after_change m self.now q ≡ unwrap_or (write_in self.now q) (m q) }
    {
        self.writes.iter()
    }

    /// Writes the object of an id, or that it has none, over an earlier write.
    ///
    /// If memory runs out, the change stays as it was, and the object is dropped.
    pub fn set(&mut self, id: Id, object: Option<Object>) -> Result<(), OutOfMemory>
        ensures writes { OnOk result
            ((q : List ℕ) → write_in self.new q ≡ (if same_id id q then Some object else write_in self.old q)) }
        ensures map { OnOk result
            ((m : CityMap) → after_change m self.new ≡ changed (after_change m self.old) id object) }
        ensures in_byte_order { IsStrictlySortedBy (slice_cmp nat_cmp) (keys_of self.new) }
        ensures unchanged { OnErr result (self.new ≡ self.old) }
    {
        self.writes.insert(id, object)?;
        Ok(())
    }

    /// Takes out the first pair in byte order, if there is one. Doesn't allocate.
    pub fn pop_first(&mut self) -> Option<(Id, Option<Object>)>
        ensures pairs { self.old ≡ option_to_list result ++ self.new }
        ensures none { IfNone result (self.old ≡ []) }
        ensures in_byte_order { IsStrictlySortedBy (slice_cmp nat_cmp) (keys_of self.old) }
    {
        self.writes.pop_first()
    }
}

impl Copied for Change {
    fn copy(&self, alloc: Global) -> Result<Change, OutOfMemory> {
        let writes = copy_map(alloc, &self.writes)?;
        Ok(Change { writes })
    }
}
