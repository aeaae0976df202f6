//! The city: a frame and a map from ids to objects.
ghost use Rattle.std.specs.Prelude.{◌≡◌, ◌==◌, true, Some, None, IfOk, IfErr, IsOk, IsSome, OnOk, OnErr, is_some};
ghost use Rattle.std.specs.Prelude.{option_copied, option_map};
ghost use Rattle.std.specs.FinMap.{empty, entries, insert, len, remove};
ghost use Rattle.city_model.specs.CityMap.{object_at, changed};

use crate::OutOfMemory;
use crate::copied::copy_map;
use crate::frame::Frame;
use crate::object::Object;
use city_members::copied::Copied;
use city_members::text::Id;
use std::alloc::Global;
use std::collections::{BTreeMap, btree_map};
use std::marker::Model;
use std::mem;

/// A city model: a frame, and objects by their ids (CityJSON 2.0, section 2).
#[derive(Drop)]
pub struct City {
    frame: Frame,
    objects: BTreeMap<Id, Object>,
}

impl Model for City {
    ghost use Rattle.city_model.specs.CityMap.{CityValue};

    ghost Value = { CityValue };

    ghost use Rattle.std.specs.Coded.{codes, coded×, coded_list, coded_ℕ};
    ghost use Rattle.std.specs.FinMap.{code, from_sorted};
    ghost use Rattle.city_members.specs.internal.DataCode.{coded_members};

    ghost coded = { coded× (Prim.hlevel (codes, coded_members))
        (code (coded_list coded_ℕ) (Prim.hlevel (codes, coded_members))) };

    ghost view = { λ c. (c.frame, from_sorted c.objects.entries) };

    ghost use Rattle.std.specs.Ordering.{nat_cmp};
    ghost use Rattle.std.specs.Cmp.Lexicographic.{slice_cmp};
    ghost use Rattle.std.specs.BTreeMap.{IsOrdered};

    ghost invariant = { λ c. IsOrdered (slice_cmp nat_cmp) c.objects };
}

impl City {
    /// A city of these objects. Doesn't allocate.
    pub fn from_parts(frame: Frame, objects: BTreeMap<Id, Object>) -> Self
        ensures frame { result.0 ≡ frame }
        ensures entries { entries result.1 ≡ objects.entries }
    {
        // (called for its contract: the ids ascend)
        let _count = objects.len();
        City { frame, objects }
    }

    /// A city without objects. Doesn't allocate.
    pub fn new(alloc: Global, frame: Frame) -> Self
        ensures { result ≡ (frame, empty) }
    {
        City {
            frame,
            objects: BTreeMap::new(alloc),
        }
    }

    /// The frame. Doesn't allocate.
    pub fn frame(&self) -> &Frame
        ensures { result.now ≡ self.now.0 }
    {
        &self.frame
    }

    /// How many objects there are. Doesn't allocate.
    pub fn len(&self) -> usize
        ensures { result ≡ len self.now.1 }
    {
        self.objects.len()
    }

    /// The object of an id. Doesn't allocate.
    pub fn get(&self, id: &Id) -> Option<&Object>
        ensures { option_copied result ≡ object_at self.now.1 id.now }
    {
        self.objects.get(id)
    }

    /// The pairs of id and object, the ids in byte order. Doesn't allocate.
    pub fn iter(&self) -> btree_map::Iter<'_, Id, Object>
        ensures { result ≡ entries self.now.1 }
    {
        self.objects.iter()
    }

    /// Sets the object of an id, and returns the previous one.
    ///
    /// If memory runs out, the city is unchanged. If the id has an object already, it doesn't
    /// allocate.
    pub fn set(&mut self, id: Id, object: Object) -> Result<Option<Object>, OutOfMemory>
        ensures old { IfOk result (λ old. old ≡ object_at self.old.1 id) }
        ensures objects { OnOk result (self.new ≡ (self.old.0, insert self.old.1 id object)) }
        ensures map { OnOk result (object_at self.new.1 ≡ changed (object_at self.old.1) id (Some object)) }
        ensures present { IsSome (object_at self.old.1 id) → IsOk result }
        ensures unchanged { OnErr result (self.new ≡ self.old) }
    {
        Ok(self.objects.insert(id, object)?)
    }

    /// Replaces the object of an id, and returns the previous one. If the id has none, the object
    /// comes back, and the city is unchanged. Doesn't allocate.
    pub fn replace(&mut self, id: &Id, object: Object) -> Result<Object, Object>
        ensures old { IfOk result (λ old. object_at self.old.1 id.now ≡ Some old) }
        ensures frame { self.new.0 ≡ self.old.0 }
        ensures map { OnOk result (object_at self.new.1 ≡ changed (object_at self.old.1) id.now (Some object)) }
        ensures back { IfErr result (λ back. back ≡ object) }
        ensures absent { OnErr result (object_at self.old.1 id.now ≡ None) }
        ensures unchanged { OnErr result (self.new ≡ self.old) }
    {
        let Some(place) = self.objects.get_mut(id) else {
            return Err(object);
        };
        let old = mem::replace(place, object);
        Ok(old)
    }

    /// Removes the object of an id, and returns it. Doesn't allocate.
    pub fn remove(&mut self, id: &Id) -> Option<Object>
        ensures old { result ≡ object_at self.old.1 id.now }
        ensures objects { self.new ≡ (self.old.0, remove self.old.1 id.now) }
        ensures map { object_at self.new.1 ≡ changed (object_at self.old.1) id.now None }
    {
        self.objects.remove(id)
    }
}

impl Copied for City {
    fn copy(&self, alloc: Global) -> Result<City, OutOfMemory> {
        let frame = self.frame.copy(alloc)?;
        let objects = copy_map(alloc, &self.objects)?;
        Ok(City { frame, objects })
    }
}
