//! The open transactions: their reserved ids, and an undo image of each.
ghost use Rattle.std.specs.Prelude.{◌≡◌, ◌↔◌, ◌==◌, IsTrue, ℕ, List, [], ◌∷◌, ◌++◌, None, Some, IfOk, OnOk, OnErr};
ghost use Rattle.std.specs.Prelude.{is_none, is_ok, is_some, true, ◌&&◌, option_copied, option_map, unwrap_or};
ghost use Rattle.std.specs.Prelude.{if◌then◌else◌};
ghost use Rattle.std.specs.BTreeMap.{IsOrdered};
ghost use Rattle.std.specs.Cmp.Lexicographic.{slice_cmp};
ghost use Rattle.std.specs.Option.{option_or};
ghost use Rattle.std.specs.Ordering.{nat_cmp};
ghost use Rattle.city_model.specs.CityMap.{changed, has_id, object_at, same_id};
ghost use Rattle.city_txn.specs.Placeholder.{placeholder};
ghost use Rattle.city_txn.specs.declared.end.End.{End};
ghost use Rattle.city_txn.specs.internal.Ending.{left_at_end};
ghost use Rattle.city_txn.specs.internal.Images.{unwritten_image, written_over, image_unwritten, put_back};
ghost use Rattle.city_txn.specs.internal.Images.{put_back_at, image_put};
ghost use Rattle.city_txn.specs.internal.Reserved.{Became, HasRoom};
ghost use Rattle.city_txn.specs.internal.Transactions.{image_at, listed_by, reservations_of};

use crate::end::End;
use crate::placeholder::object_or_placeholder;
use crate::reserved;
use crate::undo_image::UndoImage;
use city_locks::by_stamp::{push, push_at};
use city_members::copied::Copied;
use city_members::sequence::Sequence;
use city_members::text::Id;
use city_model::OutOfMemory;
use city_model::city::City;
use city_model::copied::copy_map;
use city_model::object::Object;
use std::alloc::Global;
use std::collections::BTreeMap;

/// The open transactions: an undo image of each reserved id, and the reserved ids of each transaction,
/// by its stamp.
#[derive(Drop)]
pub struct Transactions {
    alloc: Global,
    images: BTreeMap<Id, UndoImage>,
    reservations: BTreeMap<u64, Sequence<Id>>,
}

impl Transactions {
    /// No stamp is open, and no id reserved. Doesn't allocate.
    pub fn new(alloc: Global) -> Self
        ensures images { result.images.entries ≡ [] }
        ensures reservations { result.reservations.entries ≡ [] }
    {
        Transactions {
            alloc,
            images: BTreeMap::new(alloc),
            reservations: BTreeMap::new(alloc),
        }
    }

    /// Whether the stamp is open. Doesn't allocate.
    pub fn is_open(&self, stamp: u64) -> bool
        ensures { result ≡ is_some (listed_by self.now.reservations.entries stamp) }
    {
        self.reservations.contains_key(&stamp)
    }

    /// Whether no stamp is open. Doesn't allocate.
    pub fn is_idle(&self) -> bool
        ensures { IsTrue result ↔ (self.now.reservations.entries ≡ []) }
    {
        self.reservations.is_empty()
    }

    /// The image of the id, if it is reserved. Doesn't allocate.
    pub fn image(&self, id: &Id) -> Option<&UndoImage>
        ensures { option_copied result ≡ image_at self.now.images id.now }
    {
        self.images.get(id)
    }

    /// The images alone, copied: they share the objects' contents.
    pub fn copy_images(&self) -> Result<Transactions, OutOfMemory>
        ensures { IfOk result (λ copy. copy.images.entries ≡ self.now.images.entries) }
    {
        Ok(Transactions {
            alloc: self.alloc,
            images: copy_map(self.alloc, &self.images)?,
            reservations: BTreeMap::new(self.alloc),
        })
    }

    /// The ids reserved by the stamp; none if it isn't open. Doesn't allocate.
    pub fn reserved(&self, stamp: u64) -> &[Id]
        ensures { result.now ≡ reservations_of self.now.reservations.entries stamp }
    {
        match self.reservations.get(&stamp) {
            Some(ids) => ids.as_slice(),
            None => &[],
        }
    }

    /// Opens the stamp, with no id reserved. If memory runs out, nothing changes.
    pub fn open(&mut self, stamp: u64) -> Result<(), OutOfMemory>
        ensures images { self.new.images ≡ self.old.images }
        ensures ok { OnOk result ((t : ℕ) → listed_by self.new.reservations.entries t
            ≡ (if stamp == t then Some [] else listed_by self.old.reservations.entries t)) }
        ensures err { OnErr result (self.new.reservations.entries ≡ self.old.reservations.entries) }
    {
        self.reservations.insert(stamp, Sequence::new(self.alloc))?;
        Ok(())
    }

    /// Reserves an id without image for the stamp: it gets room, and an unwritten image. If memory
    /// runs out, nothing changes.
    pub fn reserve(&mut self, city: &mut City, stamp: u64, id: &Id) -> Result<(), OutOfMemory>
        requires { image_at self.old.images id.now ≡ None }
        ensures became { Became (λ q. is_ok result && same_id id.now q)
            (λ q. Some (unwrap_or (object_at city.old.1 id.now) placeholder))
            (λ q. Some (unwritten_image stamp (is_none (object_at city.old.1 id.now))))
            city.old city.new self.old.images self.new.images }
        ensures listed { (t : ℕ) → listed_by self.new.reservations.entries t
            ≡ (if is_ok result && (stamp == t)
            then Some (reservations_of self.old.reservations.entries stamp ++ id.now ∷ [])
            else listed_by self.old.reservations.entries t) }
    {
        let listed = id.copy(self.alloc)?;
        self.add_image(city, stamp, id)?;
        let Ok(()) = push(&mut self.reservations, self.alloc, stamp, listed) else {
            self.end(city, End::RollBack, id);
            return Err(OutOfMemory);
        };
        Ok(())
    }

    /// Gives an id without image room, and an unwritten image. If memory runs out, nothing changes.
    #[tactic(auto, using(city_members::proofs::Ids::same_id_true))]
    fn add_image(&mut self, city: &mut City, stamp: u64, id: &Id) -> Result<(), OutOfMemory>
        requires { image_at self.old.images id.now ≡ None }
        ensures became { Became (λ q. is_ok result && same_id id.now q)
            (λ q. Some (unwrap_or (object_at city.old.1 id.now) placeholder))
            (λ q. Some (unwritten_image stamp (is_none (object_at city.old.1 id.now))))
            city.old city.new self.old.images self.new.images }
        ensures reservations { self.new.reservations ≡ self.old.reservations }
    {
        let key = id.copy(self.alloc)?;
        let absent = city.get(id).is_none();
        let image = UndoImage::unwritten(stamp, absent);
        self.images.insert(key, image)?;
        let Ok(()) = reserved::make_room(city, self.alloc, id, absent) else {
            let _ = self.images.remove(id);
            return Err(OutOfMemory);
        };
        Ok(())
    }

    /// Writes an id: an object, or a delete. The stamp is open, and no other has reserved the id.
    /// If the id has no image, it is reserved for the stamp. If memory runs out, nothing changes.
    pub fn put(
        &mut self,
        city: &mut City,
        stamp: u64,
        id: Id,
        object: Option<Object>,
    ) -> Result<(), OutOfMemory>
        requires room { is_some (image_at self.old.images id) ≡ true → HasRoom city.old id }
        requires opened { is_some (listed_by self.old.reservations.entries stamp) ≡ true }
        ensures became { Became (λ q. is_ok result && same_id id q)
            (λ q. Some (unwrap_or object placeholder))
            (λ q. Some (image_put stamp (object_at city.old.1 id) (is_none object) (image_at self.old.images id)))
            city.old city.new self.old.images self.new.images }
        ensures listed { (t : ℕ) → listed_by self.new.reservations.entries t
            ≡ (if (is_ok result && is_none (image_at self.old.images id)) && (stamp == t)
            then Some (reservations_of self.old.reservations.entries stamp ++ id ∷ [])
            else listed_by self.old.reservations.entries t) }
        ensures reservations { is_some (image_at self.old.images id) ≡ true
            → self.new.reservations ≡ self.old.reservations }
    {
        let is_first = self.place(city, stamp, &id, object)?;
        if !is_first {
            return Ok(());
        }
        if let Err(id) = push_at(&mut self.reservations, stamp, id) {
            self.end(city, End::RollBack, &id);
            return Err(OutOfMemory);
        }
        Ok(())
    }

    /// Puts the object, or a placeholder, at an id, and the previous object into its image. Returns
    /// whether the id had no image. If memory runs out, nothing changes.
    #[tactic(auto, using(city_members::proofs::Ids::same_id_true, crate::proofs::StoreChanged::set_at))]
    fn place(
        &mut self,
        city: &mut City,
        stamp: u64,
        id: &Id,
        object: Option<Object>,
    ) -> Result<bool, OutOfMemory>
        requires { is_some (image_at self.old.images id.now) ≡ true → HasRoom city.old id.now }
        ensures became { Became (λ q. is_ok result && same_id id.now q)
            (λ q. Some (unwrap_or object placeholder))
            (λ q. Some (image_put stamp (object_at city.old.1 id.now) (is_none object)
            (image_at self.old.images id.now)))
            city.old city.new self.old.images self.new.images }
        ensures first { IfOk result (λ is_first. is_first ≡ is_none (image_at self.old.images id.now)) }
        ensures reservations { self.new.reservations ≡ self.old.reservations }
    {
        let key = id.copy(self.alloc)?;
        let deleted = object.is_none();
        let object = object_or_placeholder(self.alloc, object);
        let before = reserved::put(city, self.alloc, id, object)?;
        let image = UndoImage::written(stamp, before, deleted);
        match self.keep_image(city, key, image)? {
            Some(old) => {
                self.keep_before(id, old);
                Ok(false)
            }
            None => Ok(true),
        }
    }

    /// Keeps the image of an id with room, and returns its old image. If memory runs out, the
    /// previous object goes back into the city.
    #[tactic(auto, using(city_members::proofs::Ids::same_id_true))]
    fn keep_image(
        &mut self,
        city: &mut City,
        key: Id,
        image: UndoImage,
    ) -> Result<Option<UndoImage>, OutOfMemory>
        requires { HasRoom city.old key }
        ensures objects { (q : List ℕ) → object_at city.new.1 q
            ≡ (if is_ok result then object_at city.old.1 q
            else changed (object_at city.old.1) key
            (left_at_end End.RollBack (object_at city.old.1 key) (Some image)) q) }
        ensures frame { city.new.0 ≡ city.old.0 }
        ensures old { IfOk result (λ old. old ≡ image_at self.old.images key) }
        ensures images { (q : List ℕ) → image_at self.new.images q
            ≡ (if is_ok result && same_id key q then Some image else image_at self.old.images q) }
        ensures ordered { IsOrdered (slice_cmp nat_cmp) self.new.images }
        ensures reservations { self.new.reservations ≡ self.old.reservations }
    {
        match self.images.insert(key, image) {
            Ok(old) => Ok(old),
            Err(refused) => {
                let (key, image) = refused.value;
                image.settle(city, key, End::RollBack);
                Err(OutOfMemory)
            }
        }
    }

    /// Carries the previous object from `old`, the id's old image, into its new one. Doesn't
    /// allocate.
    fn keep_before(&mut self, id: &Id, old: UndoImage)
        requires { is_some (image_at self.old.images id.now) ≡ true }
        ensures images { (q : List ℕ) → image_at self.new.images q ≡ (if same_id id.now q
            then option_map (λ image. written_over (put_back image) image.deleted old) (image_at self.old.images id.now)
            else image_at self.old.images q) }
        ensures ordered { IsOrdered (slice_cmp nat_cmp) self.new.images }
        ensures reservations { self.new.reservations ≡ self.old.reservations }
    {
        match self.images.get_mut(id) {
            Some(image) => image.keep_before(old),
            None => unreachable!(),
        }
    }

    /// Puts the object, or a placeholder, at a reserved id of the city, and the previous object
    /// into its image. Doesn't allocate.
    pub fn write(&mut self, city: &mut City, id: Id, object: Option<Object>)
        requires has_room { HasRoom city.old id }
        requires there { is_some (image_at self.old.images id) ≡ true }
        ensures became { Became (same_id id) (λ q. Some (unwrap_or object placeholder))
            (λ q. option_map (written_over (object_at city.old.1 id) (is_none object)) (image_at self.old.images id))
            city.old city.new self.old.images self.new.images }
        ensures reservations { self.new.reservations ≡ self.old.reservations }
    {
        let deleted = object.is_none();
        let object = object_or_placeholder(self.alloc, object);
        match self.images.get_mut(&id) {
            Some(image) => {
                let old = reserved::swap(city, id, object);
                image.write_over(old, deleted);
            }
            None => unreachable!(),
        }
    }

    /// Undoes the write of a reserved id, if there is one: the previous object goes back into the
    /// city. Doesn't allocate.
    pub fn unwrite(&mut self, city: &mut City, id: Id)
        requires has_room { HasRoom city.old id }
        requires there { is_some (image_at self.old.images id) ≡ true }
        ensures became { Became (same_id id)
            (λ q. option_or (put_back_at (image_at self.old.images id)) (object_at city.old.1 id))
            (λ q. option_map image_unwritten (image_at self.old.images id))
            city.old city.new self.old.images self.new.images }
        ensures reservations { self.new.reservations ≡ self.old.reservations }
    {
        match self.images.get_mut(&id) {
            Some(image) => {
                let before = image.unwrite();
                reserved::refill(city, id, before);
            }
            None => unreachable!(),
        }
    }

    /// Ends a transaction at the id, and removes the id's image, if there is one. Doesn't allocate.
    #[tactic(auto, using(city_members::proofs::Ids::same_id_true))]
    pub fn end(&mut self, city: &mut City, end: End, id: &Id)
        requires { is_some (image_at self.old.images id.now) ≡ true → HasRoom city.old id.now }
        ensures became { Became (same_id id.now)
            (λ q. left_at_end end (object_at city.old.1 id.now) (image_at self.old.images id.now)) (λ q. None)
            city.old city.new self.old.images self.new.images }
        ensures reservations { self.new.reservations ≡ self.old.reservations }
    {
        if let Some((key, image)) = self.images.remove_entry(id) {
            image.settle(city, key, end);
        }
    }

    /// Ends a transaction at all ids with an image, and removes the images. Doesn't allocate.
    pub fn end_all(&mut self, city: &mut City, end: End)
        requires { (q : List ℕ) → is_some (image_at self.old.images q) ≡ true → HasRoom city.old q }
        ensures became { Became (λ q. is_some (image_at self.old.images q))
            (λ q. left_at_end end (object_at city.old.1 q) (image_at self.old.images q)) (λ q. None)
            city.old city.new self.old.images self.new.images }
        ensures reservations { self.new.reservations ≡ self.old.reservations }
    {
        while let Some((id, image)) = self.images.pop_last() {
            image.settle(city, id, end);
        }
    }

    /// Ends the transaction at the ids. If it is `alone`, no other is open: all images are at its ids,
    /// and none is looked up. Doesn't allocate.
    pub fn end_at(&mut self, city: &mut City, end: End, ids: &[Id], alone: bool)
        requires room { (q : List ℕ) → is_some (image_at self.old.images q) ≡ true → HasRoom city.old q }
        requires alone { alone ≡ true → (q : List ℕ) → is_some (image_at self.old.images q) ≡ true
            → has_id ids.now q ≡ true }
        ensures became { Became (has_id ids.now)
            (λ q. left_at_end end (object_at city.old.1 q) (image_at self.old.images q)) (λ q. None)
            city.old city.new self.old.images self.new.images }
        ensures reservations { self.new.reservations ≡ self.old.reservations }
    {
        if alone {
            self.end_all(city, end);
        } else {
            self.end_each(city, end, ids);
        }
    }

    /// Ends the transaction at the ids, one after another. Doesn't allocate.
    fn end_each(&mut self, city: &mut City, end: End, ids: &[Id])
        requires { (q : List ℕ) → is_some (image_at self.old.images q) ≡ true → HasRoom city.old q }
        ensures became { Became (has_id ids.now)
            (λ q. left_at_end end (object_at city.old.1 q) (image_at self.old.images q)) (λ q. None)
            city.old city.new self.old.images self.new.images }
        ensures reservations { self.new.reservations ≡ self.old.reservations }
    {
        for id in ids {
            self.end(city, end, id);
        }
    }

    /// Closes the stamp, and returns its reserved ids: none if it wasn't open. Doesn't allocate.
    pub fn close(&mut self, stamp: u64) -> Sequence<Id>
        ensures ids { result ≡ reservations_of self.old.reservations.entries stamp }
        ensures images { self.new.images ≡ self.old.images }
        ensures closed { (t : ℕ) → listed_by self.new.reservations.entries t
            ≡ (if stamp == t then None else listed_by self.old.reservations.entries t) }
    {
        match self.reservations.remove(&stamp) {
            Some(ids) => ids,
            None => Sequence::new(self.alloc),
        }
    }
}
