//! Undo images: the previous objects of written ids.
ghost use Rattle.std.specs.Prelude.{◌≡◌, ℕ, List, Some, Option, option_copied, unwrap_or, if◌then◌else◌};
ghost use Rattle.city_model.specs.CityMap.{object_at, changed};
ghost use Rattle.city_model.specs.declared.object.Object.{Object};
ghost use Rattle.city_txn.specs.Writes.{is_by, own_or};
ghost use Rattle.city_txn.specs.internal.Ending.{left_at_end};
ghost use Rattle.city_txn.specs.internal.Images.{before_image, write_at, first_image, unwritten_image, written_over};
ghost use Rattle.city_txn.specs.internal.Images.{image_unwritten, put_back};
ghost use Rattle.city_txn.specs.internal.Reserved.{HasRoom};

use crate::end::End;
use crate::reserved;
use city_members::copied::Copied;
use city_members::text::Id;
use city_model::OutOfMemory;
use city_model::city::City;
use city_model::object::Object;
use std::alloc::Global;

/// The object at an id before a transaction wrote it.
#[derive(Drop)]
pub struct UndoImage {
    /// The stamp of the transaction.
    by: u64,
    /// The city has a placeholder at the id: the transaction sees no object.
    deleted: bool,
    /// The previous object, or `Some(None)` if there was none. `None` if nothing was written yet: the
    /// city has what stood there.
    before: Option<Option<Object>>,
}

impl UndoImage {
    /// The image of an id that the stamp has reserved, and not written.
    pub fn unwritten(by: u64, deleted: bool) -> Self
        ensures { result ≡ unwritten_image by deleted }
    {
        UndoImage {
            by,
            deleted,
            before: None,
        }
    }

    /// The image of an id that the stamp wrote over an object, or where there was none.
    pub fn written(by: u64, before: Option<Object>, deleted: bool) -> Self
        ensures { result ≡ first_image by before deleted }
    {
        UndoImage {
            by,
            deleted,
            before: Some(before),
        }
    }

    /// The object that the stamp sees at the image's id, if the city has `here`.
    pub fn seen_by<'a>(&'a self, stamp: u64, here: Option<&'a Object>) -> Option<&'a Object>
        ensures { option_copied result ≡ own_or stamp (write_at (option_copied here.entry) (Some self.now))
            (before_image (option_copied here.entry) self.now) }
    {
        if self.by != stamp {
            if let Some(before) = &self.before {
                return before.as_ref();
            }
        }
        if self.deleted { None } else { here }
    }

    /// The committed object at the image's id, if the city has `here`.
    pub fn committed<'a>(&'a self, here: Option<&'a Object>) -> Option<&'a Object>
        ensures { option_copied result ≡ before_image (option_copied here.entry) self.now }
    {
        if let Some(before) = &self.before {
            return before.as_ref();
        }
        if self.deleted { None } else { here }
    }

    /// Whether the stamp wrote the id of the image.
    pub fn is_by(&self, stamp: u64) -> bool
        ensures { (here : Option Object) → result ≡ is_by stamp (write_at here (Some self.now)) }
    {
        self.by == stamp && self.before.is_some()
    }

    /// Notes a write: the first one moves the previous object into the image, a later one drops
    /// `old`.
    pub fn write_over(&mut self, old: Object, deleted: bool)
        ensures { self.new ≡ written_over (Some old) deleted self.old }
    {
        let before = previous(self.before.take(), self.deleted, Some(old));
        self.before = Some(before);
        self.deleted = deleted;
    }

    /// Turns the image of a first write into the image of a later one. `old` is the id's image
    /// until now, and gives the previous object.
    pub fn keep_before(&mut self, old: UndoImage)
        ensures { self.new ≡ written_over (put_back self.old) self.old.deleted old }
    {
        let here = self.before.take().flatten();
        self.by = old.by;
        self.before = Some(previous(old.before, old.deleted, here));
    }

    /// Undoes the write, and returns the object to put back into the city: `None` if nothing was
    /// written, or if there was no previous object.
    pub fn unwrite(&mut self) -> Option<Object>
        ensures image { self.new ≡ image_unwritten self.old }
        ensures object { result ≡ put_back self.old }
    {
        match self.before.take() {
            Some(before) => {
                self.deleted = before.is_none();
                before
            }
            None => None,
        }
    }

    /// Ends the transaction at the id: keeps its write, or restores the previous object.
    #[tactic(auto, using(city_members::proofs::Ids::same_id_true, crate::proofs::StoreChanged::set_at))]
    pub fn settle(self, city: &mut City, id: Id, end: End)
        requires { HasRoom city.old id }
        ensures after { (q : List ℕ) → object_at city.new.1 q
            ≡ changed (object_at city.old.1) id (left_at_end end (object_at city.old.1 id) (Some self)) q }
        ensures frame { city.new.0 ≡ city.old.0 }
    {
        let UndoImage {
            deleted,
            before,
            ..
        } = self;
        match end {
            End::Commit => {
                drop(before);
                reserved::clear(city, &id, deleted);
            }
            End::RollBack => match before {
                None => reserved::clear(city, &id, deleted),
                Some(before) => reserved::put_back(city, id, before),
            },
        }
    }
}

impl Copied for UndoImage {
    fn copy(&self, alloc: Global) -> Result<UndoImage, OutOfMemory> {
        Ok(UndoImage {
            by: self.by,
            deleted: self.deleted,
            before: self.before.copy(alloc)?,
        })
    }
}

/// The previous object, as noted or as the city has it: `here`, or none under a placeholder.
fn previous(before: Option<Option<Object>>, deleted: bool, here: Option<Object>) -> Option<Object>
    ensures { result ≡ unwrap_or before (if deleted then None else here) }
{
    match before {
        Some(before) => before,
        None => { if deleted { None } else { here } }
    }
}
