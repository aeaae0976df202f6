//! Reads the objects of a document by their ids.
ghost use Rattle.std.specs.Prelude.{◌≡◌, IfSome};
ghost use Rattle.city_tokens.specs.internal.Objects.{AreObjects, IsListingSoFar};
ghost use Rattle.city_tokens.specs.internal.Standing.{IsReadAs};

use crate::member_visitor::{MemberVisitor, read_object as read_members};
use crate::object::{UnresolvedObject, read_object};
use crate::text::text_of;
use city_members::sequence::Sequence;
use city_members::text::Id;
use city_reader::Reader;
use std::alloc::Global;

/// The objects so far, one after another as the text has them.
#[derive(Drop)]
pub struct Listing {
    pub objects: Sequence<(Id, UnresolvedObject)>,
}

impl MemberVisitor for Listing {
    ghost stands = { IsListingSoFar };

    fn visit_member(
        &mut self,
        alloc: Global,
        name: &str,
        reader: &mut Reader<'_>,
        depth: usize,
    ) -> Option<bool> {
        let id = text_of(alloc, name)?;
        let object = read_object(alloc, reader, depth)?;
        self.objects.push((id, object)).ok()?;
        Some(true)
    }
}

/// The next value, an object of city objects.
pub fn read_objects(
    alloc: Global,
    reader: &mut Reader<'_>,
    depth: usize,
) -> Option<Sequence<(Id, UnresolvedObject)>>
    ensures { IfSome result (λ es. IsReadAs AreObjects es depth reader.old reader.new) }
{
    let start = Listing {
        objects: Sequence::new(alloc),
    };
    let (listing, _kept) = read_members(alloc, reader, depth, start)?;
    Some(listing.objects)
}
