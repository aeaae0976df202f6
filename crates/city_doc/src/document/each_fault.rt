//! Finds the faults of the objects of a document, one kind after another.
ghost use Rattle.std.specs.Prelude.{◌≡◌, [], ℕ, List, Option, IfOk, OnOk, option_map};
ghost use Rattle.city_model.specs.Shells.{some_shape, has_open_shell};
ghost use Rattle.city_doc.specs.declared.document.indexed.ReadObject as read;
ghost use Rattle.city_doc.specs.declared.fault.ReadFault as fault;
ghost use Rattle.city_doc.specs.document.CityFaults.{is_bad_ringed};
ghost use Rattle.city_doc.specs.internal.document.ReadObjects.{built_in};
ghost use Rattle.city_doc.specs.internal.document.Told.{told, told_behind, all_told, unknown_type, unsupported};
ghost use Rattle.city_doc.specs.internal.document.Told.{bad_geometry, bad_vertex, bad_ring, relations, open_shell};
ghost use Rattle.city_doc.specs.internal.document.Told.{body_there, misrelated_there};

use crate::document::indexed::{IndexedObject, ReadObject, ReadObjects, is_misrelated};
use crate::fault::ReadFault;
use city_members::copied::Copied;
use city_members::text::Id;
use city_model::OutOfMemory;
use city_model::body_fault::{any_open_shell, any_same_twice, any_short_ring};
use city_model::object::Body;
use std::alloc::Global;

/// The faults of the objects: all, or the first alone.
pub fn object_faults(
    alloc: Global,
    objects: &ReadObjects,
    first_only: bool,
) -> Result<Vec<ReadFault>, OutOfMemory>
    ensures { IfOk result (λ faults. faults.items ≡ told_behind first_only [] (all_told objects.now.entries)) }
{
    let mut faults = Vec::new(alloc);
    tell_each(alloc, &UnknownType, objects, first_only, &mut faults)?;
    tell_each(alloc, &UnsupportedPart, objects, first_only, &mut faults)?;
    tell_each(alloc, &BadGeometry, objects, first_only, &mut faults)?;
    tell_each(alloc, &BadVertex, objects, first_only, &mut faults)?;
    tell_each(alloc, &BadRing, objects, first_only, &mut faults)?;
    tell_each(alloc, &Relations(objects), objects, first_only, &mut faults)?;
    tell_each(alloc, &OpenShell, objects, first_only, &mut faults)?;
    Ok(faults)
}

/// A kind of fault.
trait Search {
    ghost found: { Self → List ℕ → read.ReadObject → Option fault.ReadFault };

    /// The fault, if the object of this id has it.
    fn look(
        &self,
        alloc: Global,
        id: &Id,
        object: &ReadObject,
    ) -> Result<Option<ReadFault>, OutOfMemory>
        ensures { IfOk result (λ o. o ≡ found self.now id.now object.now) };
}

/// Adds the faults of this kind, in the order of the ids. With `first_only` it stops as soon as there is one.
fn tell_each<S: Search>(
    alloc: Global,
    search: &S,
    objects: &ReadObjects,
    first_only: bool,
    faults: &mut Vec<ReadFault>,
) -> Result<(), OutOfMemory>
    ensures { OnOk result (faults.new.items
        ≡ told_behind first_only faults.old.items (told (S.found search.now) objects.now.entries)) }
{
    for (id, object) in objects.iter() {
        if first_only && !faults.is_empty() {
            return Ok(());
        }
        if let Some(fault) = search.look(alloc, id, object)? {
            faults.push(fault)?;
        }
    }
    Ok(())
}

struct UnknownType;

struct UnsupportedPart;

struct BadGeometry;

/// A position without a vertex.
struct BadVertex;

struct BadRing;

/// Relations of these objects that don't agree, or a list other than an array of texts.
#[derive(Clone, Copy)]
struct Relations<'o>(&'o ReadObjects);

struct OpenShell;

impl Search for UnknownType {
    ghost found = { λ _. unknown_type };

    fn look(
        &self,
        alloc: Global,
        id: &Id,
        object: &ReadObject,
    ) -> Result<Option<ReadFault>, OutOfMemory> {
        if !object.has_unknown_type {
            return Ok(None);
        }
        Ok(Some(ReadFault::UnknownType(id.copy(alloc)?)))
    }
}

impl Search for UnsupportedPart {
    ghost found = { λ _. unsupported };

    fn look(
        &self,
        alloc: Global,
        id: &Id,
        object: &ReadObject,
    ) -> Result<Option<ReadFault>, OutOfMemory> {
        let Some(name) = &object.unsupported else {
            return Ok(None);
        };
        let name = name.copy(alloc)?;
        Ok(Some(ReadFault::Unsupported(id.copy(alloc)?, name)))
    }
}

impl Search for BadGeometry {
    ghost found = { λ _. bad_geometry };

    fn look(
        &self,
        alloc: Global,
        id: &Id,
        object: &ReadObject,
    ) -> Result<Option<ReadFault>, OutOfMemory> {
        if !object.has_bad_geometry {
            return Ok(None);
        }
        Ok(Some(ReadFault::BadGeometry(id.copy(alloc)?)))
    }
}

impl Search for BadVertex {
    ghost found = { λ _. bad_vertex };

    fn look(
        &self,
        alloc: Global,
        id: &Id,
        object: &ReadObject,
    ) -> Result<Option<ReadFault>, OutOfMemory> {
        if !object.is_misplaced {
            return Ok(None);
        }
        Ok(Some(ReadFault::BadVertex(id.copy(alloc)?)))
    }
}

/// Whether some ring is short, or has equal neighbours.
fn is_bad_ringed(body: &Body) -> bool
    ensures { result ≡ is_bad_ringed body.now }
{
    let geometry = body.geometry.get().as_slice();
    any_short_ring(geometry) || any_same_twice(geometry)
}

/// Whether the object is there and has a bad ring.
fn is_bad_ringed_there(object: Option<&IndexedObject>) -> bool
    ensures { result ≡ body_there is_bad_ringed (option_map (λ o. o.now) object.entry) }
{
    match object {
        None => false,
        Some(object) => is_bad_ringed(object.body()),
    }
}

impl Search for BadRing {
    ghost found = { λ _. bad_ring };

    fn look(
        &self,
        alloc: Global,
        id: &Id,
        object: &ReadObject,
    ) -> Result<Option<ReadFault>, OutOfMemory> {
        if !is_bad_ringed_there(object.object.as_ref()) {
            return Ok(None);
        }
        Ok(Some(ReadFault::BadRing(id.copy(alloc)?)))
    }
}

/// Whether the object is there, and its relations don't agree.
fn is_misrelated_there(objects: &ReadObjects, id: &Id, object: Option<&IndexedObject>) -> bool
    ensures { result ≡ misrelated_there (built_in objects.now.entries) id.now
        (option_map (λ o. o.now) object.entry) }
{
    match object {
        None => false,
        Some(object) => is_misrelated(objects, id, object),
    }
}

impl<'o> Search for Relations<'o> {
    ghost found = { λ s. relations (built_in s.0.now.entries) };

    fn look(
        &self,
        alloc: Global,
        id: &Id,
        object: &ReadObject,
    ) -> Result<Option<ReadFault>, OutOfMemory> {
        if !object.has_bad_list && !is_misrelated_there(self.0, id, object.object.as_ref()) {
            return Ok(None);
        }
        Ok(Some(ReadFault::Relations(id.copy(alloc)?)))
    }
}

/// Whether the object is there and has an open shell.
fn is_open_there(alloc: Global, object: Option<&IndexedObject>) -> Result<bool, OutOfMemory>
    ensures { IfOk result (λ wrong. wrong
        ≡ body_there (some_shape has_open_shell) (option_map (λ o. o.now) object.entry)) }
{
    match object {
        None => Ok(false),
        Some(object) => any_open_shell(alloc, object.body().geometry.get().as_slice()),
    }
}

impl Search for OpenShell {
    ghost found = { λ _. open_shell };

    fn look(
        &self,
        alloc: Global,
        id: &Id,
        object: &ReadObject,
    ) -> Result<Option<ReadFault>, OutOfMemory> {
        if !is_open_there(alloc, object.object.as_ref())? {
            return Ok(None);
        }
        Ok(Some(ReadFault::OpenShell(id.copy(alloc)?)))
    }
}
