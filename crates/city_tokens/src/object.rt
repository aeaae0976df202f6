//! Reads city objects before points replace their positions.
ghost use Rattle.std.specs.Prelude.{◌≡◌, ℕ, Some, IfSome};
ghost use Rattle.serde_json.specs.Data.{Members, no_members, object};
ghost use Rattle.serde_json.specs.View.{members_view};
ghost use Rattle.city_tokens.specs.internal.Objects.{IsObject, IsObjectSoFar};
ghost use Rattle.city_tokens.specs.internal.Standing.{IsArrayOf, IsReadAs, IsString};

use crate::list::FromTokens;
use crate::member_visitor::{MemberVisitor, read_object as read_all_members};
use crate::text::{is_name, read_str};
use crate::value::read_value;
use city_members::kept::kept_value::KeptValue;
use city_members::kept::shared_extra::SharedExtra;
use city_members::sequence::Sequence;
use city_members::shared::Shared;
use city_members::text::Id;
use city_model::object::{Body, Geometry};
use city_model::object_type::{ObjectType, type_named};
use city_model::shared_ids::SharedIds;
use city_reader::Reader;
use serde_json::{Map, Value};
use std::alloc::Global;
use std::marker::Model;

/// The members of an object read so far.
#[derive(Drop)]
pub(crate) struct ObjectParts {
    pub kind: Option<ObjectType>,
    pub geometry: Sequence<Geometry>,
    pub parents: SharedIds,
    pub children: SharedIds,
    /// The value of `attributes`: most objects keep nothing else.
    pub attributes: Option<KeptValue>,
}

impl ObjectParts {
    /// Before any member is read. Doesn't allocate.
    pub fn new(alloc: Global) -> Self
        ensures { IsObjectSoFar result no_members no_members }
    {
        ObjectParts {
            kind: None,
            geometry: Sequence::new(alloc),
            parents: SharedIds::new(alloc),
            children: SharedIds::new(alloc),
            attributes: None,
        }
    }
}

impl MemberVisitor for ObjectParts {
    ghost stands = { IsObjectSoFar };

    fn visit_member(
        &mut self,
        alloc: Global,
        name: &str,
        reader: &mut Reader<'_>,
        depth: usize,
    ) -> Option<bool> {
        if is_name(name, "type") {
            let name = read_str(reader)?;
            self.kind = Some(type_named(name)?);
        } else if is_name(name, "geometry") {
            let geometry = Sequence::<Geometry>::from_tokens(alloc, reader, depth)?;
            self.geometry = geometry;
        } else if is_name(name, "parents") {
            let parents = read_ids(alloc, reader, depth)?;
            self.parents = parents;
        } else if is_name(name, "children") {
            let children = read_ids(alloc, reader, depth)?;
            self.children = children;
        } else if is_name(name, "attributes") {
            let attributes = read_value(alloc, reader, depth)?;
            self.attributes = Some(attributes);
        } else {
            return Some(false);
        }
        Some(true)
    }
}

/// The next value, an array of ids.
fn read_ids(alloc: Global, reader: &mut Reader<'_>, depth: usize) -> Option<SharedIds>
    ensures { IfSome result (λ ids. IsReadAs (IsArrayOf IsString) ids depth reader.old reader.new) }
{
    let ids = Sequence::<Id>::from_tokens(alloc, reader, depth)?;
    SharedIds::from_sequence(alloc, ids).ok()
}

/// An object before points replace its positions, with a body of its own. Contracts see the object.
#[derive(Drop)]
pub struct UnresolvedObject {
    body: Body,
    parents: SharedIds,
    children: SharedIds,
}

impl Model for UnresolvedObject {
    ghost use Rattle.city_model.specs.declared.object.Object.{Object};
    ghost use Rattle.std.specs.Coded.{codes};
    ghost use Rattle.city_members.specs.internal.DataCode.{coded_members};

    ghost Value = { Object };

    ghost coded = { Prim.hlevel (codes, coded_members) };

    ghost view = { λ o. record { body = o.body; parents = o.parents; children = o.children } };
}

impl UnresolvedObject {
    /// The body, the parents and the children. Doesn't allocate.
    pub fn into_parts(self) -> (Body, SharedIds, SharedIds)
        ensures { result ≡ (self.body, self.parents, self.children) }
    {
        (self.body, self.parents, self.children)
    }
}

/// The object of all its members, read and kept.
pub(crate) fn object_of(
    alloc: Global,
    parts: ObjectParts,
    kept: Map<String, Value>,
) -> Option<UnresolvedObject>
    ensures { IfSome result (λ o. (found : Members)
        → IsObjectSoFar parts found (members_view kept.entries) → IsObject o (object found)) }
{
    let kind = parts.kind?;
    let extra = SharedExtra::from_parts(alloc, kept, parts.attributes).ok()??;
    let body = Body {
        kind,
        geometry: Shared::unshared(parts.geometry),
        extra,
    };
    Some(UnresolvedObject {
        body,
        parents: parts.parents,
        children: parts.children,
    })
}

/// The next value, a city object.
pub fn read_object(alloc: Global, reader: &mut Reader<'_>, depth: usize) -> Option<UnresolvedObject>
    ensures { IfSome result (λ o. IsReadAs IsObject o depth reader.old reader.new) }
{
    let (parts, kept) = read_all_members(alloc, reader, depth, ObjectParts::new(alloc))?;
    object_of(alloc, parts, kept)
}
