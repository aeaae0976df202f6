//! Reads documents into cities without a fault in a body.
ghost use Rattle.std.specs.Prelude.{◌≡◌, ◌&&◌, List, IfSome, Some, true, codes, option_map};
ghost use Rattle.serde_json.specs.Data.{Data, Members, object};
ghost use Rattle.serde_json.specs.Find.{get_member};
ghost use Rattle.serde_json.specs.View.{view, members_view};
ghost use Rattle.city_model.specs.CityMap.{Entries, object_at};
ghost use Rattle.city_members.specs.Integral.{is_integral};
ghost use Rattle.city_model.specs.internal.Faultless.{IsFaultless};
ghost use Rattle.city_model.specs.declared.object.Point.{Point as SpecPoint};
ghost use Rattle.city_texts.specs.declared.document.TopParts.{TopParts as SpecTopParts};
ghost use Rattle.city_tokens.specs.document.Cities.{city_of, entries_of};
ghost use Rattle.city_tokens.specs.tree.Members.{is_text};
ghost use Rattle.city_tokens.specs.tree.Texts.{HasTree};
ghost use Rattle.city_tokens.specs.internal.Faultless.{AreFaultless};
ghost use Rattle.city_tokens.specs.internal.Objects.{IsListing, IsResolvedObject};
ghost use Rattle.city_tokens.specs.internal.Standing.{Pairs};
ghost use Rattle.city_texts.specs.internal.Tops.{IsTopSoFar, IsTop, IsCity, AreResolved};

use crate::in_pieces::top_in_pieces;
use crate::pieces::Pieces;
use crate::stretches::resolve_objects_by;
use city_members::members::member;
use city_members::sequence::Sequence;
use city_members::text::Id;
use city_model::city::City;
use city_model::object::Object;
use city_reader::Reader;
use city_tokens::frame_of_rest;
use city_tokens::list::FromTokens;
use city_tokens::member_visitor::{MemberVisitor, read_object};
use city_tokens::object::UnresolvedObject;
use city_tokens::objects::read_objects;
use city_tokens::resolve::resolve_objects;
use city_tokens::vertices::Vertex;
use city_tokens::whole_text::read_whole_text;
use serde_json::{Map, Value};
use std::alloc::Global;
use std::collections::BTreeMap;
use std::thread::Threads;

/// The members of a document's top read so far.
#[derive(Drop)]
pub struct TopParts {
    pub objects: Option<Sequence<(Id, UnresolvedObject)>>,
    pub vertices: Option<Sequence<Vertex>>,
}

impl MemberVisitor for TopParts {
    ghost stands = { IsTopSoFar };

    fn visit_member(
        &mut self,
        alloc: Global,
        name: &str,
        reader: &mut Reader<'_>,
        depth: usize,
    ) -> Option<bool> {
        match name {
            "CityObjects" => {
                let objects = read_objects(alloc, reader, depth)?;
                self.objects = Some(objects);
            }
            "vertices" => {
                let vertices = Sequence::<Vertex>::from_tokens(alloc, reader, depth)?;
                self.vertices = Some(vertices);
            }
            _ => return Some(false),
        }
        Some(true)
    }
}

/// Whether the member is there and is this text.
pub fn is_text(member: Option<&Value>, text: &str) -> bool
    ensures { result ≡ is_text text.now (option_map (λ v. view v.now) member.entry) }
{
    let Some(member) = member else {
        return false;
    };
    match member.as_str() {
        Some(found) => found == text,
        None => false,
    }
}

/// Whether the type and the version are a document's.
fn is_city_json(rest: &Map<String, Value>) -> bool
    ensures { result ≡ (is_text (codes "CityJSON")
        (get_member (codes "type") (members_view rest.now.entries))
        && is_text (codes "2.0") (get_member (codes "version") (members_view rest.now.entries))) }
{
    is_text(member(rest, "type"), "CityJSON") && is_text(member(rest, "version"), "2.0")
}

/// The objects of a top, with points in place of their positions.
fn resolved_objects(alloc: Global, parts: TopParts) -> Option<Vec<(Id, Object)>>
    ensures { IfSome result (λ resolved. AreResolved parts resolved.items) }
{
    let vertices = parts.vertices?;
    let objects = parts.objects?;
    resolve_objects(alloc, vertices.as_slice(), objects.into_vec())
}

/// The same, resolved by so many threads.
fn resolved_objects_by<R: Threads + Sync>(
    rt: &R,
    alloc: Global,
    parts: TopParts,
    count: usize,
) -> Option<Vec<(Id, Object)>>
    ensures { IfSome result (λ resolved. AreResolved parts resolved.items) }
{
    let vertices = parts.vertices?;
    let objects = parts.objects?;
    resolve_objects_by(rt, alloc, vertices.as_slice(), objects.into_vec(), count)
}

/// The objects by their ids.
///
/// All are put into the map at once: if the text has them in the order of their ids, each id is
/// compared only with the one before it, and the nodes of the map are full.
fn by_ids(alloc: Global, resolved: Vec<(Id, Object)>) -> Option<BTreeMap<Id, Object>>
    ensures entries { IfSome result (λ objects. (points : List SpecPoint) (all : Entries) (found : Members)
        → Pairs (IsResolvedObject points) all resolved.items → IsListing all found
        → entries_of points found ≡ Some objects.entries) }
    ensures faultless { IfSome result (λ objects. (points : List SpecPoint) (all : Entries)
        → Pairs (IsResolvedObject points) all resolved.items → AreFaultless objects.entries) }
{
    let objects = resolved.into_iter().collect(alloc).ok()?;
    Some(objects)
}

/// The city of the objects of a top and of its kept members.
fn city_of(alloc: Global, resolved: Vec<(Id, Object)>, rest: Map<String, Value>) -> Option<City>
    ensures { IfSome result (λ c. (parts : SpecTopParts) (found : Members) → AreResolved parts resolved.items
        → IsTopSoFar parts found (members_view rest.entries) → IsCity c (object found)) }
{
    if !is_city_json(&rest) {
        return None;
    }
    let objects = by_ids(alloc, resolved)?;
    let frame = frame_of_rest(rest)?;
    Some(City::from_parts(frame, objects))
}

/// The top of a document, as read.
#[derive(Drop)]
pub struct Top {
    pub parts: TopParts,
    /// The kept members.
    pub rest: Map<String, Value>,
}

impl FromTokens for Top {
    const ROOM: usize = 1;

    ghost stands = { IsTop };

    fn from_tokens(alloc: Global, reader: &mut Reader<'_>, depth: usize) -> Option<Top> {
        let start = TopParts {
            objects: None,
            vertices: None,
        };
        let (parts, rest) = read_object(alloc, reader, depth, start)?;
        Some(Top { parts, rest })
    }
}

/// The city of a text; `None` if anything about the text is odd, or memory runs out.
///
/// No body of it has a fault. Whether parents and children agree isn't judged.
pub fn streamed_city(alloc: Global, bytes: &[u8]) -> Option<City>
    ensures { IfSome result (λ c. (d : Data) × HasTree bytes.now d × (is_integral d ≡ true)
        × (city_of d ≡ Some c) × IsFaultless (object_at c.1)) }
{
    let top = read_whole_text::<Top>(alloc, bytes)?;
    // By now the reader's memory, as much as the text, is free again: the map is made after it.
    let resolved = resolved_objects(alloc, top.parts)?;
    city_of(alloc, resolved, top.rest)
}

/// The city of a text, with pieces read and resolved by so many threads; `None` also if the text
/// can't be cut, or was cut at wrong places.
pub fn city_in_pieces<R: Threads + Sync>(
    rt: &R,
    alloc: Global,
    bytes: &[u8],
    pieces: Pieces,
) -> Option<City>
    ensures { IfSome result (λ c. (d : Data) × HasTree bytes.now d × (is_integral d ≡ true)
        × (city_of d ≡ Some c) × IsFaultless (object_at c.1)) }
{
    let top = top_in_pieces(rt, alloc, bytes, pieces)?;
    let resolved = resolved_objects_by(rt, alloc, top.parts, pieces.count)?;
    city_of(alloc, resolved, top.rest)
}

/// The city of a text, as `streamed_city` gives it; so many threads read a large text, in pieces.
pub fn streamed_city_by<R: Threads + Sync>(
    rt: &R,
    alloc: Global,
    bytes: &[u8],
    pieces: Pieces,
) -> Option<City>
    ensures { IfSome result (λ c. (d : Data) × HasTree bytes.now d × (is_integral d ≡ true)
        × (city_of d ≡ Some c) × IsFaultless (object_at c.1)) }
{
    match city_in_pieces(rt, alloc, bytes, pieces) {
        Some(city) => Some(city),
        None => streamed_city(alloc, bytes),
    }
}
