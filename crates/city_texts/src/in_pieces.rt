//! Reads documents with pieces read beforehand by several workers.
ghost use Rattle.std.specs.Prelude.{◌≡◌, [], true, IfSome};
ghost use Rattle.serde_json.specs.Data.{Data, Members};
ghost use Rattle.city_members.specs.Integral.{is_integral};
ghost use Rattle.city_tokens.specs.internal.Objects.{AreObjects, IsListing};
ghost use Rattle.city_tokens.specs.internal.Standing.{IsReadAs};
ghost use Rattle.city_tokens.specs.internal.Taken.{IsRestOfObject};
ghost use Rattle.city_texts.specs.internal.Tops.{IsTop, IsTopInPieces};
ghost use Rattle.city_tokens.specs.tree.Texts.{HasTree};

use crate::cuts::cuts_of_document;
use crate::document::{Top, TopParts};
use crate::part::PART_DEPTH;
use crate::pieces::Pieces;
use crate::runs::Runs;
use city_members::sequence::Sequence;
use city_members::text::Id;
use city_reader::Reader;
use city_tokens::MAX_TEXT;
use city_tokens::member_visitor::{MemberVisitor, read_object as read_members};
use city_tokens::object::{UnresolvedObject, read_object};
use city_tokens::text::text_of;
use city_tokens::whole_text::DEPTH;
use json::Token;
use std::alloc::Global;
use std::thread::Threads;

/// Reads the objects up to the closing brace, but for the ones read beforehand.
fn rest_of_objects(
    alloc: Global,
    reader: &mut Reader<'_>,
    runs: &mut Runs<'_>,
) -> Option<Sequence<(Id, UnresolvedObject)>>
    ensures { IfSome result (λ es. (found : Members)
        × IsRestOfObject 125 reader.old found reader.new × IsListing es found) }
{
    let mut objects = Vec::new(alloc);
    'objects: while let Some(name) = reader.next_key()? {
        let id = text_of(alloc, name)?;
        let object = read_object(alloc, reader, PART_DEPTH)?;
        objects.push((id, object)).ok()?;
        runs.pass_objects(alloc, reader, &mut objects)?;
    }
    Some(Sequence::from_vec(objects))
}

/// The next value, an object of city objects.
fn read_objects(
    alloc: Global,
    reader: &mut Reader<'_>,
    runs: &mut Runs<'_>,
) -> Option<Sequence<(Id, UnresolvedObject)>>
    ensures { IfSome result (λ es. IsReadAs AreObjects es 126 reader.old reader.new) }
{
    let Token::BeginObject = reader.next()? else {
        return None;
    };
    rest_of_objects(alloc, reader, runs)
}

/// The members of a document's top read so far, and the objects and vertices read beforehand.
#[derive(Drop)]
pub struct TopInPieces<'t> {
    pub parts: TopParts,
    pub runs: Runs<'t>,
}

impl<'t> MemberVisitor for TopInPieces<'t> {
    ghost stands = { IsTopInPieces };

    fn visit_member(
        &mut self,
        alloc: Global,
        name: &str,
        reader: &mut Reader<'_>,
        depth: usize,
    ) -> Option<bool> {
        // The pieces were read at this depth.
        if depth != PART_DEPTH + 1 {
            return None;
        }
        match name {
            "CityObjects" => {
                let objects = read_objects(alloc, reader, &mut self.runs)?;
                self.parts.objects = Some(objects);
            }
            "vertices" => {
                let vertices = self.runs.read_vertices(alloc, reader)?;
                self.parts.vertices = Some(vertices);
            }
            _ => return Some(false),
        }
        Some(true)
    }
}

/// The top of a document, of all the tokens.
fn read_top(alloc: Global, reader: &mut Reader<'_>, runs: Runs<'_>) -> Option<Top>
    ensures { IfSome result (λ top. IsReadAs IsTop top 127 reader.old []) }
{
    let start = TopInPieces {
        parts: TopParts {
            objects: None,
            vertices: None,
        },
        runs,
    };
    let (top, rest) = read_members(alloc, reader, DEPTH, start)?;
    if !reader.is_at_end() || !top.runs.are_passed() {
        return None;
    }
    Some(Top {
        parts: top.parts,
        rest,
    })
}

/// The top of a document, with pieces read by so many threads. `None` if anything about the text is
/// odd, it can't be cut or is cut at wrong places, or memory runs out.
pub fn top_in_pieces<R: Threads + Sync>(
    rt: &R,
    alloc: Global,
    bytes: &[u8],
    pieces: Pieces,
) -> Option<Top>
    ensures { IfSome result (λ top. (d : Data) × HasTree bytes.now d × (is_integral d ≡ true) × IsTop top d) }
{
    if bytes.len() > MAX_TEXT {
        return None;
    }
    let Ok(text) = simdutf8::compat::from_utf8(bytes) else {
        return None;
    };
    let cuts = cuts_of_document(alloc, text, pieces)?;
    let runs = Runs::read(rt, alloc, text, &cuts)?;
    // Where cuts were found, the text has no escape.
    let mut reader = Reader::plain(text);
    let top = read_top(alloc, &mut reader, runs)?;
    Some(top)
}
