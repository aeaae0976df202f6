//! Writes a city in pieces, by several workers.
ghost use Rattle.std.specs.Prelude.{◌≡◌, ◌++◌, ◌∷◌, [], ◌*◌, ◌<◌, ◌^◌, IfOk, IfSome, OnOk};
ghost use Rattle.std.specs.Prelude.{codes, drop, false, is_some, take, true};
ghost use Rattle.std.specs.Fork.{slice_chunk};
ghost use Rattle.std.specs.FinMap.{entries};
ghost use Rattle.std.specs.List.{IsDistinct, list_all};
ghost use Rattle.json.specs.Token.{begin_array, end_array, end_object};
ghost use Rattle.city_members.specs.Kept.{kept_at_transform};
ghost use Rattle.city_model.specs.Shells.{same_point};
ghost use Rattle.city_writer.specs.document.Canonical.{city_text, transform_data};
ghost use Rattle.city_writer.specs.document.Texts.{IsTextOf};
ghost use Rattle.city_writer.specs.document.Ranges.{IsInRange};
ghost use Rattle.city_writer.specs.internal.Pieces.{EachPiece, joined_by_commas};
ghost use Rattle.city_writer.specs.internal.document.Pieces.{IsWrittenIfKnown, frame_own, head_tokens};
ghost use Rattle.city_writer.specs.internal.document.Rest.{before_vertices, behind_vertices};
ghost use Rattle.city_writer.specs.internal.tree.Appended.{IsAppended};
ghost use Rattle.city_writer.specs.internal.tree.OwnMembers.{written};
ghost use Rattle.city_writer.specs.internal.tree.PartTokens.{tokens_of_members};
ghost use Rattle.city_writer.specs.internal.tree.Parted.{members_from};
ghost use Rattle.city_writer.specs.internal.tree.ReadsBack.{MembersReadBack, ReadsBack};
ghost use Rattle.city_writer.specs.report.JsonLines.{IsCompactJson};
ghost use Rattle.city_writer.specs.shape.Vertices.{vertices_data};
ghost use Rattle.city_writer.specs.tree.Ranges.{is_i64_triple};

use crate::document::points_in_pieces::{NumberedPoints, objects_from};
use crate::document::text::write_before_vertices;
use crate::object::text::write_first;
use crate::piece_points::PiecePoints;
use crate::point_numbers::PointNumbers;
use crate::shape::vertices_in_pieces::texts_of_vertices;
use crate::tree::kept_members::KeptMembers;
use city_members::text::Id;
use city_model::OutOfMemory;
use city_model::city::City;
use city_model::frame::Frame;
use city_model::object::{Object, Point};
use json::Writer;
use std::alloc::Global;
use std::collections::btree_map::Iter;
use std::thread::{Threads, map_indices};

/// The text of a piece, without braces. Its points have the numbers.
fn text_of_piece(
    alloc: Global,
    objects: Iter<'_, Id, Object>,
    len: usize,
    points: &[Point],
    piece: &PiecePoints,
    numbers: &[usize],
) -> Result<Vec<u8>, OutOfMemory>
    requires { IsDistinct same_point points.now }
    ensures { IfOk result (λ text. IsWrittenIfKnown points.now (take len objects.entry) text.items) }
{
    let mut known = PointNumbers::known(points, piece.pool(), numbers);
    let mut out = Writer::new(Vec::new(alloc));
    write_first(objects, len, &mut known, &mut out)?;
    let text = out.into_inner();
    Ok(text)
}

/// The text of each piece, by a thread for each.
fn texts_of_pieces<R: Threads + Sync>(
    rt: &R,
    alloc: Global,
    city: &City,
    len: usize,
    points: &[Point],
    pieces: &[Option<PiecePoints>],
    numbers: &[Option<Vec<usize>>],
) -> Result<Vec<Option<Vec<u8>>>, OutOfMemory>
    requires len { 0 < len }
    requires distinct { IsDistinct same_point points.now }
    ensures { IfOk result (λ os. EachPiece len (entries city.now.1) os.items
        (λ es text. IsWrittenIfKnown points.now es text.items)) }
{
    let text = move |i: usize| -> Option<Vec<u8>>
        requires { (i * len < 2 ^ 64) × IsDistinct same_point points.now }
        ensures { IfSome result (λ text. IsWrittenIfKnown points.entry.now
            (slice_chunk (entries city.entry.now.1) len i) text.items) }
    {
        let piece = pieces.get(i)?.as_ref()?;
        let mine = numbers.get(i)?.as_ref()?;
        text_of_piece(
            alloc,
            objects_from(city, i * len),
            len,
            points,
            piece,
            mine.as_slice(),
        )
        .ok()
    };
    let texts = map_indices(rt, alloc, city.len().div_ceil(len), &text)?;
    Ok(texts)
}

/// Everything before the first object.
fn append_head(bytes: Vec<u8>, kept: &mut KeptMembers<'_>) -> Result<Vec<u8>, OutOfMemory>
    ensures head { IfOk result (λ b. IsAppended bytes.items (head_tokens kept.old) b.items) }
    ensures left { OnOk result (kept.new ≡ members_from (codes "CityObjects") kept.old) }
    ensures reads { OnOk result (MembersReadBack kept.new → MembersReadBack kept.old) }
{
    let mut out = Writer::new(bytes);
    out.begin_object()?;
    kept.write_name("CityObjects", &mut out)?;
    out.begin_object()?;
    let bytes = out.into_inner();
    Ok(bytes)
}

/// The texts of the pieces, with commas between them.
fn append_pieces(mut bytes: Vec<u8>, texts: Vec<Option<Vec<u8>>>) -> Result<Vec<u8>, OutOfMemory>
    ensures text { IfOk result (λ b. b.items
        ≡ bytes.items ++ joined_by_commas false texts.items (λ text. text.items)) }
    ensures all { OnOk result (list_all is_some texts.items ≡ true) }
{
    let mut after = false;
    for text in texts {
        let Some(mut text) = text else {
            return Err(OutOfMemory);
        };
        if !text.is_empty() {
            if after {
                bytes.push(b',')?;
            }
            bytes.append(&mut text)?;
            after = true;
        }
    }
    Ok(bytes)
}

/// Everything behind the last object and before the first vertex.
fn append_before_vertices(
    bytes: Vec<u8>,
    frame: &Frame,
    kept: &mut KeptMembers<'_>,
) -> Result<Vec<u8>, OutOfMemory>
    ensures before { IfOk result (λ b. IsAppended bytes.items
        (before_vertices kept.old frame.now (end_object ∷ []) ++ begin_array ∷ []) b.items) }
    ensures left { OnOk result (kept.new ≡ behind_vertices kept.old) }
    ensures left_reads { OnOk result (MembersReadBack kept.new → MembersReadBack kept.old) }
    ensures reads { OnOk result (ReadsBack (transform_data frame.now)) }
    ensures kept { OnOk result (kept_at_transform frame.now.more ≡ true) }
    ensures in_range { OnOk result ((is_i64_triple frame.now.scale ≡ true)
        × (is_i64_triple frame.now.translate ≡ true)) }
{
    let mut out = Writer::new(bytes);
    out.end_object()?;
    write_before_vertices(frame, kept, &mut out)?;
    out.begin_array()?;
    let bytes = out.into_inner();
    Ok(bytes)
}

/// Everything behind the last vertex.
fn append_behind_vertices(
    bytes: Vec<u8>,
    kept: &mut KeptMembers<'_>,
) -> Result<Vec<u8>, OutOfMemory>
    ensures behind { IfOk result (λ b. IsAppended bytes.items
        (end_array ∷ (tokens_of_members kept.old ++ end_object ∷ [])) b.items) }
    ensures reads { OnOk result (MembersReadBack kept.old) }
{
    let mut out = Writer::new(bytes);
    out.end_array()?;
    kept.write_last(&mut out)?;
    let bytes = out.into_inner();
    Ok(bytes)
}

/// Everything behind the last object. A thread for each of `count` pieces writes its vertices.
fn append_rest<R: Threads + Sync>(
    rt: &R,
    alloc: Global,
    bytes: Vec<u8>,
    frame: &Frame,
    kept: &mut KeptMembers<'_>,
    points: &[Point],
    count: usize,
) -> Result<Vec<u8>, OutOfMemory>
    ensures rest { IfOk result (λ b. IsAppended bytes.items
        (written kept.old 0 (frame_own points.now frame.now) (end_object ∷ [])) b.items) }
    ensures left { OnOk result (MembersReadBack kept.old) }
    ensures reads { OnOk result (ReadsBack (transform_data frame.now) × ReadsBack (vertices_data points.now)) }
    ensures kept { OnOk result (kept_at_transform frame.now.more ≡ true) }
    ensures in_range { OnOk result (IsInRange points.now frame.now) }
{
    let before = append_before_vertices(bytes, frame, kept)?;
    let len = points.len().div_ceil(count.max(1)).max(1);
    let texts = texts_of_vertices(rt, alloc, points, len)?;
    let vertices = append_pieces(before, texts)?;
    let all = append_behind_vertices(vertices, kept)?;
    Ok(all)
}

/// The bytes, and after them the canonical text of a city, without a newline. Each thread writes `len` objects.
///
/// Points are numbered first: a point's number depends on the points before it.
pub fn append_in_pieces<R: Threads + Sync>(
    rt: &R,
    alloc: Global,
    seed: u64,
    bytes: Vec<u8>,
    city: &City,
    len: usize,
) -> Result<Vec<u8>, OutOfMemory>
    requires { 0 < len }
    ensures text { IfOk result (λ b. b.items ≡ bytes.items ++ city_text city.now) }
    ensures written { IfOk result (λ _. IsTextOf (city_text city.now) city.now) }
    ensures json { IfOk result (λ _. IsCompactJson (city_text city.now)) }
{
    let numbered = NumberedPoints::of(rt, alloc, seed, city, len)?;
    let points = numbered.all.as_slice();
    let pieces = numbered.pieces.as_slice();
    let texts = texts_of_pieces(
        rt,
        alloc,
        city,
        len,
        points,
        pieces,
        numbered.numbers.as_slice(),
    )?;
    let frame = city.frame();
    let members = frame.extra.map();
    let mut kept = KeptMembers::new(members);
    let head = append_head(bytes, &mut kept)?;
    let objects = append_pieces(head, texts)?;
    let count = city.len().div_ceil(len);
    let all = append_rest(rt, alloc, objects, frame, &mut kept, points, count)?;
    Ok(all)
}
