//! Writes a city: its objects, and the other members of its top.
ghost use Rattle.std.specs.Prelude.{◌≡◌, ◌++◌, [], OnOk, true};
ghost use Rattle.city_members.specs.Kept.{kept_at_transform};
ghost use Rattle.city_writer.specs.document.Canonical.{transform_data, tree_of};
ghost use Rattle.city_writer.specs.internal.document.KeptMembers.{IsKeptCity};
ghost use Rattle.city_writer.specs.Pool.{pool_of};
ghost use Rattle.city_writer.specs.document.Ranges.{IsInRange};
ghost use Rattle.city_writer.specs.tree.Ranges.{is_i64_triple};
ghost use Rattle.city_writer.specs.tree.Tokens.{tokens_of};
ghost use Rattle.city_writer.specs.internal.document.Pieces.{frame_own};
ghost use Rattle.city_writer.specs.internal.document.Rest.{before_vertices, behind_vertices};
ghost use Rattle.city_writer.specs.internal.tree.OwnMembers.{written};
ghost use Rattle.city_writer.specs.internal.tree.ReadsBack.{ReadsBack, MembersReadBack};
ghost use Rattle.city_writer.specs.shape.Vertices.{vertices_data};

use crate::object::text::write_objects;
use crate::point_numbers::PointNumbers;
use crate::shape::vertices::write_vertices;
use crate::tree::kept_members::KeptMembers;
use crate::tree::triples::write_triple;
use city_model::OutOfMemory;
use city_model::city::City;
use city_model::frame::Frame;
use city_model::object::Point;
use json::Writer;
use std::alloc::Global;

fn write_transform(frame: &Frame, out: &mut Writer) -> Result<(), OutOfMemory>
    ensures before { OnOk result (out.new.before ≡ out.old.before) }
    ensures tokens { OnOk result (out.new.tokens
        ≡ out.old.tokens ++ tokens_of (transform_data frame.now)) }
    ensures reads { OnOk result (ReadsBack (transform_data frame.now)) }
    ensures kept { OnOk result (kept_at_transform frame.now.more ≡ true) }
    ensures in_range { OnOk result ((is_i64_triple frame.now.scale ≡ true)
        × (is_i64_triple frame.now.translate ≡ true)) }
{
    let members = frame.more.map();
    let mut kept = KeptMembers::new(members);
    out.begin_object()?;
    kept.write_name("scale", out)?;
    write_triple(&frame.scale, out)?;
    kept.write_name("translate", out)?;
    write_triple(&frame.translate, out)?;
    kept.write_last(out)
}

/// Writes the members of a city behind its objects and before its vertices, and the name of the vertices.
pub fn write_before_vertices(
    frame: &Frame,
    kept: &mut KeptMembers<'_>,
    out: &mut Writer,
) -> Result<(), OutOfMemory>
    ensures before { OnOk result (out.new.before ≡ out.old.before) }
    ensures tokens { OnOk result (out.new.tokens ≡ before_vertices kept.old frame.now out.old.tokens) }
    ensures left { OnOk result (kept.new ≡ behind_vertices kept.old) }
    ensures left_reads { OnOk result (MembersReadBack kept.new → MembersReadBack kept.old) }
    ensures reads { OnOk result (ReadsBack (transform_data frame.now)) }
    ensures kept { OnOk result (kept_at_transform frame.now.more ≡ true) }
    ensures in_range { OnOk result ((is_i64_triple frame.now.scale ≡ true)
        × (is_i64_triple frame.now.translate ≡ true)) }
{
    kept.write_name("transform", out)?;
    write_transform(frame, out)?;
    kept.write_name("type", out)?;
    out.string("CityJSON")?;
    kept.write_name("version", out)?;
    out.string("2.0")?;
    kept.write_name("vertices", out)
}

/// Writes the members of a city behind its objects, and the closing brace.
pub fn write_rest(
    frame: &Frame,
    kept: &mut KeptMembers<'_>,
    points: &[Point],
    out: &mut Writer,
) -> Result<(), OutOfMemory>
    ensures before { OnOk result (out.new.before ≡ out.old.before) }
    ensures tokens { OnOk result (out.new.tokens
        ≡ written kept.old 0 (frame_own points.now frame.now) out.old.tokens) }
    ensures left { OnOk result (MembersReadBack kept.old) }
    ensures reads { OnOk result (ReadsBack (transform_data frame.now) × ReadsBack (vertices_data points.now)) }
    ensures kept { OnOk result (kept_at_transform frame.now.more ≡ true) }
    ensures in_range { OnOk result (IsInRange points.now frame.now) }
{
    write_before_vertices(frame, kept, out)?;
    write_vertices(points, out)?;
    kept.write_last(out)
}

/// Writes a city, and numbers its points as they are met.
fn write_numbered(
    city: &City,
    pool: &mut PointNumbers<'_>,
    out: &mut Writer,
) -> Result<(), OutOfMemory>
    requires { pool.old ≡ [] }
    ensures before { OnOk result (out.new.before ≡ out.old.before) }
    ensures tokens { OnOk result (out.new.tokens ≡ out.old.tokens ++ tokens_of (tree_of city.now)) }
    ensures reads { OnOk result (ReadsBack (tree_of city.now)) }
    ensures kept { OnOk result (IsKeptCity city.now) }
    ensures in_range { OnOk result (IsInRange (pool_of city.now) city.now.0) }
{
    let frame = city.frame();
    let members = frame.extra.map();
    let mut kept = KeptMembers::new(members);
    out.begin_object()?;
    kept.write_name("CityObjects", out)?;
    write_objects(city, pool, out)?;
    write_rest(frame, &mut kept, pool.as_slice(), out)
}

/// Writes a city. Its points are hashed by the seed.
pub fn write_members(
    alloc: Global,
    seed: u64,
    city: &City,
    out: &mut Writer,
) -> Result<(), OutOfMemory>
    ensures before { OnOk result (out.new.before ≡ out.old.before) }
    ensures tokens { OnOk result (out.new.tokens ≡ out.old.tokens ++ tokens_of (tree_of city.now)) }
    ensures reads { OnOk result (ReadsBack (tree_of city.now)) }
    ensures kept { OnOk result (IsKeptCity city.now) }
    ensures in_range { OnOk result (IsInRange (pool_of city.now) city.now.0) }
{
    let mut pool = PointNumbers::as_met(alloc, seed);
    write_numbered(city, &mut pool, out)
}
