//! Writes lists of vertices.
ghost use Rattle.std.specs.Prelude.{◌≡◌, ◌++◌, ◌<◌, ◌^◌, OnOk, true, length};
ghost use Rattle.std.specs.List.{list_all};
ghost use Rattle.city_writer.specs.shape.Vertices.{vertex_data, vertices_data, is_i64_point};
ghost use Rattle.city_writer.specs.tree.Tokens.{tokens_of};
ghost use Rattle.city_writer.specs.internal.shape.InTurn.{tokens_of_vertices, VerticesReadBack};
ghost use Rattle.city_writer.specs.internal.tree.ReadsBack.{ReadsBack};

use crate::tree::triples::write_three;
use city_model::OutOfMemory;
use city_model::object::Point;
use json::Writer;

fn write_vertex(point: &Point, out: &mut Writer) -> Result<(), OutOfMemory>
    ensures before { OnOk result (out.new.before ≡ out.old.before) }
    ensures tokens { OnOk result (out.new.tokens
        ≡ out.old.tokens ++ tokens_of (vertex_data point.now)) }
    ensures reads { OnOk result (ReadsBack (vertex_data point.now)) }
    ensures in_range { OnOk result (is_i64_point point.now ≡ true) }
{
    write_three(point.x, point.y, point.z, out)
}

/// Writes points by their numbers, one after another, without brackets around them.
pub fn write_each(points: &[Point], out: &mut Writer) -> Result<(), OutOfMemory>
    ensures before { OnOk result (out.new.before ≡ out.old.before) }
    ensures tokens { OnOk result (out.new.tokens ≡ out.old.tokens ++ tokens_of_vertices points.now) }
    ensures reads { OnOk result (VerticesReadBack points.now) }
    ensures in_range { OnOk result (list_all is_i64_point points.now ≡ true) }
{
    for point in points {
        write_vertex(point, out)?;
    }
    Ok(())
}

/// Writes points, by their numbers.
pub fn write_vertices(points: &[Point], out: &mut Writer) -> Result<(), OutOfMemory>
    ensures before { OnOk result (out.new.before ≡ out.old.before) }
    ensures tokens { OnOk result (out.new.tokens
        ≡ out.old.tokens ++ tokens_of (vertices_data points.now)) }
    ensures reads { OnOk result (ReadsBack (vertices_data points.now)) }
    ensures in_range { OnOk result (list_all is_i64_point points.now ≡ true) }
    ensures fewer { OnOk result (length points.now < 2 ^ 63) }
{
    out.begin_array()?;
    write_each(points, out)?;
    out.end_array()
}
