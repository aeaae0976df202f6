//! Writes scripts.
ghost use Rattle.std.specs.Prelude.{◌≡◌, ◌<◌, ◌^◌, ◌++◌, [], List, OnOk, true, codes, flat_map, length};
ghost use Rattle.std.specs.List.{list_all};
ghost use Rattle.city_model.specs.declared.object.Point as p;
ghost use Rattle.city_writer.specs.script.Canonical.{script_tree};
ghost use Rattle.city_writer.specs.script.Commands.{command_data, command_points};
ghost use Rattle.city_writer.specs.script.Texts.{IsWritable};
ghost use Rattle.city_writer.specs.shape.Vertices.{vertex_data, is_i64_point};
ghost use Rattle.city_writer.specs.tree.Lists.{list_data};
ghost use Rattle.city_writer.specs.tree.Tokens.{tokens_of};
ghost use Rattle.city_writer.specs.internal.Pool.{with_points};
ghost use Rattle.city_writer.specs.internal.script.KeptMembers.{are_kept_commands};
ghost use Rattle.city_writer.specs.internal.tree.PartTokens.{tokens_of_own, listed};
ghost use Rattle.city_writer.specs.internal.tree.ReadsBack.{OwnReadsBack, ReadsBackNumbered};

use crate::point_numbers::PointNumbers;
use crate::script::command::write_command;
use crate::shape::vertices::write_vertices;
use city_model::OutOfMemory;
use city_model::command::Command;
use city_model::object::Point;
use city_model::script::Script;
use json::Writer;
use std::alloc::Global;

/// Writes commands, in order. New points are added to the pool as they are met.
fn write_commands(
    commands: &[Command],
    pool: &mut PointNumbers<'_>,
    out: &mut Writer,
) -> Result<(), OutOfMemory>
    ensures pool { OnOk result (pool.new ≡ with_points pool.old (flat_map command_points commands.now)) }
    ensures before { OnOk result (out.new.before ≡ out.old.before) }
    ensures tokens { OnOk result ((later : List p.Point) → out.new.tokens ≡ out.old.tokens
        ++ tokens_of (list_data (command_data (with_points pool.new later)) commands.now)) }
    ensures reads { OnOk result (ReadsBackNumbered (λ ps. list_data (command_data ps) commands.now)) }
    ensures kept { OnOk result (are_kept_commands commands.now ≡ true) }
{
    out.begin_array()?;
    for command in commands {
        write_command(command, pool, out)?;
    }
    out.end_array()
}

/// Writes the vertices of a script under their name, unless there are none.
fn write_own_vertices(points: &[Point], out: &mut Writer) -> Result<(), OutOfMemory>
    ensures before { OnOk result (out.new.before ≡ out.old.before) }
    ensures tokens { OnOk result (out.new.tokens
        ≡ out.old.tokens ++ tokens_of_own (codes "vertices") (listed vertex_data points.now)) }
    ensures reads { OnOk result (OwnReadsBack (listed vertex_data points.now)) }
    ensures in_range { OnOk result (list_all is_i64_point points.now ≡ true) }
    ensures fewer { OnOk result (length points.now < 2 ^ 63) }
{
    if points.is_empty() {
        return Ok(());
    }
    out.key("vertices")?;
    write_vertices(points, out)
}

/// Writes a script. The pool has no points at first.
fn write_numbered(
    script: &Script,
    pool: &mut PointNumbers<'_>,
    out: &mut Writer,
) -> Result<(), OutOfMemory>
    requires { pool.old ≡ [] }
    ensures before { OnOk result (out.new.before ≡ out.old.before) }
    ensures tokens { OnOk result (out.new.tokens ≡ out.old.tokens ++ tokens_of (script_tree script.now)) }
    ensures writable { OnOk result (IsWritable script.now) }
{
    out.begin_object()?;
    out.key("commands")?;
    write_commands(script.commands(), pool, out)?;
    out.key("name")?;
    out.string(script.name().as_str())?;
    write_own_vertices(pool.as_slice(), out)?;
    out.end_object()
}

/// Writes a script as an item of a text of scripts, with vertices of its own. Points are hashed by the seed.
///
/// If memory runs out, part of the script may be written.
pub fn write_script(
    alloc: Global,
    seed: u64,
    script: &Script,
    out: &mut Writer,
) -> Result<(), OutOfMemory>
    ensures before { OnOk result (out.new.before ≡ out.old.before) }
    ensures tokens { OnOk result (out.new.tokens ≡ out.old.tokens ++ tokens_of (script_tree script.now)) }
    ensures writable { OnOk result (IsWritable script.now) }
{
    let mut pool = PointNumbers::as_met(alloc, seed);
    write_numbered(script, &mut pool, out)
}
