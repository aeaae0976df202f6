//! Writes city objects.
ghost use Rattle.std.specs.Prelude.{◌≡◌, ◌<◌, ◌^◌, ◌++◌, List, OnOk, length, true, flat_map, take};
ghost use Rattle.std.specs.List.{list_all};
ghost use Rattle.std.specs.FinMap.{entries};
ghost use Rattle.serde_json.specs.Data.{string};
ghost use Rattle.city_model.specs.Chunks.{ids_left};
ghost use Rattle.city_writer.specs.tree.Lists.{list_data};
ghost use Rattle.city_model.specs.declared.object.Point as p;
ghost use Rattle.city_writer.specs.internal.object.InTurn.{in_turn, entry_points};
ghost use Rattle.city_writer.specs.internal.tree.Parted.{members_before, members_from};
ghost use Rattle.city_writer.specs.object.Canonical.{object_data, objects_data};
ghost use Rattle.city_writer.specs.internal.document.KeptMembers.{is_kept_object, are_kept_objects};
ghost use Rattle.city_writer.specs.Pool.{object_points, city_points};
ghost use Rattle.city_writer.specs.internal.Pool.{with_points};
ghost use Rattle.city_writer.specs.script.Commands.{unrelated, body_data};
ghost use Rattle.city_writer.specs.tree.Tokens.{tokens_of};
ghost use Rattle.city_writer.specs.internal.tree.PartTokens.{tokens_of_members, tokens_of_own, listed};
ghost use Rattle.city_writer.specs.internal.tree.ReadsBack.{ReadsBack, OwnReadsBack};
ghost use Rattle.city_writer.specs.internal.tree.ReadsBack.{ReadsBackNumbered, MembersReadBack};

use crate::point_numbers::PointNumbers;
use crate::pool::VertexPool;
use crate::shape::text::Written;
use crate::tree::kept_members::KeptMembers;
use city_members::sequence::Sequence;
use city_members::text::Id;
use city_model::OutOfMemory;
use city_model::city::City;
use city_model::id_list::Ids;
use city_model::object::{Body, Object};
use city_model::object_type::name;
use json::Writer;
use std::collections::btree_map::Iter;

/// Writes the kept members before a name, and a list under that name unless it is empty.
fn write_list<T: Written>(
    kept: &mut KeptMembers<'_>,
    name: &str,
    list: &Sequence<T>,
    pool: &mut PointNumbers<'_>,
    out: &mut Writer,
) -> Result<(), OutOfMemory>
    ensures pool { OnOk result (pool.new ≡ with_points pool.old (flat_map T.points list.now)) }
    ensures before { OnOk result (out.new.before ≡ out.old.before) }
    ensures tokens { OnOk result ((later : List p.Point) → out.new.tokens ≡ out.old.tokens
        ++ (tokens_of_members (members_before name.now kept.old)
        ++ tokens_of_own name.now (listed (T.written (with_points pool.new later)) list.now))) }
    ensures left { OnOk result (kept.new ≡ members_from name.now kept.old) }
    ensures passed { OnOk result (MembersReadBack kept.new → MembersReadBack kept.old) }
    ensures reads { OnOk result ((ps : List p.Point) → length ps < 2 ^ 63
        → OwnReadsBack (listed (T.written ps) list.now)) }
    ensures kept { OnOk result (list_all T.is_kept list.now ≡ true) }
{
    kept.write_before(name, out)?;
    if list.len() == 0 {
        return Ok(());
    }
    out.key(name)?;
    list.write(pool, out)
}

/// Writes ids as an array.
fn write_ids(ids: Ids<'_>, out: &mut Writer) -> Result<(), OutOfMemory>
    ensures before { OnOk result (out.new.before ≡ out.old.before) }
    ensures tokens { OnOk result (out.new.tokens
        ≡ out.old.tokens ++ tokens_of (list_data string (ids_left ids.entry))) }
    ensures reads { OnOk result (ReadsBack (list_data string (ids_left ids.entry))) }
{
    out.begin_array()?;
    for id in ids {
        out.string(id.as_str())?;
    }
    out.end_array()
}

/// Writes the kept members before a name, and ids under that name unless there are none.
fn write_relatives(
    kept: &mut KeptMembers<'_>,
    name: &str,
    ids: Ids<'_>,
    out: &mut Writer,
) -> Result<(), OutOfMemory>
    ensures before { OnOk result (out.new.before ≡ out.old.before) }
    ensures tokens { OnOk result (out.new.tokens ≡ out.old.tokens
        ++ (tokens_of_members (members_before name.now kept.old)
        ++ tokens_of_own name.now (listed string (ids_left ids.entry)))) }
    ensures left { OnOk result (kept.new ≡ members_from name.now kept.old) }
    ensures passed { OnOk result (MembersReadBack kept.new → MembersReadBack kept.old) }
    ensures reads { OnOk result (OwnReadsBack (listed string (ids_left ids.entry))) }
{
    kept.write_before(name, out)?;
    if ids.is_empty() {
        return Ok(());
    }
    out.key(name)?;
    write_ids(ids, out)
}

/// Writes an object, each point as its number. New points are added to the pool as they are met.
#[tactic(auto, unfolding(crate::specs::internal::document::KeptMembers::is_kept_object))]
pub fn write_object(
    object: &Object,
    pool: &mut PointNumbers<'_>,
    out: &mut Writer,
) -> Result<(), OutOfMemory>
    ensures pool { OnOk result (pool.new ≡ with_points pool.old (object_points object.now)) }
    ensures before { OnOk result (out.new.before ≡ out.old.before) }
    ensures tokens { OnOk result ((later : List p.Point) → out.new.tokens
        ≡ out.old.tokens ++ tokens_of (object_data (with_points pool.new later) object.now)) }
    ensures reads { OnOk result (ReadsBackNumbered (λ ps. object_data ps object.now)) }
    ensures kept { OnOk result (is_kept_object object.now ≡ true) }
{
    let body = object.body.get();
    let lent = body.extra.lend();
    let mut kept = KeptMembers::of_object(&lent);
    out.begin_object()?;
    write_relatives(&mut kept, "children", object.children.iter(), out)?;
    write_list(&mut kept, "geometry", body.geometry.get(), pool, out)?;
    write_relatives(&mut kept, "parents", object.parents.iter(), out)?;
    kept.write_name("type", out)?;
    out.string(name(body.kind))?;
    kept.write_last(out)
}

/// Writes an object of this body, without relations. New points are added to the pool as they are met.
#[tactic(auto, unfolding(crate::specs::internal::document::KeptMembers::is_kept_object))]
pub fn write_unrelated(
    body: &Body,
    pool: &mut PointNumbers<'_>,
    out: &mut Writer,
) -> Result<(), OutOfMemory>
    ensures pool { OnOk result (pool.new ≡ with_points pool.old (object_points (unrelated body.now))) }
    ensures before { OnOk result (out.new.before ≡ out.old.before) }
    ensures tokens { OnOk result ((later : List p.Point) → out.new.tokens
        ≡ out.old.tokens ++ tokens_of (body_data (with_points pool.new later) body.now)) }
    ensures reads { OnOk result (ReadsBackNumbered (λ ps. body_data ps body.now)) }
    ensures kept { OnOk result (is_kept_object (unrelated body.now) ≡ true) }
{
    let lent = body.extra.lend();
    let mut kept = KeptMembers::of_object(&lent);
    out.begin_object()?;
    write_list(&mut kept, "geometry", body.geometry.get(), pool, out)?;
    kept.write_name("type", out)?;
    out.string(name(body.kind))?;
    kept.write_last(out)
}

/// Adds the points of an object to a pool, in the order of `write_object`.
fn add_points(object: &Object, pool: &mut VertexPool) -> Result<(), OutOfMemory>
    ensures { OnOk result (pool.new ≡ with_points pool.old (object_points object.now)) }
{
    let body = object.body.get();
    body.geometry.get().add_points(pool)
}

/// Adds the points of the first `count` of these objects to a pool, or of all if there are fewer.
pub fn add_first(
    mut left: Iter<'_, Id, Object>,
    mut count: usize,
    pool: &mut VertexPool,
) -> Result<(), OutOfMemory>
    ensures { OnOk result (pool.new ≡ with_points pool.old (entry_points (take count left.entry))) }
{
    'objects: while count > 0 {
        let Some((_, object)) = left.next() else {
            return Ok(());
        };
        add_points(object, pool)?;
        count -= 1;
    }
    Ok(())
}

/// Writes the first `count` of these objects, or all if there are fewer, each under its id.
pub fn write_first(
    mut left: Iter<'_, Id, Object>,
    mut count: usize,
    pool: &mut PointNumbers<'_>,
    out: &mut Writer,
) -> Result<(), OutOfMemory>
    ensures pool { OnOk result (pool.new ≡ with_points pool.old (entry_points (take count left.entry))) }
    ensures before { OnOk result (out.new.before ≡ out.old.before) }
    ensures tokens { OnOk result ((later : List p.Point) → out.new.tokens ≡ out.old.tokens
        ++ tokens_of_members (in_turn (with_points pool.new later) (take count left.entry))) }
    ensures reads { OnOk result ((ps : List p.Point) → length ps < 2 ^ 63
        → MembersReadBack (in_turn ps (take count left.entry))) }
    ensures kept { OnOk result (are_kept_objects (take count left.entry) ≡ true) }
{
    'objects: while count > 0 {
        let Some((id, object)) = left.next() else {
            return Ok(());
        };
        out.key(id.as_str())?;
        write_object(object, pool, out)?;
        count -= 1;
    }
    Ok(())
}

/// Writes the objects of a city by their ids.
pub fn write_objects(
    city: &City,
    pool: &mut PointNumbers<'_>,
    out: &mut Writer,
) -> Result<(), OutOfMemory>
    ensures pool { OnOk result (pool.new ≡ with_points pool.old (city_points city.now)) }
    ensures before { OnOk result (out.new.before ≡ out.old.before) }
    ensures tokens { OnOk result ((later : List p.Point) → out.new.tokens ≡ out.old.tokens
        ++ tokens_of (objects_data (with_points pool.new later) (entries city.now.1))) }
    ensures reads { OnOk result (ReadsBackNumbered (λ ps. objects_data ps (entries city.now.1))) }
    ensures kept { OnOk result (are_kept_objects (entries city.now.1) ≡ true) }
{
    out.begin_object()?;
    write_first(city.iter(), city.len(), pool, out)?;
    out.end_object()
}
