//! Objects as they are seen, and changes.
ghost use Rattle.std.specs.Prelude.{◌≡◌, ◌++◌, [], ◌∷◌, OnOk, codes};
ghost use Rattle.std.specs.FinMap.{entries};
ghost use Rattle.json.specs.Token.{key};
ghost use Rattle.serde_json.specs.Data.{object as tree, member};
ghost use Rattle.city_writer.specs.report.Ends.{count_data};
ghost use Rattle.city_writer.specs.tree.Lists.{list_data};
ghost use Rattle.city_writer.specs.internal.tree.PartTokens.{tokens_of_members};
ghost use Rattle.city_writer.specs.tree.Tokens.{tokens_of};
ghost use Rattle.city_lines.specs.Told.{one, seen_data, seen_members, first_data, typed_data, changed_data};

use crate::front::{write_number, write_text};
use city_live::Changed;
use city_members::text::Id;
use city_model::change::Change;
use city_model::city::City;
use city_model::object::Object;
use city_model::{OutOfMemory, object_type};
use city_writer::write_found;
use json::Writer;
use std::alloc::Global;

/// Writes an object, or that there is none.
fn write_object(
    alloc: Global,
    seed: u64,
    object: &Option<Object>,
    out: &mut Writer,
) -> Result<(), OutOfMemory>
    ensures before { OnOk result (out.new.before ≡ out.old.before) }
    ensures tokens { OnOk result (out.new.tokens
        ≡ out.old.tokens ++ tokens_of (seen_data object.now)) }
{
    match object {
        Some(object) => write_found(alloc, seed, object, out),
        None => {
            out.null()?;
            Ok(())
        }
    }
}

/// Writes an object under its id.
fn write_seen(
    alloc: Global,
    seed: u64,
    id: &Id,
    object: &Option<Object>,
    out: &mut Writer,
) -> Result<(), OutOfMemory>
    ensures before { OnOk result (out.new.before ≡ out.old.before) }
    ensures tokens { OnOk result (out.new.tokens
        ≡ out.old.tokens ++ key id.now ∷ tokens_of (seen_data object.now)) }
{
    out.key(id.as_str())?;
    write_object(alloc, seed, object, out)
}

/// Writes the first of these objects.
fn write_first(
    alloc: Global,
    seed: u64,
    found: &[(Id, Option<Object>)],
    out: &mut Writer,
) -> Result<(), OutOfMemory>
    ensures before { OnOk result (out.new.before ≡ out.old.before) }
    ensures tokens { OnOk result (out.new.tokens
        ≡ out.old.tokens ++ tokens_of (first_data found.now)) }
{
    match found.first() {
        Some((_, object)) => write_object(alloc, seed, object, out),
        None => {
            out.null()?;
            Ok(())
        }
    }
}

/// Writes objects by their ids.
fn write_found_objects(
    alloc: Global,
    seed: u64,
    found: &[(Id, Option<Object>)],
    out: &mut Writer,
) -> Result<(), OutOfMemory>
    ensures before { OnOk result (out.new.before ≡ out.old.before) }
    ensures tokens { OnOk result (out.new.tokens
        ≡ out.old.tokens ++ tokens_of (tree (seen_members found.now))) }
{
    out.begin_object()?;
    for (id, object) in found {
        write_seen(alloc, seed, id, object, out)?;
    }
    out.end_object()?;
    Ok(())
}

/// Writes a look at one object, the first of these.
pub fn write_one(
    alloc: Global,
    seed: u64,
    found: &[(Id, Option<Object>)],
    version: u64,
    out: &mut Writer,
) -> Result<(), OutOfMemory>
    ensures before { OnOk result (out.new.before ≡ out.old.before) }
    ensures tokens { OnOk result (out.new.tokens
        ≡ out.old.tokens ++ tokens_of_members (member (codes "look") (first_data found.now)
        (one (codes "version") (count_data version)))) }
{
    out.key("look")?;
    write_first(alloc, seed, found, out)?;
    write_number("version", version, out)
}

/// Writes a look at objects, by their ids.
pub fn write_each(
    alloc: Global,
    seed: u64,
    found: &[(Id, Option<Object>)],
    version: u64,
    out: &mut Writer,
) -> Result<(), OutOfMemory>
    ensures before { OnOk result (out.new.before ≡ out.old.before) }
    ensures tokens { OnOk result (out.new.tokens
        ≡ out.old.tokens ++ tokens_of_members (member (codes "look") (tree (seen_members found.now))
        (one (codes "version") (count_data version)))) }
{
    out.key("look")?;
    write_found_objects(alloc, seed, found, out)?;
    write_number("version", version, out)
}

/// Writes the ids of all objects, each with its type.
pub fn write_ids(city: &City, version: u64, out: &mut Writer) -> Result<(), OutOfMemory>
    ensures before { OnOk result (out.new.before ≡ out.old.before) }
    ensures tokens { OnOk result (out.new.tokens
        ≡ out.old.tokens ++ tokens_of_members (member (codes "ids") (list_data typed_data (entries city.now.1))
        (one (codes "version") (count_data version)))) }
{
    out.key("ids")?;
    write_types(city, out)?;
    write_number("version", version, out)
}

/// Writes each id with its type.
fn write_types(city: &City, out: &mut Writer) -> Result<(), OutOfMemory>
    ensures before { OnOk result (out.new.before ≡ out.old.before) }
    ensures tokens { OnOk result (out.new.tokens
        ≡ out.old.tokens ++ tokens_of (list_data typed_data (entries city.now.1))) }
{
    out.begin_array()?;
    for (id, object) in city.iter() {
        write_typed(id, object, out)?;
    }
    out.end_array()?;
    Ok(())
}

/// Writes an id with the type of its object.
fn write_typed(id: &Id, object: &Object, out: &mut Writer) -> Result<(), OutOfMemory>
    ensures before { OnOk result (out.new.before ≡ out.old.before) }
    ensures tokens { OnOk result (out.new.tokens
        ≡ out.old.tokens ++ tokens_of (typed_data (id.now, object.now))) }
{
    out.begin_array()?;
    out.string(id.as_str())?;
    out.string(object_type::name(object.body.get().kind))?;
    out.end_array()?;
    Ok(())
}

/// Writes a committed change.
pub fn write_changed(
    alloc: Global,
    seed: u64,
    changed: &Changed,
    out: &mut Writer,
) -> Result<(), OutOfMemory>
    ensures before { OnOk result (out.new.before ≡ out.old.before) }
    ensures tokens { OnOk result (out.new.tokens
        ≡ out.old.tokens ++ tokens_of_members (one (codes "changed") (changed_data changed.now))) }
{
    out.key("changed")?;
    out.begin_object()?;
    write_text("by", changed.by.as_str(), out)?;
    write_text("name", changed.name.as_str(), out)?;
    out.key("objects")?;
    write_writes(alloc, seed, &changed.change, out)?;
    write_number("version", changed.version, out)?;
    out.end_object()?;
    Ok(())
}

/// Writes the objects of a change by their ids.
fn write_writes(
    alloc: Global,
    seed: u64,
    change: &Change,
    out: &mut Writer,
) -> Result<(), OutOfMemory>
    ensures before { OnOk result (out.new.before ≡ out.old.before) }
    ensures tokens { OnOk result (out.new.tokens
        ≡ out.old.tokens ++ tokens_of (tree (seen_members change.now))) }
{
    out.begin_object()?;
    for (id, object) in change.iter() {
        write_seen(alloc, seed, id, object, out)?;
    }
    out.end_object()?;
    Ok(())
}
