//! The verb `shelves`: a change made by hand, and the shelves that take it.
ghost use Rattle.std.specs.Prelude.{◌≡◌, ◌≤◌, [], IfOk, IfSome, IsTrue, OnOk};
ghost use Rattle.city_model.specs.CityMap.{CityMap, object_at};
ghost use Rattle.city_model.specs.Relations.{IsLawful};
ghost use Rattle.city_model.specs.Runs.{after_change};
ghost use Rattle.city_crew.specs.Limits.{max_viewers};

use crate::change::add_change;
use crate::document::add_city;
use crate::steps::{begin_step, step_of};
use crate::written::Written;
use city_crew::board::board;
use city_crew::{MAX_VIEWERS, Poster, Viewer};
use city_desk::{ListShelf, NullShelf, Shelf};
use city_doc::read_city;
use city_members::copied::Copied;
use city_members::text::{Id, Text};
use city_model::OutOfMemory;
use city_model::change::Change;
use city_model::city::City;
use city_model::is_lawful::is_lawful;
use city_model::object::Object;
use std::alloc::Global;
use std::sync::Wait;

/// Writes a change by steps: `set x a` writes the object of `a` in the second document at `x`, any other step removes
/// the object of its id, and the answer is the number of ids. The change is taken by a list, by a shelf that keeps
/// nothing, and by the poster of a board over the first document. The board's viewers look once it is shown.
pub fn play_shelves<R: Wait>(
    rt: &R,
    alloc: Global,
    seats: &str,
    document: &[u8],
    objects: &[u8],
    lines: &str,
    answer: &mut Written,
) {
    match read_city(alloc, document) {
        Ok(city) => play_over(rt, alloc, city, objects, seats, lines, answer),
        Err(_) => answer.add_line("no city"),
    }
}

fn play_over<R: Wait>(
    rt: &R,
    alloc: Global,
    city: City,
    objects: &[u8],
    seats: &str,
    lines: &str,
    answer: &mut Written,
)
    requires { IsLawful (object_at city.1) }
{
    let seats = seats.parse::<usize>().unwrap_or(0).min(MAX_VIEWERS);
    match read_change(alloc, &city, objects, lines, answer) {
        Ok(Some(change)) => post(rt, alloc, city, change, seats, answer),
        Ok(None) => {}
        Err(OutOfMemory) => answer.run_out(),
    }
}

/// The change made by the steps, if it leaves a lawful city.
fn read_change(
    alloc: Global,
    city: &City,
    objects: &[u8],
    lines: &str,
    answer: &mut Written,
) -> Result<Option<Change>, OutOfMemory>
    ensures { IfOk result (λ made. IfSome made (λ change. IsLawful (after_change (object_at city.now.1) change))) }
{
    match read_city(alloc, objects) {
        Ok(objects) => make_change(alloc, city, &objects, lines, answer),
        Err(_) => {
            answer.add_line("no objects");
            Ok(None)
        }
    }
}

fn make_change(
    alloc: Global,
    city: &City,
    objects: &City,
    lines: &str,
    answer: &mut Written,
) -> Result<Option<Change>, OutOfMemory>
    ensures { IfOk result (λ made. IfSome made (λ change. IsLawful (after_change (object_at city.now.1) change))) }
{
    let mut after = city.copy(alloc)?;
    let mut change = Change::new(alloc);
    if is_made(alloc, objects, &mut after, &mut change, lines, answer)? {
        return Ok(Some(change));
    }
    answer.add_line("not lawful");
    Ok(None)
}

/// Takes the steps, in the change and in a city, and adds the shelves' answers. Returns whether the city is lawful.
fn is_made(
    alloc: Global,
    objects: &City,
    city: &mut City,
    change: &mut Change,
    lines: &str,
    answer: &mut Written,
) -> Result<bool, OutOfMemory>
    ensures { IfOk result (λ lawful. IsTrue lawful → (m : CityMap) → object_at city.old.1 ≡ after_change m change.old
        → IsLawful (after_change m change.new)) }
{
    write_steps(alloc, objects, city, change, lines, answer)?;
    add_taken(alloc, change, answer)?;
    let lawful = is_lawful(alloc, city)?;
    Ok(lawful)
}

fn write_steps(
    alloc: Global,
    objects: &City,
    city: &mut City,
    change: &mut Change,
    lines: &str,
    answer: &mut Written,
) -> Result<(), OutOfMemory>
    ensures { OnOk result ((m : CityMap) → object_at city.old.1 ≡ after_change m change.old
        → object_at city.new.1 ≡ after_change m change.new) }
{
    for line in lines.lines() {
        if let Some(step) = step_of(line) {
            write_step(alloc, objects, city, change, step)?;
            begin_step(step, answer);
            answer.show(&change.len());
            answer.add("\n");
        }
    }
    Ok(())
}

fn write_step(
    alloc: Global,
    objects: &City,
    city: &mut City,
    change: &mut Change,
    step: &str,
) -> Result<(), OutOfMemory>
    ensures { OnOk result ((m : CityMap) → object_at city.old.1 ≡ after_change m change.old
        → object_at city.new.1 ≡ after_change m change.new) }
{
    let (_, words) = step.split_once(" ").unwrap_or((step, ""));
    let (id, other) = words.split_once(" ").unwrap_or((words, ""));
    let other = Text::new(other.to_string(alloc)?);
    let id = Text::new(id.to_string(alloc)?);
    write(alloc, city, change, id, objects.get(&other))
}

/// Writes the object of an id, or its absence, into a city and a change.
fn write(
    alloc: Global,
    city: &mut City,
    change: &mut Change,
    id: Id,
    object: Option<&Object>,
) -> Result<(), OutOfMemory>
    ensures { OnOk result ((m : CityMap) → object_at city.old.1 ≡ after_change m change.old
        → object_at city.new.1 ≡ after_change m change.new) }
{
    match object {
        Some(object) => {
            drop(city.set(id.copy(alloc)?, object.copy(alloc)?)?);
            change.set(id, Some(object.copy(alloc)?))
        }
        None => {
            drop(city.remove(&id));
            change.set(id, None)
        }
    }
}

/// Gives a change to a shelf that keeps nothing and to a list, and adds the list's change.
fn add_taken(alloc: Global, change: &Change, answer: &mut Written) -> Result<(), OutOfMemory> {
    NullShelf::new().take(change.copy(alloc)?)?;
    let mut list = ListShelf::new(alloc);
    list.take(change.copy(alloc)?)?;
    match list.changes() {
        [taken] => add_change("taken", taken, answer),
        _ => answer.add("not taken"),
    }
    answer.add("\n");
    Ok(())
}

/// Posts a change on a board over a city.
fn post<R: Wait>(
    rt: &R,
    alloc: Global,
    city: City,
    change: Change,
    seats: usize,
    answer: &mut Written,
)
    requires lawful { IsLawful (object_at city.1) }
    requires after { IsLawful (after_change (object_at city.1) change) }
    requires seats { seats ≤ max_viewers }
{
    match board(rt, alloc, city, seats) {
        Ok((poster, viewers)) => show(poster, alloc, viewers, change, answer),
        Err(_) => answer.add_line("no board"),
    }
}

/// Shows a change, and adds each viewer's view of it.
fn show<R: Wait + Drop>(
    mut poster: Poster<R>,
    alloc: Global,
    viewers: Vec<Viewer>,
    change: Change,
    answer: &mut Written,
)
    requires taken { poster.taken ≡ [] }
    requires after { IsLawful (after_change (object_at poster.opening.1) change) }
{
    let shown = poster.append(change).is_ok() && poster.publish().is_ok();
    answer.add_line(if shown { "shown" } else { "not shown" });
    for viewer in viewers {
        add_seen_by(alloc, viewer, answer);
    }
}

/// Adds a viewer's number of edits and its city.
fn add_seen_by(alloc: Global, viewer: Viewer, answer: &mut Written) {
    match viewer.look() {
        Ok(look) => {
            answer.show(&look.edits());
            answer.add("\n");
            add_city(alloc, look.city(), answer);
            let _viewer = look.leave();
        }
        Err(_viewer) => answer.add_line("no look"),
    }
}
