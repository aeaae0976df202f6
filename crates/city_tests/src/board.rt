//! A viewer of a board on a thread of its own; the board's poster is a desk's shelf.
ghost use Rattle.std.specs.Prelude.{◌≡◌, [], All, IfSome};
ghost use Rattle.city_model.specs.CityMap.{object_at};
ghost use Rattle.city_model.specs.Relations.{IsLawful};

use crate::runs::{city_of, scripts_of};
use crate::served::{EMPTY, scripts_of_roads};
use city_crew::board::board;
use city_crew::{Note, Poster, Viewer};
use city_desk::{Desk, Shelf, Turn};
use city_members::copied::Copied;
use city_members::sequence::Sequence;
use city_model::city::City;
use city_model::script::Script;
use std::alloc::Global;
use std::sync::Wait;
use std::thread::{Threads, join};

/// A board over a city, and a list of its one viewer.
fn board_over<'r, R: Wait>(
    rt: &'r R,
    alloc: Global,
    city: &City,
) -> Option<(Poster<&'r R>, Vec<Viewer>)>
    requires lawful { IsLawful (object_at city.now.1) }
    ensures names { IfSome result (λ r. All (λ v. v.name ≡ r.0.name) r.1.items) }
    ensures opening { IfSome result (λ r. r.0.opening ≡ city.now) }
    ensures taken { IfSome result (λ r. r.0.taken ≡ []) }
{
    let Ok(copy) = city.copy(alloc) else {
        return None;
    };
    board(rt, alloc, copy, 1).ok()
}

/// The same with the viewer alone.
fn board_for_one<'r, R: Wait>(
    rt: &'r R,
    alloc: Global,
    city: &City,
) -> Option<(Poster<&'r R>, Viewer)>
    requires { IsLawful (object_at city.now.1) }
    ensures name { IfSome result (λ r. r.1.name ≡ r.0.name) }
    ensures opening { IfSome result (λ r. r.0.opening ≡ city.now) }
    ensures taken { IfSome result (λ r. r.0.taken ≡ []) }
{
    let (poster, mut viewers) = board_over(rt, alloc, city)?;
    let viewer = viewers.pop()?;
    Some((poster, viewer))
}

/// A desk over the city of a board, with the board's poster as its shelf.
fn desk_over<'r, R: Wait>(
    alloc: Global,
    scripts: Sequence<Script>,
    city: City,
    poster: Poster<&'r R>,
) -> Option<Desk<Poster<&'r R>>>
    requires lawful { IsLawful (object_at city.1) }
    requires opening { poster.opening ≡ city }
    requires taken { poster.taken ≡ [] }
    ensures { IfSome result (λ desk. desk.1.name ≡ poster.entry.name) }
{
    // (taken out and put back: the prover knows a value taken out by `?`)
    let desk = Desk::open(alloc, city, scripts, poster).ok()?;
    Some(desk)
}

/// A desk over a city without objects, with three scripts of one road each, and its board's one viewer.
pub fn opened_to_one<'r, R: Wait>(rt: &'r R, alloc: Global) -> Option<(Desk<Poster<&'r R>>, Viewer)>
    ensures { IfSome result (λ r. r.1.name ≡ r.0.1.name) }
{
    let text = scripts_of_roads(alloc, 3).ok()?;
    let scripts = scripts_of(alloc, text.as_str())?;
    let city = city_of(alloc, EMPTY)?;
    let (poster, viewer) = board_for_one(rt, alloc, &city)?;
    let desk = desk_over(alloc, scripts, city, poster)?;
    Some((desk, viewer))
}

/// The next turn of a script, if there is one.
pub fn turn<S: Shelf>(desk: &mut Desk<S>, script: usize) -> Option<Turn>
    ensures { S.name desk.new.1 ≡ S.name desk.old.1 }
{
    if script < desk.scripts() {
        Some(desk.turn(script))
    } else {
        None
    }
}

/// Runs the next script, of two commands, to its end. Returns whether it ended.
fn end_next<S: Shelf>(desk: &mut Desk<S>) -> bool
    ensures { S.name desk.new.1 ≡ S.name desk.old.1 }
{
    let Some(script) = desk.take() else {
        return false;
    };
    let _began = turn(desk, script);
    let _replied = turn(desk, script);
    turn(desk, script) == Some(Turn::Ended)
}

/// The same at a desk with a poster as its shelf.
pub fn commit_next<R: Wait + Drop>(desk: &mut Desk<Poster<R>>) -> bool
    ensures { desk.new.1.name ≡ desk.old.1.name }
{
    end_next(desk)
}

/// Shows all commits so far, and returns a note of them.
pub fn shown<R: Wait + Drop, Q: Wait>(rt: &Q, desk: &mut Desk<Poster<R>>) -> Option<Note>
    ensures desk { desk.new.1.name ≡ desk.old.1.name }
    ensures note { IfSome result (λ note. note.name ≡ desk.old.1.name) }
{
    desk.show(rt).ok()
}

/// The number of changes seen by a viewer. None if its look is refused, if it sees fewer than before, or if the number
/// of objects is another.
pub fn counted(viewer: Viewer, before: u64) -> Option<(Viewer, u64)>
    ensures { IfSome result (λ r. r.0.name ≡ viewer.name) }
{
    let Ok(look) = viewer.look() else {
        return None;
    };
    let (edits, objects) = (look.edits(), look.city().len());
    let viewer = look.leave();
    if before <= edits && objects as u64 == edits {
        Some((viewer, edits))
    } else {
        None
    }
}

/// Most looks of a viewer.
const LOOKS: u64 = 10_000_000;

/// Looks until so many changes are seen, and returns their number. None if a look is refused, sees fewer changes than
/// the one before, or another number of objects.
fn look_on(viewer: Viewer, enough: u64) -> Option<(Viewer, u64)>
    ensures { IfSome result (λ r. r.0.name ≡ viewer.name) }
{
    let (mut viewer, mut last) = (viewer, 0);
    for _ in 0..LOOKS {
        if last >= enough {
            break;
        }
        (viewer, last) = counted(viewer, last)?;
    }
    Some((viewer, last))
}

/// Ends the three scripts of a desk, shows each commit, and returns a note of the last.
fn drive_all<R: Wait + Drop, Q: Wait>(rt: &Q, desk: &mut Desk<Poster<R>>) -> Option<Note>
    ensures { IfSome result (λ note. note.name ≡ desk.old.1.name) }
{
    let _first = commit_and_show(rt, desk)?;
    let _second = commit_and_show(rt, desk)?;
    commit_and_show(rt, desk)
}

/// The same for an owned desk, which is returned.
fn drive<R: Wait + Drop, Q: Wait>(rt: &Q, desk: Desk<Poster<R>>) -> (Desk<Poster<R>>, Option<Note>)
    ensures { IfSome result.1 (λ note. note.name ≡ desk.1.name) }
{
    let mut desk = desk;
    let note = drive_all(rt, &mut desk);
    (desk, note)
}

/// Ends the next script, and returns a note of all commits shown then.
fn commit_and_show<R: Wait + Drop, Q: Wait>(rt: &Q, desk: &mut Desk<Poster<R>>) -> Option<Note>
    ensures desk { desk.new.1.name ≡ desk.old.1.name }
    ensures note { IfSome result (λ note. note.name ≡ desk.old.1.name) }
{
    if commit_next(desk) {
        shown(rt, desk)
    } else {
        None
    }
}

/// The final number of changes seen by a viewer that has seen so many and learns of all.
fn seen_at_last(looked: Option<(Viewer, u64)>, note: Option<Note>) -> Option<u64>
    requires { IfSome looked (λ r. IfSome note (λ n. n.name ≡ r.0.name)) }
{
    let (viewer, last) = looked?;
    let note = note?;
    let (_viewer, edits) = counted(viewer.learn(&note), last)?;
    Some(edits)
}

/// The final number of changes seen by a viewer on a thread of its own.
fn seen_beside<R: Threads + Wait + Sync>(rt: &R, alloc: Global) -> Option<u64> {
    let (desk, viewer) = opened_to_one(rt, alloc)?;
    let (looked, driven) = join(
        rt,
        move || -> Option<(Viewer, u64)>
            ensures { IfSome result (λ r. r.0.name ≡ viewer.name) }
        { look_on(viewer, 3) },
        move || -> (Desk<Poster<&R>>, Option<Note>)
            ensures { IfSome result.1 (λ note. note.name ≡ desk.entry.1.name) }
        { drive(rt, desk) },
    );
    let (_desk, note) = driven;
    seen_at_last(looked, note)
}

#[test]
fn a_viewer_looks_on_from_a_thread_of_its_own(rt: HostRuntime) {
    assert_eq!(rt; seen_beside(&rt, rt.alloc()), Some(3));
}
