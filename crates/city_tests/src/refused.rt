//! Growths, allocations, are refused. `testing/refused_growths.py` runs each of these tests once for each of its
//! growths, and refuses this one: then a refused call can be made again, and a run leaves a serial history. A test
//! without memory to begin with says so and ends.
ghost use Rattle.std.specs.Prelude.{◌≡◌, IfSome};

mod copies;
mod hands;

use crate::board::{commit_next, counted, opened_to_one, shown, turn};
use crate::core_calls::is_done;
use crate::replay::is_replayed;
use crate::runs::{
    CHILD_OF_TWO, CUBE, ORPHAN, PLANNERS, ROADS, Run, TWO_READERS, UNDELETED, opened,
};
use city_crew::{Note, OpenGate, Poster, Viewer, run_crew};
use city_desk::{Desk, ListShelf, Output, RunFault, Shelf, output_bytes, run_serial};
use city_doc::{
    FIXED_SEED, Pieces, ReadFault, append_city_by, read_city, read_city_by, write_city,
};
use city_locks::{LockTable, Mode};
use city_members::text::Text;
use city_model::city::City;
use city_model::end::{End, Outcome};
use std::alloc::Global;
use std::sync::Wait;
use std::test::Fail;
use std::thread::Threads;

/// Whether the mode is held after at most two tries. A refused ask leaves the held mode as it was.
fn is_held_at_last(table: &mut LockTable, stamp: u64, id: &Text, mode: Mode) -> bool {
    let before = table.mode(stamp, id);
    let held = table.ask(stamp, id, mode).is_ok()
        || table.mode(stamp, id) == before && table.ask(stamp, id, mode).is_ok();
    held && table.mode(stamp, id) == Some(mode)
}

#[test]
fn an_ask_leaves_the_table(rt: HostRuntime) -> Result<(), Fail> {
    let x = Text::new("x".to_string(rt.alloc())?);
    let mut table = LockTable::new(rt.alloc());
    assert!(rt; is_held_at_last(&mut table, 1, &x, Mode::Shared));
    assert!(rt; is_held_at_last(&mut table, 2, &x, Mode::Shared));
    table.release_all(1);
    assert!(rt; is_held_at_last(&mut table, 2, &x, Mode::Exclusive));
    Ok(())
}

/// Buildings and a part, and a piece of land.
const HOUSES: &str = model!(
    r#"{"b":{"children":["p"],"type":"Building"},"p":{"parents":["b"],"type":"BuildingPart"},"r":{"type":"Building"},"x":{"type":"LandUse"}}"#,
    "[]"
);

/// A script with puts, deletes, attaches, and a way back to a mark.
const REBUILD: &str = concat!(
    r#"[{"name":"s","commands":[{"read":"b"},{"mark":"m"},{"delete":"x"},{"put":"x","object":{"type":"Road"}},"#,
    r#"{"put":"q","object":{"type":"BuildingPart"}},{"back":"m"},{"delete":"p"},"#,
    r#"{"put":"q","object":{"type":"BuildingPart"}},{"attach":"q","parent":"b"},{"detach":"q","parent":"b"},"#,
    r#"{"attach":"q","parent":"r"},{"put":"x","object":{"type":"LandUse","attributes":{"n":1}}},"#,
    r#"{"delete":"x"},"commit"]}]"#
);

/// What it leaves.
const REBUILT: &str = model!(
    r#"{"b":{"type":"Building"},"q":{"parents":["r"],"type":"BuildingPart"},"r":{"children":["q"],"type":"Building"}}"#,
    "[]"
);

#[test]
fn calls_of_a_core_can_be_made_again(rt: HostRuntime) -> Result<(), Fail> {
    let done = is_done(rt.alloc(), HOUSES, REBUILD, 5, REBUILT).ok_or(SHORT)?;
    assert!(rt; done);
    Ok(())
}

/// A script with sets, unsets, reshapes, adds, an expect, and a way back to a mark.
const AMEND: &str = concat!(
    r#"[{"name":"s","commands":[{"set":"b","attributes":{"n":1}},{"mark":"m"},"#,
    r#"{"set":"b","attributes":{"k":2,"n":3}},{"unset":"r","attributes":["z"]},{"reshape":"p","geometry":[]},"#,
    r#"{"back":"m"},{"expect":"b","attributes":{"n":1}},"#,
    r#"{"add":"g","object":{"type":"Road","attributes":{"o":{"a":[1]}}}},{"set":"g","attributes":{"o":[]}},"#,
    r#"{"set":"x","attributes":{"u":1}},{"unset":"x","attributes":["u"]},"#,
    r#"{"reshape":"r","geometry":[{"type":"MultiSurface","lod":"1","boundaries":[]}]},"commit"]}]"#
);

/// What it leaves.
const AMENDED: &str = model!(
    r#"{"b":{"attributes":{"n":1},"children":["p"],"type":"Building"},"g":{"attributes":{"o":[]},"type":"Road"},"p":{"parents":["b"],"type":"BuildingPart"},"r":{"geometry":[{"boundaries":[],"lod":"1","type":"MultiSurface"}],"type":"Building"},"x":{"type":"LandUse"}}"#,
    "[]"
);

#[test]
fn edits_of_attributes_can_be_made_again(rt: HostRuntime) -> Result<(), Fail> {
    let done = is_done(rt.alloc(), HOUSES, AMEND, 4, AMENDED).ok_or(SHORT)?;
    assert!(rt; done);
    Ok(())
}

/// A put, and a read of its object.
const PUT_AND_READ: &str = concat!(
    r#"[{"name":"s","commands":[{"put":"g","object":{"type":"Road","attributes":{"n":1}}},"#,
    r#"{"read":"g"},"commit"]}]"#
);

const LAND: &str = model!(r#"{"f":{"type":"LandUse"}}"#, "[]");

#[test]
fn a_put_leaves_no_part_of_itself(rt: HostRuntime) -> Result<(), Fail> {
    let whole = is_done(rt.alloc(), LAND, PUT_AND_READ, 0, LAND).ok_or(SHORT)?;
    assert!(rt; whole);
    Ok(())
}

/// Takes turns of all scripts until they have ended, at most as often as the runs here can take.
pub fn end_all<S: Shelf>(desk: &mut Desk<S>) {
    for _ in 0..16 {
        for script in 0..desk.scripts() {
            let _turn = turn(desk, script);
        }
    }
}

/// Whether ends and their city are a serial history.
fn are_replayed(alloc: Global, run: &Run, city: &City, ends: &[End]) -> bool {
    let bytes = output_bytes(alloc, FIXED_SEED, city, ends, Vec::new(alloc)).or(output_bytes(
        alloc,
        FIXED_SEED,
        city,
        ends,
        Vec::new(alloc),
    ));
    bytes.is_ok_and(|(bytes, _)| is_replayed(alloc, run, ends, bytes.as_slice()))
}

/// Whether the turns of a desk's scripts leave a serial history.
fn leaves_a_history(mut desk: Desk<ListShelf>, alloc: Global, run: &Run) -> bool {
    end_all(&mut desk);
    match desk.finish() {
        Ok(left) => are_replayed(alloc, run, &left.city, left.ends.as_slice()),
        Err(_) => false,
    }
}

/// The same of a new desk; none if memory ran out for it.
fn turns_leave(alloc: Global, run: &Run) -> Option<bool> {
    let desk = opened(alloc, run)?;
    Some(leaves_a_history(desk, alloc, run))
}

/// Runs with puts, deletes, attaches, aborts and ways back, and with waits and deaths.
const RUNS: &[Run] = &[CHILD_OF_TWO, CUBE, ORPHAN, PLANNERS, TWO_READERS, UNDELETED];

/// Why a test isn't taken.
const SHORT: &str = "no memory to begin with";

#[test]
fn turns_leave_a_serial_history(rt: HostRuntime) -> Result<(), Fail> {
    for run in RUNS {
        let left = turns_leave(rt.alloc(), run).ok_or(SHORT)?;
        assert!(rt; left, "{}", run.scripts);
    }
    Ok(())
}

/// Whether no script of a run ends out of memory at its command 3.
fn never_ends_at_three(alloc: Global, run: &Run) -> Option<bool> {
    let mut desk = opened(alloc, run)?;
    end_all(&mut desk);
    let mut ends = desk.ends().iter();
    Some(ends.all(|end| !matches!(end.outcome, Outcome::NoMemory(3))))
}

#[test]
fn going_back_takes_no_memory(rt: HostRuntime) -> Result<(), Fail> {
    let went = never_ends_at_three(rt.alloc(), &UNDELETED).ok_or(SHORT)?;
    assert!(rt; went);
    Ok(())
}

/// The number of a desk's commits.
fn commits<S: Shelf>(desk: &Desk<S>) -> u64 {
    let mut commits = 0u64;
    for end in desk.ends() {
        if matches!(end.outcome, Outcome::Committed) {
            commits = commits.wrapping_add(1);
        }
    }
    commits
}

/// The viewer, if it sees no change.
fn unseeing(viewer: Viewer) -> Option<Viewer>
    ensures { IfSome result (λ v. v.name ≡ viewer.name) }
{
    match counted(viewer, 0) {
        Some((viewer, 0)) => Some(viewer),
        _ => None,
    }
}

/// The number of changes seen by a viewer after it has learnt of a show.
fn seen_once_told(viewer: Viewer, note: &Note) -> Option<u64>
    requires { note.now.name ≡ viewer.name }
{
    let (_viewer, seen) = counted(viewer.learn(note), 0)?;
    Some(seen)
}

/// The number of changes seen by a viewer after a show; or after a second show, if the first is refused and it sees
/// none.
fn seen_at_last<R: Wait + Drop, Q: Wait>(
    rt: &Q,
    desk: &mut Desk<Poster<R>>,
    viewer: Viewer,
) -> Option<u64>
    requires { viewer.name ≡ desk.old.1.name }
{
    if let Some(note) = shown(rt, desk) {
        return seen_once_told(viewer, &note);
    }
    let viewer = unseeing(viewer)?;
    let note = shown(rt, desk)?;
    seen_once_told(viewer, &note)
}

/// Whether a viewer sees nothing after a refused first show, and then all commits.
fn is_shown_at_last<R: Wait>(rt: &R, alloc: Global) -> Option<bool> {
    let (mut desk, viewer) = opened_to_one(rt, alloc)?;
    let _ended = commit_next(&mut desk);
    let seen = seen_at_last(rt, &mut desk, viewer);
    Some(seen == Some(commits(&desk)))
}

#[test]
fn a_show_can_be_made_again(rt: HostRuntime) -> Result<(), Fail> {
    let shown = is_shown_at_last(&rt, rt.alloc()).ok_or(SHORT)?;
    assert!(&rt; shown);
    Ok(())
}

/// Whether a run fails only because memory ran out, or its scripts give the same when they are played again.
fn is_serial_or_short(alloc: Global, run: &Run, ran: Result<Output, RunFault>) -> bool {
    match ran {
        Ok(output) => is_replayed(alloc, run, output.ends.as_slice(), output.bytes.as_slice()),
        Err(fault) => matches!(fault, RunFault::OutOfMemory),
    }
}

#[test]
fn a_serial_run_is_refused_or_leaves_a_serial_history(rt: HostRuntime) {
    for run in RUNS {
        let ran = run_serial(rt.alloc(), run.document.as_bytes(), run.scripts.as_bytes());
        assert!(rt; is_serial_or_short(rt.alloc(), run, ran), "{}", run.scripts);
    }
}

/// The run by two workers, before a viewer.
fn ran_by_two<R: Threads + Wait + Sync>(
    rt: &R,
    alloc: Global,
    run: &Run,
) -> Result<Output, RunFault> {
    let (document, scripts) = (run.document.as_bytes(), run.scripts.as_bytes());
    run_crew(rt, alloc, document, scripts, 2, 1, &OpenGate)
}

#[test]
fn a_run_of_two_workers_is_refused_or_leaves_a_serial_history(rt: HostRuntime) {
    let ran = ran_by_two(&rt, rt.alloc(), &TWO_READERS);
    assert!(&rt; is_serial_or_short(rt.alloc(), &TWO_READERS, ran));
}

/// Whether a city has this text, written in at most two tries.
fn is_written(alloc: Global, city: &City, text: &str) -> bool {
    let written = write_city(alloc, city).or(write_city(alloc, city));
    written.is_ok_and(|written| written.as_slice() == text.as_bytes())
}

/// Whether a document read in pieces gives its own text again, or memory ran out.
fn is_read_or_short<R: Threads + Sync>(rt: &R, alloc: Global, document: &str) -> bool {
    let pieces = Pieces { count: 3, least: 1 };
    match read_city_by(rt, alloc, document.as_bytes(), pieces) {
        Ok(city) => is_written(alloc, &city, document),
        Err(fault) => matches!(fault, ReadFault::OutOfMemory),
    }
}

#[test]
fn a_document_in_pieces_is_read_or_memory_ran_out(rt: HostRuntime) {
    let read = is_read_or_short(&rt, rt.alloc(), ROADS);
    assert!(&rt; read);
}

/// Whether a city written in pieces has this text, or memory ran out.
fn is_written_or_short<R: Threads + Sync>(
    rt: &R,
    alloc: Global,
    document: &str,
    pieces: Pieces,
) -> bool {
    let Ok(city) = read_city(alloc, document.as_bytes()) else {
        return true;
    };
    match append_city_by(rt, alloc, FIXED_SEED, Vec::new(alloc), &city, pieces) {
        Ok(written) => written.as_slice() == document.as_bytes(),
        Err(_) => true,
    }
}

#[test]
fn a_city_in_pieces_is_written_or_memory_ran_out(rt: HostRuntime) {
    let pieces = Pieces { count: 3, least: 1 };
    let written = is_written_or_short(&rt, rt.alloc(), ROADS, pieces);
    assert!(&rt; written);
}
