//! The verb `board`: viewers of a board, with its poster as a desk's shelf.
ghost use Rattle.std.specs.Prelude.{◌≡◌, ◌≤◌, [], IfSome};
ghost use Rattle.city_model.specs.CityMap.{object_at};
ghost use Rattle.city_model.specs.Relations.{IsLawful};
ghost use Rattle.city_crew.specs.Limits.{max_viewers};

use crate::document::add_city;
use crate::fault_lines::add_run_fault;
use crate::steps::{TakesSteps, take_steps};
use crate::written::Written;
use city_crew::board::board;
use city_crew::{MAX_VIEWERS, Poster, Viewer};
use city_desk::{Desk, Shelf, Turn, read_texts};
use city_members::copied::Copied;
use city_members::sequence::Sequence;
use city_model::OutOfMemory;
use city_model::city::City;
use city_model::script::Script;
use std::alloc::Global;
use std::sync::Wait;

/// Takes the steps at a board of so many seats, and answers each; the final model follows.
pub fn play_board<R: Wait>(
    rt: &R,
    alloc: Global,
    seats: &str,
    document: &[u8],
    scripts: &[u8],
    lines: &str,
    answer: &mut Written,
) {
    match read_texts(alloc, document, scripts) {
        Ok((city, scripts)) => play_over(rt, alloc, city, scripts, seats, lines, answer),
        Err(fault) => add_run_fault(alloc, fault, answer),
    }
}

fn play_over<R: Wait>(
    rt: &R,
    alloc: Global,
    city: City,
    scripts: Sequence<Script>,
    seats: &str,
    lines: &str,
    answer: &mut Written,
)
    requires { IsLawful (object_at city.1) }
{
    let seats = seats.parse::<usize>().unwrap_or(0).min(MAX_VIEWERS);
    match board_over(rt, alloc, &city, seats) {
        Some((poster, viewers)) => {
            play_posted(rt, alloc, city, scripts, poster, viewers, lines, answer)
        }
        None => answer.add_line("no board"),
    }
}

/// A board over a city, and its viewers.
fn board_over<'r, R: Wait>(
    rt: &'r R,
    alloc: Global,
    city: &City,
    seats: usize,
) -> Option<(Poster<&'r R>, Vec<Viewer>)>
    requires lawful { IsLawful (object_at city.now.1) }
    requires seats { seats ≤ max_viewers }
    ensures opening { IfSome result (λ r. r.0.opening ≡ city.now) }
    ensures taken { IfSome result (λ r. r.0.taken ≡ []) }
{
    let Ok(copy) = city.copy(alloc) else {
        return None;
    };
    board(rt, alloc, copy, seats).ok()
}

/// Takes the steps at a desk over the city of a board, with the board's poster as its shelf.
fn play_posted<R: Wait + Drop, Q: Wait>(
    rt: &Q,
    alloc: Global,
    city: City,
    scripts: Sequence<Script>,
    poster: Poster<R>,
    viewers: Vec<Viewer>,
    lines: &str,
    answer: &mut Written,
)
    requires lawful { IsLawful (object_at city.1) }
    requires opening { poster.opening ≡ city }
    requires taken { poster.taken ≡ [] }
{
    match Desk::open(alloc, city, scripts, poster) {
        Ok(desk) => play_at(alloc, Seated { rt, desk, viewers }, lines, answer),
        Err(OutOfMemory) => answer.run_out(),
    }
}

/// A desk with the poster of a board as its shelf, and the board's viewers.
#[derive(Drop)]
struct Seated<'q, R: Wait + Drop, Q: Wait> {
    rt: &'q Q,
    desk: Desk<Poster<R>>,
    viewers: Vec<Viewer>,
}

/// Takes the steps, and adds the final model.
fn play_at<R: Wait + Drop, Q: Wait>(
    alloc: Global,
    mut seated: Seated<R, Q>,
    lines: &str,
    answer: &mut Written,
) {
    take_steps(&mut seated, alloc, lines, answer);
    let Seated { desk, .. } = seated;
    let (city, _ends, _shelf) = desk.close();
    add_city(alloc, &city, answer);
}

/// A step runs the next script, shows the commits, or has a viewer look.
impl<R: Wait + Drop, Q: Wait> TakesSteps for Seated<'_, R, Q> {
    fn take_step(&mut self, _alloc: Global, step: &str, said: &mut Written) {
        match step {
            "commit" => said.add(end_next(&mut self.desk)),
            "show" => match self.desk.show(self.rt) {
                Ok(_note) => said.add("done"),
                Err(OutOfMemory) => said.run_out(),
            },
            _ => look_at(&mut self.viewers, step, said),
        }
    }
}

/// Most turns of a script.
const TURNS: usize = 2000;

/// Runs the next script to its end.
fn end_next<S: Shelf>(desk: &mut Desk<S>) -> &'static str {
    let Some(script) = desk.take() else {
        return "no script";
    };
    for _ in 0..TURNS {
        if script < desk.scripts() && desk.turn(script) == Turn::Ended {
            return "Ended";
        }
    }
    "no end"
}

/// The seat of the viewer in a step.
fn seat_of(step: &str) -> Option<usize> {
    step.strip_prefix("look ")?.parse::<usize>().ok()
}

/// Has the viewer of a step's seat look, and adds its view.
fn look_at(viewers: &mut Vec<Viewer>, step: &str, said: &mut Written) {
    match seat_of(step) {
        Some(seat) if seat < viewers.len() => {
            let viewer = looked(viewers.remove(seat), said);
            if viewers.insert(seat, viewer).is_err() {
                said.run_out();
            }
        }
        _ => said.add("no such step"),
    }
}

/// Adds the number of edits seen by a viewer, and the ids of its objects.
fn looked(viewer: Viewer, said: &mut Written) -> Viewer {
    match viewer.look() {
        Ok(look) => {
            add_seen(look.edits(), look.city(), said);
            look.leave()
        }
        Err(viewer) => {
            said.add("no look");
            viewer
        }
    }
}

/// Adds the number of edits and the ids of a city's objects, with a space before each.
fn add_seen(edits: u64, city: &City, said: &mut Written) {
    said.show(&edits);
    for (id, _) in city.iter() {
        said.add(" ");
        said.add(id.as_str());
    }
}
