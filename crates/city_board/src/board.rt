//! A new board.
ghost use Rattle.std.specs.Prelude.{◌≡◌, ◌<◌, ◌≤◌, [], All, IfOk, IfSome, vec_len};
ghost use Rattle.left_right.specs.Sides.{view};
ghost use Rattle.city_model.specs.CityMap.{object_at};
ghost use Rattle.city_model.specs.Relations.{IsLawful};
ghost use Rattle.city_board.specs.internal.BoardRule.{known_from};
ghost use Rattle.city_board.specs.BoardValues.{new_poster, viewer_of};
ghost use Rattle.city_board.specs.Limits.{max_viewers};

use crate::ghosts::board_rule::{BelievesAll, SeesVersion, TellsAll};
use crate::history::History;
use crate::poster::Poster;
use crate::version::Version;
use crate::viewer::Viewer;
use crate::writer::{BoardWriter, OwnWriter};
use city_members::copied::Copied;
use city_model::OutOfMemory;
use city_model::city::City;
use city_scheduler::OpeningCity;
use std::alloc::Global;
use std::sync::Wait;

/// The most viewers of a board. A commit is published once no viewer looks at the version before,
/// so each further viewer may hold it up.
pub const MAX_VIEWERS: usize = 4;

/// Why there is no board.
#[derive(Clone, Copy, Debug, PartialEq, Eq, Drop)]
pub enum BoardFault {
    /// Memory ran out.
    OutOfMemory,
    /// A viewer's seat was refused.
    NoPlace,
}

/// Makes a board over a lawful city: its poster, and `seats` viewers, at most `MAX_VIEWERS`.
///
/// It keeps the city and one copy of it. The runtime is kept for `publish` and the poster's drop.
pub fn board<R: Wait + Drop>(
    rt: R,
    alloc: Global,
    city: City,
    seats: usize,
) -> Result<(Poster<R>, Vec<Viewer>), BoardFault>
    requires lawful { IsLawful (object_at city.1) }
    requires seats { seats ≤ max_viewers }
    ensures poster { IfOk result (λ board. board.0 ≡ new_poster board.0.name city) }
    ensures count { IfOk result (λ board. vec_len board.1 ≡ seats) }
    ensures viewers { IfOk result
        (λ board. All (λ v. (v.name ≡ board.0.name) × (v.opening ≡ city) × (v.seen ≡ [])) board.1.items) }
{
    let (history, head) = History::new();
    let opening = OpeningCity::of(&city);
    let Ok((first, second)) = versions(alloc, city, &history) else {
        return Err(BoardFault::OutOfMemory);
    };
    // (the writer needs at least one reader)
    let readers = if seats == 0 { 1 } else { seats };
    let Ok(writer) = BoardWriter::new(alloc, first, second, readers) else {
        return Err(BoardFault::OutOfMemory);
    };
    // (published once, so that the writer knows the first version and can tell it)
    let (writer, done) = writer.publish_as::<SeesVersion, R>(&rt);
    let mut own = OwnWriter { writer, rt };
    let Ok(()) = done else {
        return Err(BoardFault::OutOfMemory);
    };
    let viewers = new_viewers(alloc, &mut own.writer, &history, seats)?;
    Ok((Poster::new(alloc, own, head, opening, history), viewers))
}

/// The first version, twice.
fn versions(alloc: Global, city: City, history: &History) -> Result<(Version, Version), OutOfMemory>
    ensures city { IfOk result (λ versions. versions.0.city ≡ city) }
    ensures opening { IfOk result (λ versions. versions.0.opening ≡ city) }
    ensures history { IfOk result (λ versions. versions.0.history ≡ history.now) }
    ensures same { IfOk result (λ versions. versions.1 ≡ versions.0) }
{
    let copy = city.copy(alloc)?;
    let opening = OpeningCity::of(&city);
    let other = OpeningCity::of(&city);
    Ok((
        Version {
            alloc,
            city,
            opening,
            history: history.again(),
        },
        Version {
            alloc,
            city: copy,
            opening: other,
            history: history.again(),
        },
    ))
}

/// Makes `seats` viewers with the writer's knowledge.
fn new_viewers(
    alloc: Global,
    writer: &mut BoardWriter,
    history: &History,
    seats: usize,
) -> Result<Vec<Viewer>, BoardFault>
    requires met { view writer.old.desk.place ≡ known_from writer.old.desk.shown.value }
    requires history { history.now ≡ writer.old.desk.shown.value.history }
    ensures count { IfOk result (λ viewers. vec_len viewers ≡ seats) }
    ensures viewers { IfOk result
        (λ viewers. All (λ v. v ≡ viewer_of history.now writer.old.desk.shown.value.opening) viewers.items) }
    ensures shown { writer.new.desk.shown ≡ writer.old.desk.shown }
    ensures log { writer.new.log ≡ writer.old.log }
    ensures behind { writer.new.behind ≡ writer.old.behind }
    ensures known { view writer.new.desk.place ≡ view writer.old.desk.place }
{
    let mut viewers = Vec::new(alloc);
    for _ in 0..seats {
        let Some(viewer) = new_viewer(writer, history) else {
            return Err(BoardFault::NoPlace);
        };
        if viewers.push(viewer).is_err() {
            return Err(BoardFault::OutOfMemory);
        }
    }
    Ok(viewers)
}

/// A viewer with the writer's knowledge; `None` if there is no seat.
fn new_viewer(writer: &mut BoardWriter, history: &History) -> Option<Viewer>
    requires met { view writer.old.desk.place ≡ known_from writer.old.desk.shown.value }
    requires history { history.now ≡ writer.old.desk.shown.value.history }
    ensures viewer { IfSome result (λ v. v ≡ viewer_of history.now writer.old.desk.shown.value.opening) }
    ensures shown { writer.new.desk.shown ≡ writer.old.desk.shown }
    ensures log { writer.new.log ≡ writer.old.log }
    ensures behind { writer.new.behind ≡ writer.old.behind }
    ensures known { view writer.new.desk.place ≡ view writer.old.desk.place }
{
    let Ok(mut reader) = writer.factory().reader() else {
        return None;
    };
    reader.learn::<BelievesAll>(writer.tell::<TellsAll>());
    Some(Viewer::new(reader, history.again()))
}
