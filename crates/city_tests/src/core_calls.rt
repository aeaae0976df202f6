//! Calls of a transaction core: each call out of memory is made again, and answers then.
ghost use Rattle.city_model.specs.CityMap.{object_at};
ghost use Rattle.city_model.specs.Relations.{IsLawful};

use crate::runs::{city_of, scripts_of};
use city_doc::write_city;
use city_model::city::City;
use city_model::command::{Command, Reply};
use city_model::script::is_end;
use city_txn::{Core, Prepared, Step, TxnFault};
use std::alloc::Global;

/// The outcome of a command.
fn answer(core: &mut Core, stamp: u64, command: &Command) -> &'static str {
    if is_end(command) {
        return "an end";
    }
    word_for(&core.act(stamp, command))
}

fn word_for(step: &Result<Step, TxnFault>) -> &'static str {
    match step {
        Ok(Step::Done(Reply::Refused(_))) => "refused",
        Ok(Step::Done(Reply::Absent)) => "absent",
        Ok(Step::Done(_)) => "done",
        Ok(Step::Wait | Step::Die) => "in conflict",
        Err(TxnFault::OutOfMemory) => "short",
        Err(_) => "not open",
    }
}

/// Whether each of these commands is done or ends a script in at most two tries.
fn are_done(core: &mut Core, stamp: u64, commands: &[Command]) -> bool {
    commands.iter().all(|command| {
        let first = answer(core, stamp, command);
        let last = if first == "short" {
            answer(core, stamp, command)
        } else {
            first
        };
        last == "done" || last == "an end"
    })
}

/// The number of objects changed by a commit in at most two tries; None if it is refused.
fn commit(core: &mut Core, stamp: u64) -> Option<usize> {
    if !core.is_open(stamp) {
        return None;
    }
    match core.prepare(stamp).or(core.prepare(stamp)) {
        Ok(Prepared::Ready(change)) => {
            core.commit(stamp);
            Some(change.len())
        }
        _ => None,
    }
}

/// Whether the core leaves the city of this text, written in at most two tries.
fn leaves(core: Core, alloc: Global, wanted: &str) -> bool {
    match core.into_city() {
        Ok(city) => {
            let text = write_city(alloc, &city).or(write_city(alloc, &city));
            text.is_ok_and(|text| text.as_slice() == wanted.as_bytes())
        }
        Err(_) => false,
    }
}

/// Whether the commands are done and committed, and change so many objects.
fn are_committed(core: &mut Core, commands: &[Command], count: usize) -> bool {
    let begun = core.begin(5).is_ok() || core.begin(5).is_ok();
    begun && are_done(core, 5, commands) && commit(core, 5) == Some(count)
}

/// Whether the first command is done; or runs out of memory and leaves nothing for the second or for a commit.
fn is_done_or_absent(core: &mut Core, commands: &[Command]) -> bool {
    let [put, read, ..] = commands else {
        return false;
    };
    let begun = core.begin(5).is_ok() || core.begin(5).is_ok();
    let done = answer(core, 5, put);
    if done == "done" {
        return begun && core.abort(5).is_ok();
    }
    begun && done == "short" && answer(core, 5, read) == "absent" && commit(core, 5) == Some(0)
}

/// Whether a core over a city does commands, changes so many objects, and leaves the city of this text. If they change
/// none, the first may be done alone, or not at all.
fn is_left(alloc: Global, city: City, commands: &[Command], count: usize, wanted: &str) -> bool
    requires { IsLawful (object_at city.1) }
{
    let mut core = Core::open(alloc, city);
    let done = if count == 0 {
        is_done_or_absent(&mut core, commands)
    } else {
        are_committed(&mut core, commands, count)
    };
    let left = leaves(core, alloc, wanted);
    done && left
}

/// The same for a document and a text of one script; None if memory ran out for them.
pub fn is_done(
    alloc: Global,
    document: &str,
    script: &str,
    count: usize,
    wanted: &str,
) -> Option<bool> {
    let city = city_of(alloc, document)?;
    let scripts = scripts_of(alloc, script)?;
    let script = scripts.as_slice().first()?;
    Some(is_left(alloc, city, script.commands(), count, wanted))
}
