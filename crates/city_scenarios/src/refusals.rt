//! The verb `why`: what is told of refused scripts.
ghost use Rattle.std.specs.Prelude.{◌≡◌, false};
ghost use Rattle.city_model.specs.CityMap.{object_at};
ghost use Rattle.city_model.specs.Relations.{IsLawful};
ghost use Rattle.city_model.specs.Scripts.{is_end};

use crate::fault_lines::add_run_fault;
use crate::written::Written;
use city_desk::read_texts;
use city_diagnostics::{Past, Refusal, RefusedAt, Sight, explain_refusal, why};
use city_members::text::Id;
use city_model::OutOfMemory;
use city_model::city::City;
use city_model::command::{Cause, Command, Reply};
use city_model::object::Object;
use city_model::script::{Script, is_end};
use city_txn::{Core, Prepared, Step};
use std::alloc::Global;

/// Runs the scripts one after another. Answers with what is told of each that is refused, to a person and as a JSON
/// text, and with the number of each other.
pub fn play_why(alloc: Global, document: &[u8], scripts: &[u8], answer: &mut Written) {
    match read_texts(alloc, document, scripts) {
        Ok((city, scripts)) => play_over(alloc, city, scripts.as_slice(), answer),
        Err(fault) => add_run_fault(alloc, fault, answer),
    }
}

fn play_over(alloc: Global, city: City, scripts: &[Script], answer: &mut Written)
    requires { IsLawful (object_at city.1) }
{
    let mut core = Core::open(alloc, city);
    for (number, script) in scripts.iter().enumerate() {
        if play_script(alloc, &mut core, number, script, answer).is_err() {
            answer.run_out();
        }
    }
}

/// Runs a script to its end, or as far as it is refused.
fn play_script(
    alloc: Global,
    core: &mut Core,
    number: usize,
    script: &Script,
    answer: &mut Written,
) -> Result<(), OutOfMemory> {
    let stamp = number as u64;
    let Ok(()) = core.begin(stamp) else {
        return Err(OutOfMemory);
    };
    let mut past = Past::new(alloc);
    for (place, command) in script.commands().iter().enumerate() {
        if let Some(cause) = step(core, stamp, command)? {
            let at = RefusedAt {
                script: number,
                name: script.name().as_str(),
                command: place,
            };
            tell(alloc, core, stamp, at, command, &cause, &past, answer)?;
            break;
        }
        past.add(command)?;
    }
    if core.abort(stamp).is_err() {
        answer.add("script ");
        answer.show(&number);
        answer.add(" ended\n");
    }
    Ok(())
}

/// Does a command, and gives the cause if it is refused.
fn step(core: &mut Core, stamp: u64, command: &Command) -> Result<Option<Cause>, OutOfMemory> {
    if is_end(command) {
        return end(core, stamp, matches!(command, Command::Commit));
    }
    match core.act(stamp, command) {
        Ok(Step::Done(Reply::Refused(cause))) => Ok(Some(cause)),
        Ok(_) => Ok(None),
        Err(_) => Err(OutOfMemory),
    }
}

/// Ends a transaction, and gives the cause if its commit is refused.
fn end(core: &mut Core, stamp: u64, commits: bool) -> Result<Option<Cause>, OutOfMemory> {
    if !core.is_open(stamp) {
        return Ok(None);
    }
    if !commits {
        core.roll_back(stamp);
        return Ok(None);
    }
    match core.prepare(stamp) {
        Ok(Prepared::Ready(_)) => {
            core.commit(stamp);
            Ok(None)
        }
        Ok(Prepared::Refused(cause)) => Ok(Some(cause)),
        Err(_) => Err(OutOfMemory),
    }
}

/// The objects as a transaction sees them.
#[derive(Clone, Copy)]
struct View<'c> {
    core: &'c Core,
    stamp: u64,
}

impl Sight for View<'_> {
    fn object(&self, id: &Id) -> Option<&Object> {
        self.core.seen(self.stamp, id)
    }
}

/// Adds what is told of a refused command, behind these ones.
fn tell(
    alloc: Global,
    core: &Core,
    stamp: u64,
    at: RefusedAt<'_>,
    command: &Command,
    cause: &Cause,
    past: &Past<'_>,
    answer: &mut Written,
) -> Result<(), OutOfMemory> {
    let view = View { core, stamp };
    let refusal = Refusal {
        command,
        cause,
        past: Some(past),
    };
    let lines = explain_refusal(alloc, at, refusal, &view)?;
    answer.add(lines.as_str());
    let text = why(alloc, refusal, &view)?;
    answer.add_line(text.as_str());
    Ok(())
}
