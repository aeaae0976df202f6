//! The verb `core`: transactions driven by hand.
ghost use Rattle.std.specs.Prelude.{◌≡◌, false};
ghost use Rattle.city_model.specs.CityMap.{object_at};
ghost use Rattle.city_model.specs.Relations.{IsLawful};
ghost use Rattle.city_model.specs.Scripts.{is_end};

use crate::change::add_change;
use crate::document::{add_city, add_read_fault};
use crate::reply::{add_cause, add_object, add_reply, looked_at};
use crate::steps::{TakesSteps, stamped, take_steps};
use crate::written::Written;
use city_doc::read_city;
use city_model::city::City;
use city_model::command::{Cause, Command};
use city_model::script::{Script, is_end};
use city_scripts::read_scripts;
use city_txn::{Core, Prepared, Step, TxnFault};
use std::alloc::Global;

/// Takes the steps with a core over a document, and answers each; the final model follows.
pub fn play_core(alloc: Global, document: &[u8], lines: &str, answer: &mut Written) {
    match read_city(alloc, document) {
        Ok(city) => play_over(alloc, city, lines, answer),
        Err(fault) => add_read_fault(alloc, fault, answer),
    }
}

fn play_over(alloc: Global, city: City, lines: &str, answer: &mut Written)
    requires { IsLawful (object_at city.1) }
{
    let mut core = Core::open(alloc, city);
    take_steps(&mut core, alloc, lines, answer);
    match core.into_city() {
        Ok(city) => add_city(alloc, &city, answer),
        Err(_) => answer.add_line("a transaction is open"),
    }
}

/// A step is a stamp, and a word, `seen` with an id, or a command.
impl TakesSteps for Core {
    fn take_step(&mut self, alloc: Global, step: &str, said: &mut Written) {
        match stamped(step) {
            Some((stamp, does)) => call(self, alloc, stamp, does, said),
            None => said.add("no stamp"),
        }
    }
}

fn call(core: &mut Core, alloc: Global, stamp: u64, does: &str, said: &mut Written) {
    match does {
        "begin" => add_done(core.begin(stamp), said),
        "abort" => add_done(core.abort(stamp), said),
        "open" => said.show(&core.is_open(stamp)),
        "prepare" => add_prepared(alloc, core.prepare(stamp), said),
        "refusal" => add_refusal(alloc, core.refusal(stamp), said),
        "commit" => commit(core, alloc, stamp, said),
        _ => match looked_at(alloc, does, said) {
            Some(id) => add_object(alloc, core.seen(stamp, &id), said),
            None => act_by(core, alloc, stamp, does, said),
        },
    }
}

fn add_fault(fault: TxnFault, said: &mut Written) {
    match fault {
        TxnFault::OutOfMemory => said.run_out(),
        fault => said.show(&fault),
    }
}

fn add_done(done: Result<(), TxnFault>, said: &mut Written) {
    match done {
        Ok(()) => said.add("done"),
        Err(fault) => add_fault(fault, said),
    }
}

/// Adds whether a transaction may commit: its change, or the cause of its refusal.
fn add_prepared(alloc: Global, prepared: Result<Prepared, TxnFault>, said: &mut Written) {
    match prepared {
        Ok(Prepared::Ready(change)) => add_change("ready", &change, said),
        Ok(Prepared::Refused(cause)) => add_cause(alloc, cause, said),
        Err(fault) => add_fault(fault, said),
    }
}

fn add_refusal(alloc: Global, refusal: Result<Option<Cause>, TxnFault>, said: &mut Written) {
    match refusal {
        Ok(None) => said.add("none"),
        Ok(Some(cause)) => add_cause(alloc, cause, said),
        Err(fault) => add_fault(fault, said),
    }
}

/// Adds the change of a commit, or the cause of its refusal.
fn commit(core: &mut Core, alloc: Global, stamp: u64, said: &mut Written) {
    if !core.is_open(stamp) {
        return add_fault(TxnFault::NotOpen(stamp), said);
    }
    match core.prepare(stamp) {
        Ok(Prepared::Ready(change)) => {
            core.commit(stamp);
            add_change("committed", &change, said);
        }
        other => add_prepared(alloc, other, said),
    }
}

/// Adds the answer to a command, read from its text as the command of a script.
fn act_by(core: &mut Core, alloc: Global, stamp: u64, command: &str, said: &mut Written) {
    let Ok(text) = format!(in alloc; "[{{\"name\":\"s\",\"commands\":[{command},\"commit\"]}}]")
    else {
        return said.run_out();
    };
    match read_scripts(alloc, text.as_bytes()) {
        Ok(scripts) => act_first(core, alloc, stamp, scripts.as_slice(), said),
        Err(_) => said.add("no command"),
    }
}

/// Adds the answer to the first command of a script.
fn act_first(core: &mut Core, alloc: Global, stamp: u64, scripts: &[Script], said: &mut Written) {
    if let Some(script) = scripts.first() {
        if let Some(command) = script.commands().first() {
            if !is_end(command) {
                return act(core, alloc, stamp, command, said);
            }
        }
    }
    said.add("no command");
}

/// Adds the answer to a command, behind a word if `would_wait` foretold another.
fn act(core: &mut Core, alloc: Global, stamp: u64, command: &Command, said: &mut Written)
    requires { is_end command.now ≡ false }
{
    let foretold = core.would_wait(stamp, command);
    match core.act(stamp, command) {
        Ok(step) => add_step(alloc, foretold, step, said),
        Err(fault) => add_fault(fault, said),
    }
}

fn add_step(alloc: Global, foretold: bool, step: Step, said: &mut Written) {
    if foretold != matches!(step, Step::Wait) {
        said.add("foretold otherwise: ");
    }
    match step {
        Step::Done(reply) => add_reply(alloc, reply, said),
        Step::Wait => said.add("wait"),
        Step::Die => said.add("die"),
    }
}
