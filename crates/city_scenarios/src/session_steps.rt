//! The verb `session`: transactions that stay open, driven by hand.
ghost use Rattle.std.specs.Prelude.{◌≡◌, ◌<◌, true, false, IfSome};
ghost use Rattle.city_model.specs.CityMap.{object_at};
ghost use Rattle.city_model.specs.Relations.{IsLawful};
ghost use Rattle.city_model.specs.Scripts.{is_end};
ghost use Rattle.city_txn.specs.CoreState.{is_open};

use crate::change::add_change;
use crate::document::{add_city, add_read_fault};
use crate::reply::{add_cause, add_object, add_reply, looked_at};
use crate::steps::{TakesSteps, stamped, take_steps};
use crate::written::Written;
use city_doc::read_city;
use city_model::OutOfMemory;
use city_model::city::City;
use city_model::command::{Cause, Command};
use city_model::script::{Script, is_end};
use city_scripts::read_scripts;
use city_session::{Acted, Session};
use city_txn::Prepared;
use std::alloc::Global;

/// Takes the steps with a session over a document, and answers each; the final model follows.
pub fn play_session(alloc: Global, document: &[u8], lines: &str, answer: &mut Written) {
    match read_city(alloc, document) {
        Ok(city) => play_over(alloc, city, lines, answer),
        Err(fault) => add_read_fault(alloc, fault, answer),
    }
}

fn play_over(alloc: Global, city: City, lines: &str, answer: &mut Written)
    requires { IsLawful (object_at city.1) }
{
    let mut session = Session::open(alloc, city);
    take_steps(&mut session, alloc, lines, answer);
    match session.into_city() {
        Ok(city) => add_city(alloc, &city, answer),
        Err(_) => answer.add_line("a transaction is open"),
    }
}

/// A step is `begin`, or a stamp, and a word, `seen` with an id, or a command; `3 times` before the command does it
/// three times.
impl TakesSteps for Session {
    fn take_step(&mut self, alloc: Global, step: &str, said: &mut Written) {
        let Some((stamp, does)) = stamped(step) else {
            return begin(self, None, said);
        };
        if does == "begin" {
            begin_again(self, stamp, said);
        } else if let Some(id) = looked_at(alloc, does, said) {
            add_object(alloc, self.seen(stamp, &id), said);
        } else if self.is_open(stamp) {
            call(self, alloc, stamp, does, said);
        } else {
            said.add("not open");
        }
    }
}

fn begin(session: &mut Session, kept: Option<u64>, said: &mut Written)
    requires { IfSome kept (λ t. (t < session.old.stamps) × (is_open session.old.core t ≡ false)) }
{
    match session.begin(kept) {
        Ok(stamp) => add_begun(session, stamp, said),
        Err(OutOfMemory) => said.run_out(),
    }
}

/// Begins under a stamp that was given before.
fn begin_again(session: &mut Session, stamp: u64, said: &mut Written) {
    if session.may_begin_as(stamp) {
        begin(session, Some(stamp), said);
    } else {
        said.add("not kept");
    }
}

/// Adds the stamp of a transaction, and how many had ended when it began.
fn add_begun(session: &Session, stamp: u64, said: &mut Written) {
    said.show(&stamp);
    if let Some(transaction) = session.transaction(stamp) {
        said.add(" since ");
        said.show(&transaction.since());
    }
}

fn call(session: &mut Session, alloc: Global, stamp: u64, does: &str, said: &mut Written)
    requires { is_open session.old.core stamp ≡ true }
{
    match does {
        "abort" => {
            session.abort(stamp);
            said.add("aborted");
        }
        "forget" => {
            session.forget(stamp);
            said.add("forgotten");
        }
        "prepare" => add_prepared(alloc, session.prepare(stamp), said),
        "refusal" => add_refusal(alloc, session.refusal(stamp), said),
        "commit" => commit(session, alloc, stamp, said),
        _ => act_by(session, alloc, stamp, does, said),
    }
}

/// Adds whether a transaction may commit: its change, or the cause of its refusal.
fn add_prepared(alloc: Global, prepared: Result<Prepared, OutOfMemory>, said: &mut Written) {
    match prepared {
        Ok(Prepared::Ready(change)) => add_change("ready", &change, said),
        Ok(Prepared::Refused(cause)) => add_cause(alloc, cause, said),
        Err(OutOfMemory) => said.run_out(),
    }
}

fn add_refusal(alloc: Global, refusal: Result<Option<Cause>, OutOfMemory>, said: &mut Written) {
    match refusal {
        Ok(None) => said.add("none"),
        Ok(Some(cause)) => add_cause(alloc, cause, said),
        Err(OutOfMemory) => said.run_out(),
    }
}

/// Adds the change of a commit, or the cause of its refusal.
fn commit(session: &mut Session, alloc: Global, stamp: u64, said: &mut Written)
    requires { is_open session.old.core stamp ≡ true }
{
    match session.prepare(stamp) {
        Ok(Prepared::Ready(change)) => {
            session.commit(stamp);
            add_change("committed", &change, said);
        }
        other => add_prepared(alloc, other, said),
    }
}

/// Adds the answer to a command, read from its text as the command of a script.
fn act_by(session: &mut Session, alloc: Global, stamp: u64, does: &str, said: &mut Written) {
    let (times, command) = does.split_once(" times ").unwrap_or(("1", does));
    let Ok(times) = times.parse::<u64>() else {
        return said.add("no count");
    };
    let Ok(text) = format!(in alloc; "[{{\"name\":\"s\",\"commands\":[{command},\"commit\"]}}]")
    else {
        return said.run_out();
    };
    match read_scripts(alloc, text.as_bytes()) {
        Ok(scripts) => act_first(session, alloc, stamp, times, scripts.as_slice(), said),
        Err(_) => said.add("no command"),
    }
}

/// Does the first command of a script, so many times, and adds the last answer.
fn act_first(
    session: &mut Session,
    alloc: Global,
    stamp: u64,
    times: u64,
    scripts: &[Script],
    said: &mut Written,
) {
    if let Some(script) = scripts.first() {
        if let Some(command) = script.commands().first() {
            if !is_end(command) {
                return act_each(session, alloc, stamp, times, command, said);
            }
        }
    }
    said.add("no command");
}

/// Does a command so many times, and adds the last answer.
fn act_each(
    session: &mut Session,
    alloc: Global,
    stamp: u64,
    times: u64,
    command: &Command,
    said: &mut Written,
)
    requires { is_end command.now ≡ false }
{
    for _ in 1..times {
        if session.is_open(stamp) {
            let _ = session.act(stamp, command);
        }
    }
    if session.is_open(stamp) {
        act(session, alloc, stamp, command, said);
    }
}

/// Adds the answer to a command, behind a word if `would_wait` foretold another.
fn act(session: &mut Session, alloc: Global, stamp: u64, command: &Command, said: &mut Written)
    requires opened { is_open session.old.core stamp ≡ true }
    requires goes_on { is_end command.now ≡ false }
{
    let foretold = session.would_wait(stamp, command);
    let acted = session.act(stamp, command);
    if foretold != matches!(acted, Acted::Waits) {
        said.add("foretold otherwise: ");
    }
    match acted {
        Acted::Replied(reply) => add_reply(alloc, reply, said),
        Acted::Waits => said.add("waits"),
        Acted::Dies => said.add("dies"),
        Acted::TooMany => said.add("too many"),
        Acted::NoMemory => said.run_out(),
    }
}
