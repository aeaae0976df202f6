//! Explains the scripts that a run refused.
use crate::explain::explain_refusal;
use city_details::{Past, Refusal, RefusedAt, Sight};
use city_members::text::Id;
use city_model::OutOfMemory;
use city_model::command::{Cause, Command};
use city_model::end::{End, Outcome};
use city_model::object::Object;
use city_model::script::{Script, is_end};
use city_session::{Acted, Session};
use std::alloc::Global;

/// Explains each script that ended refused, in the order of the ends: a line with its number and the cause, and its
/// place, the problem and the cure in indented lines.
///
/// `before` is a session on the city before the run, whose scripts and ends these are. The committed scripts run again
/// there one after another, so each refused command sees what it saw. An end that doesn't fit its script isn't
/// explained. The commands of the scripts are counted from 0, as in a report.
pub fn explain_ends(
    alloc: Global,
    before: Session,
    scripts: &[Script],
    ends: &[End],
) -> Result<String, OutOfMemory> {
    let mut lines = String::new(alloc);
    let mut session = before;
    for end in ends.iter().take(count_to_refused(ends)) {
        let Some(script) = scripts.get(end.script) else {
            continue;
        };
        match &end.outcome {
            Outcome::Committed => commit(&mut session, script)?,
            Outcome::Refused(at, cause) => {
                let told = explain_end(alloc, &mut session, end, script, *at, cause)?;
                lines.push_str(told.as_str())?;
            }
            Outcome::Aborted | Outcome::NoMemory(_) => {}
        }
    }
    Ok(lines)
}

/// How many ends there are up to the last refused one.
fn count_to_refused(ends: &[End]) -> usize {
    match ends.iter().rposition(is_refused) {
        Some(last) => last.saturating_add(1),
        None => 0,
    }
}

/// Whether a script ended refused.
pub fn is_refused(end: &End) -> bool {
    matches!(end.outcome, Outcome::Refused(..))
}

/// Runs a script that committed.
fn commit(session: &mut Session, script: &Script) -> Result<(), OutOfMemory> {
    let stamp = session.begin(None)?;
    for command in script.commands() {
        do_again(session, stamp, command)?;
    }
    if session.is_open(stamp) {
        match session.refusal(stamp)? {
            None => session.commit(stamp),
            Some(_) => session.abort(stamp),
        }
    }
    Ok(())
}

/// Explains a refused script, whose commands before the refused one run again and are undone.
fn explain_end(
    alloc: Global,
    session: &mut Session,
    end: &End,
    script: &Script,
    refused: usize,
    cause: &Cause,
) -> Result<String, OutOfMemory> {
    let stamp = session.begin(None)?;
    let mut past = Past::new(alloc);
    let mut told = String::new(alloc);
    for (place, command) in script.commands().iter().enumerate() {
        if place == refused {
            let at = RefusedAt {
                script: end.script,
                name: end.name.as_str(),
                command: place,
            };
            told = explain_command(alloc, session, stamp, at, command, cause, &past)?;
            break;
        }
        do_again(session, stamp, command)?;
        past.add(command)?;
    }
    if session.is_open(stamp) {
        session.abort(stamp);
    }
    Ok(told)
}

/// Explains a command that an open transaction is refused, behind these ones.
fn explain_command(
    alloc: Global,
    session: &Session,
    stamp: u64,
    at: RefusedAt<'_>,
    command: &Command,
    cause: &Cause,
    past: &Past<'_>,
) -> Result<String, OutOfMemory> {
    let sees = Sees { session, stamp };
    let refusal = Refusal {
        command,
        cause,
        past: Some(past),
    };
    explain_refusal(alloc, at, refusal, &sees)
}

/// Does a command of an open transaction again, unless it ends one. Alone on its city it neither waits nor dies.
fn do_again(session: &mut Session, stamp: u64, command: &Command) -> Result<(), OutOfMemory> {
    if is_end(command) || !session.is_open(stamp) {
        return Ok(());
    }
    match session.act(stamp, command) {
        Acted::NoMemory => Err(OutOfMemory),
        Acted::Replied(_) | Acted::Waits | Acted::Dies | Acted::TooMany => Ok(()),
    }
}

/// The objects as a transaction sees them.
#[derive(Clone, Copy)]
struct Sees<'s> {
    session: &'s Session,
    stamp: u64,
}

impl Sight for Sees<'_> {
    fn object(&self, id: &Id) -> Option<&Object> {
        self.session.seen(self.stamp, id)
    }
}
