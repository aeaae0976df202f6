//! Commits noted in a journal.
ghost use Rattle.std.specs.Prelude.{◌≡◌, OnOk, OnErr};
ghost use Rattle.city_live.specs.Replaying.{NotesCommit, NotesWork, NotesCommands};
ghost use Rattle.city_live.specs.Works.{work_at, commands_noted};

use crate::journal::{Entry, Journal, Unwritten};
use crate::table::Table;
use crate::work::Work;

/// Notes the commit of the stamp's work in a journal, if it wrote: then the version after it is another.
pub fn note_commit<J: Journal>(
    journal: &mut J,
    table: &Table,
    stamp: u64,
    before: u64,
    version: u64,
) -> Result<(), Unwritten>
    ensures ok { OnOk result (NotesCommit before version (work_at table.now stamp) (J.noted journal.old)
        (J.noted journal.new)) }
    ensures err { OnErr result (J.noted journal.new ≡ J.noted journal.old) }
{
    if version == before {
        return Ok(());
    }
    note_at(journal, table, stamp, version)
}

/// Notes the work of the stamp in a journal that is kept, at the version after its commit.
fn note_at<J: Journal>(
    journal: &mut J,
    table: &Table,
    stamp: u64,
    version: u64,
) -> Result<(), Unwritten>
    ensures ok { OnOk result (NotesWork (work_at table.now stamp) (J.noted journal.old) (J.noted journal.new)) }
    ensures err { OnErr result (J.noted journal.new ≡ J.noted journal.old) }
{
    if !journal.is_kept() {
        return Ok(());
    }
    match table.get(stamp) {
        Some(work) => note(journal, work, version),
        None => Ok(()),
    }
}

/// Notes a work in a journal, at the version after its commit.
fn note<J: Journal>(journal: &mut J, work: &Work, version: u64) -> Result<(), Unwritten>
    ensures ok { OnOk result (NotesCommands (commands_noted work.now) (J.noted journal.old) (J.noted journal.new)) }
    ensures err { OnErr result (J.noted journal.new ≡ J.noted journal.old) }
{
    let Some(commands) = work.commands() else {
        return Err(Unwritten::CannotWrite);
    };
    let entry = Entry {
        by: &**work.hand(),
        name: work.name(),
        version,
        commands,
    };
    journal.append(&entry)
}
