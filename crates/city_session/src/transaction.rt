//! An open transaction.
ghost use Rattle.std.specs.Prelude.{◌≡◌, ◌<◌, [], length, false, true, not};
ghost use Rattle.city_model.specs.Meaning.{is_refusal};
ghost use Rattle.city_model.specs.Scripts.{is_end};
ghost use Rattle.city_txn.specs.CoreState.{is_open};
ghost use Rattle.city_session.specs.Acting.{told_after};
ghost use Rattle.city_session.specs.Grown.{unrefused, max_commands, is_full, with_reply, writes_after, writes_of};
ghost use Rattle.city_session.specs.internal.Answering.{IsAnsweredIn};

use crate::MAX_COMMANDS;
use crate::acted::Acted;
use crate::ghosts::told::Told;
use crate::writes::Writes;
use city_model::command::{Command, Reply};
use city_txn::{Core, Step};
use std::marker::Model;

/// An open transaction of a session.
///
/// Contracts see how many had ended when it began, and what it was told.
#[derive(Drop)]
pub struct Transaction {
    since: u64,
    /// How many of its commands were not refused.
    commands: usize,
    writes: Writes,
    told: Told,
}

impl Model for Transaction {
    ghost use Rattle.city_session.specs.Grown.{Grown};

    ghost Value = { Grown };

    ghost use Rattle.std.specs.Coded.{codes};
    ghost use Rattle.city_members.specs.internal.DataCode.{coded_members};
    ghost use Rattle.city_txn.specs.internal.Codes.{coded_objects};

    ghost coded = { Prim.hlevel (codes, coded_members, coded_objects) };

    ghost view = { λ t. record { since = t.since; told = t.told } };

    ghost use Rattle.std.specs.Prelude.{◌≡◌, ◌<◌, length};
    ghost use Rattle.city_session.specs.Grown.{unrefused, max_commands, writes_of};

    ghost invariant = { λ t. (t.commands ≡ length (unrefused t.told)) × (t.commands < max_commands)
        × (t.writes ≡ writes_of t.told) };
}

/// Whether a command with this reply is part of its transaction's script.
fn is_done(reply: &Reply) -> bool
    ensures { result ≡ not (is_refusal reply.now) }
{
    !matches!(reply, Reply::Refused(_))
}

/// Whether it has written behind this reply.
fn writes_after(before: Writes, reply: &Reply) -> Writes
    ensures { result ≡ writes_after before reply.now }
{
    match reply {
        Reply::Found(_)
        | Reply::Absent
        | Reply::Expected
        | Reply::Marked
        | Reply::Committed
        | Reply::Aborted
        | Reply::Refused(_) => before,
        Reply::WentBack => match before {
            Writes::Nothing => Writes::Nothing,
            Writes::Something | Writes::Unsure => Writes::Unsure,
        },
        Reply::Added
        | Reply::Replaced
        | Reply::Deleted
        | Reply::Attached
        | Reply::Detached
        | Reply::AttributesSet
        | Reply::AttributesUnset
        | Reply::Reshaped => Writes::Something,
    }
}

impl Transaction {
    /// One that was told nothing yet. Doesn't allocate.
    pub fn begun(since: u64) -> Transaction
        ensures { result ≡ record { since = since; told = [] } }
    {
        Transaction {
            since,
            commands: 0,
            writes: Writes::Nothing,
            told: Told::nothing(),
        }
    }

    /// How many had ended when it began. Doesn't allocate.
    pub fn since(&self) -> u64
        ensures since { result ≡ self.now.since }
        ensures within { length (unrefused self.now.told) < max_commands }
    {
        self.since
    }

    /// How many of its commands were not refused. Doesn't allocate.
    pub fn commands(&self) -> usize
        ensures { result ≡ length (unrefused self.now.told) }
    {
        self.commands
    }

    /// Whether it has written, by its replies. Doesn't allocate.
    pub fn writes(&self) -> Writes
        ensures { result ≡ writes_of self.now.told }
    {
        self.writes
    }

    /// Whether only a commit or an abort has room left: a refused command takes none. Doesn't allocate.
    pub fn is_full(&self) -> bool
        ensures { result ≡ is_full self.now }
    {
        self.commands + 1 == MAX_COMMANDS
    }

    /// Does a command in the core, under the locks of its stamp, and adds the reply.
    pub fn act(&mut self, core: &mut Core, stamp: u64, command: &Command) -> Acted
        requires opened { is_open core.old stamp ≡ true }
        requires goes_on { is_end command.now ≡ false }
        ensures answered { IsAnsweredIn stamp command.now (is_full self.old) result core.old core.new }
        ensures told { self.new ≡ told_after command.now result self.old }
    {
        if self.is_full() {
            return Acted::TooMany;
        }
        match core.act(stamp, command) {
            Ok(Step::Done(reply)) => {
                self.hear(command, &reply);
                Acted::Replied(reply)
            }
            Ok(Step::Wait) => Acted::Waits,
            Ok(Step::Die) => Acted::Dies,
            Err(_) => Acted::NoMemory,
        }
    }

    /// Adds a reply. Doesn't allocate.
    fn hear(&mut self, command: &Command, reply: &Reply)
        requires { is_full self.old ≡ false }
        ensures { self.new ≡ with_reply command.now reply.now self.old }
    {
        if is_done(reply) {
            self.commands += 1;
        }
        self.writes = writes_after(self.writes, reply);
        self.told = self.told.with(command, reply);
    }
}
