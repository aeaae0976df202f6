//! The next command of an open transaction.
ghost use Rattle.std.specs.Prelude.{◌≡◌, ◌+◌, ◌<◌, ◌^◌, List, length, true, false, IfSome, IfOk, IfErr};
ghost use Rattle.city_model.specs.declared.command.Command.{Command};
ghost use Rattle.city_model.specs.declared.command.Reply.{Reply};
ghost use Rattle.city_model.specs.CityMap.{object_at};
ghost use Rattle.city_model.specs.Meaning.{is_refusal};
ghost use Rattle.city_model.specs.Runs.{Change, after_changes};
ghost use Rattle.city_model.specs.Scripts.{is_end};
ghost use Rattle.city_txn.specs.CoreState.{committed, is_open};
ghost use Rattle.city_scheduler.specs.internal.Attempt.{AttemptEnded, HasStepped};

use crate::progress::Progress;
use crate::shelf::Shelf;
use crate::turn::Turn;
use city_model::command::{Cause, Command, Reply};
use city_model::end::Outcome;
use city_txn::{Core, Step};

/// The outcome of one command of an attempt.
#[derive(Drop)]
pub enum CommandOutcome {
    /// The script goes on after this turn.
    GoesOn(Turn),
    /// The script ends with this outcome.
    Ends(Outcome),
}

/// The reply, or the cause if it is a refusal.
fn unless_refused(reply: Reply) -> Result<Reply, Cause>
    ensures ok { IfOk result (λ same. (same ≡ reply) × (is_refusal reply ≡ false)) }
    ensures err { IfErr result (λ cause. reply ≡ Reply.Refused cause) }
{
    match reply {
        Reply::Refused(cause) => Err(cause),
        reply => Ok(reply),
    }
}

/// Runs a command other than a commit or an abort.
fn run_command(
    core: &mut Core,
    progress: &mut Progress,
    stamp: u64,
    command: &Command,
) -> CommandOutcome
    requires place { length progress.old.replies.list < progress.old.replies.room }
    requires opened { is_open core.old stamp ≡ true }
    requires goes_on { is_end command.now ≡ false }
    ensures { (changes : List Change)
        → HasStepped stamp command.now result progress.old progress.new core.old core.new changes changes }
{
    let number = progress.replies.len();
    match core.act(stamp, command) {
        Ok(Step::Done(reply)) => match unless_refused(reply) {
            Ok(reply) => {
                progress.replies.add(reply);
                CommandOutcome::GoesOn(Turn::Replied)
            }
            Err(cause) => {
                core.roll_back(stamp);
                CommandOutcome::Ends(Outcome::Refused(number, cause))
            }
        },
        Ok(Step::Wait) => CommandOutcome::GoesOn(Turn::Waits),
        Ok(Step::Die) => {
            core.roll_back(stamp);
            progress.die(stamp);
            CommandOutcome::GoesOn(Turn::Died)
        }
        Err(_) => {
            core.roll_back(stamp);
            CommandOutcome::Ends(Outcome::NoMemory(number))
        }
    }
}

/// Commits the transaction and puts its change on the shelf, or rolls it back. `number` is the
/// command's number in its script.
fn commit<S: Shelf>(core: &mut Core, shelf: &mut S, stamp: u64, number: usize) -> Outcome
    requires opened { is_open core.old stamp ≡ true }
    requires room { length (S.list shelf.old) + 1 < 2 ^ 64 }
    requires shows { IfSome (S.base shelf.old)
        (λ city. after_changes (object_at city.1) (S.list shelf.old) ≡ committed core.old) }
    ensures ended { AttemptEnded stamp Command.Commit number result core.old core.new (S.list shelf.old)
        (S.list shelf.new) }
    ensures base { S.base shelf.new ≡ S.base shelf.old }
    ensures name { S.name shelf.new ≡ S.name shelf.old }
    ensures published { S.published shelf.new ≡ S.published shelf.old }
{
    match core.refusal(stamp) {
        Ok(None) => {
            let Ok(()) = shelf.take_from(core, stamp) else {
                core.roll_back(stamp);
                return Outcome::NoMemory(number);
            };
            core.commit(stamp);
            Outcome::Committed
        }
        Ok(Some(cause)) => {
            core.roll_back(stamp);
            Outcome::Refused(number, cause)
        }
        Err(_) => {
            core.roll_back(stamp);
            Outcome::NoMemory(number)
        }
    }
}

/// Runs the next command of an attempt, under its locks.
///
/// A commit puts its change on the shelf. If the script ends or the attempt dies, its transaction
/// is over and leaves nothing uncommitted. A death drops the replies.
pub fn step<S: Shelf>(
    core: &mut Core,
    shelf: &mut S,
    progress: &mut Progress,
    stamp: u64,
    command: &Command,
) -> CommandOutcome
    requires place { length progress.old.replies.list < progress.old.replies.room }
    requires opened { is_open core.old stamp ≡ true }
    requires room { length (S.list shelf.old) + 1 < 2 ^ 64 }
    requires shows { IfSome (S.base shelf.old)
        (λ city. after_changes (object_at city.1) (S.list shelf.old) ≡ committed core.old) }
    ensures stepped { HasStepped stamp command.now result progress.old progress.new core.old core.new
        (S.list shelf.old) (S.list shelf.new) }
    ensures base { S.base shelf.new ≡ S.base shelf.old }
    ensures name { S.name shelf.new ≡ S.name shelf.old }
    ensures published { S.published shelf.new ≡ S.published shelf.old }
{
    match command {
        Command::Commit => CommandOutcome::Ends(commit(core, shelf, stamp, progress.replies.len())),
        Command::Abort => {
            core.roll_back(stamp);
            CommandOutcome::Ends(Outcome::Aborted)
        }
        _ => run_command(core, progress, stamp, command),
    }
}
