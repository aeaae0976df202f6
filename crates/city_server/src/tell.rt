//! Answers written, once what they tell is on the disk.
ghost use Rattle.std.specs.Prelude.{◌≡◌, ◌++◌, List, ℕ, OnOk, IfErr};
ghost use Rattle.std.specs.Io.KnownBytes.{Appends};
ghost use Rattle.city_journal.specs.Kept.{GoesBy, MayTell, Stays};
ghost use Rattle.city_server.specs.Order.{IsWriteFault};

use crate::fault::LiveFault;
use city_journal::{JournalFile, Journaling};
use city_serve::serve::write_output;
use city_serve::{Device, ServeFault};
use std::io::Write;

/// Brings what the journal has noted to the disk, and then writes answers. Nothing else in a session writes any.
///
/// If the journal can't be synced, nothing is written.
pub fn write_synced<D: JournalFile + Drop, W: Write>(
    journal: &mut Journaling<D>,
    answers: &[u8],
    output: &mut Device<W>,
) -> Result<(), LiveFault>
    ensures written { OnOk result (GoesBy (MayTell D.seen D.may_leave) journal.old.file journal.new.file
        × Appends (W.contents output.old.0) (W.contents output.new.0) answers.now) }
    ensures fault { IfErr result (IsWriteFault (GoesBy (MayTell D.seen D.may_leave) journal.old.file journal.new.file)
        (GoesBy (Stays D.seen D.may_leave) journal.old.file journal.new.file)
        answers.now (W.contents output.old.0) (W.contents output.new.0) output.new.1) }
    ensures noted { journal.new.noted ≡ journal.old.noted }
{
    if journal.sync().is_err() {
        return Err(LiveFault::JournalFile(ServeFault::Write));
    }
    if answers.is_empty() || write_output(output, answers) {
        return Ok(());
    }
    Err(LiveFault::Serve(ServeFault::Write))
}
