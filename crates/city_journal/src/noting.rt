//! Lines noted in a file, if there is one.
ghost use Rattle.std.specs.Prelude.{◌≡◌, ◌==◌, IfSome, OnOk, OnErr};
ghost use Rattle.std.specs.List.{list_any};
ghost use Rattle.city_journal.specs.Files.{IsKept};
ghost use Rattle.city_journal.specs.Kept.{Gains, GoesBy, MayTell, Stays};
ghost use Rattle.city_journal.specs.Lines.{IsLine};

use crate::file::JournalFile;
use city_live::Unwritten;

/// Whether there is a newline among the bytes.
fn has_newline(bytes: &[u8]) -> bool
    ensures { result ≡ list_any (λ c. c == 10) bytes.now }
{
    bytes.contains(&b'\n')
}

/// Appends a line, and a newline behind it.
pub(crate) fn append_line<F: JournalFile>(file: &mut F, line: Vec<u8>) -> Result<(), Unwritten>
    ensures ok { OnOk result (Gains (λ l. l ≡ line.items) F.seen F.may_leave file.old file.new) }
    ensures err { OnErr result (Stays F.seen F.may_leave file.old file.new) }
{
    if has_newline(line.as_slice()) {
        return Err(Unwritten::CannotWrite);
    }
    let mut bytes = line;
    if bytes.push(b'\n').is_err() {
        return Err(Unwritten::OutOfMemory);
    }
    match file.append(bytes.as_slice()) {
        Ok(()) => Ok(()),
        Err(_) => Err(Unwritten::CannotWrite),
    }
}

/// Appends a line to the file, if there is one.
pub(crate) fn note<F: JournalFile>(file: &mut Option<F>, line: Vec<u8>) -> Result<(), Unwritten>
    ensures ok { OnOk result (GoesBy (Gains (λ l. l ≡ line.items) F.seen F.may_leave) file.old file.new) }
    ensures err { OnErr result (GoesBy (Stays F.seen F.may_leave) file.old file.new) }
{
    match file {
        Some(file) => append_line(file, line),
        None => Ok(()),
    }
}

/// Brings the lines of a file to the disk, if there is one.
pub(crate) fn sync<F: JournalFile>(file: &mut Option<F>) -> Result<(), Unwritten>
    ensures ok { OnOk result (GoesBy (MayTell F.seen F.may_leave) file.old file.new) }
    ensures kept { OnOk result (IfSome file.new (λ f. IsKept (F.seen f) (F.may_leave f))) }
    ensures err { OnErr result (GoesBy (Stays F.seen F.may_leave) file.old file.new) }
{
    match file {
        Some(file) => sync_file(file),
        None => Ok(()),
    }
}

/// Brings the lines of a file to the disk.
fn sync_file<F: JournalFile>(file: &mut F) -> Result<(), Unwritten>
    ensures ok { OnOk result (MayTell F.seen F.may_leave file.old file.new) }
    ensures kept { OnOk result (IsKept (F.seen file.new) (F.may_leave file.new)) }
    ensures err { OnErr result (Stays F.seen F.may_leave file.old file.new) }
{
    match file.sync() {
        Ok(()) => Ok(()),
        Err(_) => Err(Unwritten::CannotWrite),
    }
}
