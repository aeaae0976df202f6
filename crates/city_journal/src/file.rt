//! A file that grows.
ghost use Rattle.std.specs.Prelude.{◌≡◌, ℕ, List, Option, Some, IfSome, IsSome, OnOk, OnErr};
ghost use Rattle.std.specs.Io.KnownBytes.{Appends, Keeps};
ghost use Rattle.city_journal.specs.Files.{IsKept, LeavesMore, LeavesPart, LeavesAsBefore, LeavesOnly};

/// A file couldn't do what was asked.
#[derive(Clone, Copy, Debug, Drop, PartialEq, Eq)]
pub struct Refused;

/// A file that grows, and what a crash of the machine may leave of it.
pub trait JournalFile {
    /// What it has, if that is known: what a read would give.
    ghost seen: { Self → Option (List ℕ) };

    /// What a crash at this moment may leave.
    ghost may_leave: { Self → List ℕ → Type 0 };

    /// Appends all these bytes. If it can't, the file has what it had; a crash may leave some of the bytes behind that,
    /// but never all.
    fn append(&mut self, bytes: &[u8]) -> Result<(), Refused>
        ensures ok { OnOk result (Appends (seen self.old) (seen self.new) bytes.now) }
        ensures ok_left { OnOk result (IfSome (seen self.old)
            (λ s. LeavesMore (may_leave self.old) (may_leave self.new) s bytes.now)) }
        ensures err { OnErr result (Keeps (seen self.old) (seen self.new)) }
        ensures err_left { OnErr result (IfSome (seen self.old)
            (λ s. LeavesPart (may_leave self.old) (may_leave self.new) s bytes.now)) };

    /// Brings all that was appended to the disk: a crash leaves all of it.
    fn sync(&mut self) -> Result<(), Refused>
        ensures seen { Keeps (seen self.old) (seen self.new) }
        ensures ok { OnOk result (IsKept (seen self.new) (may_leave self.new)) }
        ensures err { OnErr result (LeavesAsBefore (may_leave self.old) (may_leave self.new)) };

    /// Puts a new file with these bytes in its place, all of them on the disk; the old one is kept under a name with
    /// this number. If it can't, the file has what it had, or from then on it refuses all that is asked.
    fn begin(&mut self, bytes: &[u8], number: u64) -> Result<(), Refused>
        ensures ok { OnOk result (IsSome (seen self.old) → seen self.new ≡ Some bytes.now) }
        ensures kept { OnOk result (IsKept (seen self.new) (may_leave self.new)) };
}
