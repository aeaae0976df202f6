//! Laws of journals.
ghost use Rattle.std.specs.Prelude.{◌++◌, ℕ, List, Bool};
ghost use Rattle.city_live.specs.Noting.{Noted};
ghost use Rattle.city_journal.specs.Followed.{HoldsCommits};
ghost use Rattle.city_journal.specs.Restarts.{CountUp, IsLeftOver, IsOpening, opening_of};
ghost use Rattle.city_journal.specs.Said.{Said};

use crate::file::JournalFile;

/// Whatever a crash leaves of a file with the lines of commits has all that may be told, and the first of the others.
/// `read_journal` gives the commits read of it, and `restart` the city they lead to.
pub fn what_a_crash_leaves<F: JournalFile>(_file: &F)
    ensures { (decimals : Bool) (sum : List ℕ) (version : ℕ) (keys : List Said) (told more : List Noted)
        → IsOpening sum version keys → CountUp version (told ++ more)
        → HoldsCommits F.seen F.may_leave decimals _file.now (opening_of decimals sum version keys) told more
        → (c : List ℕ) → F.may_leave _file.now c → IsLeftOver decimals sum version told more c }
{}
