//! Why a journal is refused.
use crate::model_sum::ModelSum;
use city_model::OutOfMemory;
use std::alloc::AllocFailed;
use std::error::Error;
use std::fmt::{self, Display, Formatter, Write};

/// Why a journal is refused. Nothing is changed then. Lines count from 1.
#[derive(Clone, Copy, Debug, Drop)]
pub enum JournalFault {
    OutOfMemory,
    /// Its first line isn't a journal's.
    NoJournal,
    /// It is of numbers of any form, or of whole ones, and the run isn't.
    OtherNumbers(bool),
    /// This line isn't one of a journal, or has a wrong sum, and isn't the last.
    BadLine(usize),
    /// This line's version isn't the next one.
    BadVersion(usize),
    /// It is over a model with the first sum, and has no place where the model has the second.
    OtherModel(ModelSum, ModelSum),
    /// The commit that made this version can't be made again.
    BadCommit(u64),
}

impl Display for JournalFault {
    fn fmt<W: Write>(&self, f: &mut Formatter<W>) -> fmt::Result {
        match self {
            JournalFault::OutOfMemory => f.write_str("out of memory"),
            JournalFault::NoJournal => f.write_str("journal: the first line is no journal's"),
            JournalFault::OtherNumbers(true) => f.write_str("journal: its numbers need --decimals"),
            JournalFault::OtherNumbers(false) => f.write_str(
                "journal: its numbers are whole, without --decimals",
            ),
            JournalFault::BadLine(n) => write!(f, "journal: line {n} is damaged"),
            JournalFault::BadVersion(n) => write!(f, "journal: line {n} has not the next version"),
            JournalFault::OtherModel(own, model) => {
                write!(f, "journal: it is over the model {own}, not over {model}")
            }
            JournalFault::BadCommit(n) => write!(
                f,
                "journal: the commit of version {n} can't be made again"
            ),
        }
    }
}

impl Error for JournalFault {}

impl From<OutOfMemory> for JournalFault {
    ghost use Rattle.std.specs.Prelude.{◌≡◌};
    ghost use Rattle.city_journal.specs.declared.fault.JournalFault.{JournalFault};

    ghost from_gives = { λ _ f. f ≡ JournalFault.OutOfMemory };

    fn from(_: OutOfMemory) -> JournalFault {
        JournalFault::OutOfMemory
    }
}

impl<T: Drop> From<AllocFailed<T>> for JournalFault {
    ghost use Rattle.std.specs.Prelude.{◌≡◌};
    ghost use Rattle.city_journal.specs.declared.fault.JournalFault.{JournalFault};

    ghost from_gives = { λ _ f. f ≡ JournalFault.OutOfMemory };

    fn from(_: AllocFailed<T>) -> JournalFault {
        JournalFault::OutOfMemory
    }
}
