//! Why a live session doesn't begin, or ends early.

use city_desk::RunFault;
use city_doc::ReadFault;
use city_journal::JournalFault;
use city_model::OutOfMemory;
use city_serve::ServeFault;
use std::fmt::{self, Display, Formatter, Write};

/// Why a live session doesn't begin, or ends early.
#[derive(Drop)]
pub enum LiveFault {
    /// A text, a stream or the output file.
    Serve(ServeFault),
    /// What the journal has.
    Journal(JournalFault),
    /// The journal couldn't be read, locked or written.
    JournalFile(ServeFault),
}

impl Display for LiveFault {
    fn fmt<W: Write>(&self, f: &mut Formatter<W>) -> fmt::Result {
        match self {
            LiveFault::Serve(fault) => fault.fmt(f),
            LiveFault::Journal(fault) => fault.fmt(f),
            LiveFault::JournalFile(fault) => {
                f.write_str("journal: ")?;
                fault.fmt(f)
            }
        }
    }
}

impl From<OutOfMemory> for LiveFault {
    fn from(_: OutOfMemory) -> LiveFault {
        LiveFault::Serve(ServeFault::Run(RunFault::OutOfMemory))
    }
}

impl From<ServeFault> for LiveFault {
    fn from(fault: ServeFault) -> LiveFault {
        LiveFault::Serve(fault)
    }
}

impl From<ReadFault> for LiveFault {
    fn from(fault: ReadFault) -> LiveFault {
        LiveFault::Serve(ServeFault::Run(RunFault::from(fault)))
    }
}

impl From<JournalFault> for LiveFault {
    fn from(fault: JournalFault) -> LiveFault {
        LiveFault::Journal(fault)
    }
}
