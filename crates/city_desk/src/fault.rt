//! Why a run has no output.
use city_doc::ReadFault;
use city_model::OutOfMemory;
use city_scripts::ScriptFault;
use std::error::Error;
use std::fmt::{self, Display, Formatter, Write};

/// Why a run has no output. The fault of a text is displayed unchanged.
#[derive(Debug, Drop)]
pub enum RunFault {
    /// The document is refused.
    Read(ReadFault),
    /// The scripts are refused.
    Script(ScriptFault),
    /// Memory ran out.
    OutOfMemory,
    /// A viewer's seat was refused.
    NoPlace,
    /// A script had not ended when the workers had.
    Unfinished,
    /// The gathered results aren't of this run.
    Mixed,
}

impl Display for RunFault {
    ghost use Rattle.std.specs.Prelude.{Some};
    ghost use Rattle.city_desk.specs.FaultTexts.{run_fault_text};

    ghost output = { λ fault. Some (run_fault_text fault) };

    fn fmt<W: Write>(&self, f: &mut Formatter<W>) -> fmt::Result {
        match self {
            RunFault::Read(fault) => fault.fmt(f),
            RunFault::Script(fault) => fault.fmt(f),
            RunFault::OutOfMemory => f.write_str("out of memory"),
            RunFault::NoPlace => f.write_str("no viewer place"),
            RunFault::Unfinished => f.write_str("unfinished"),
            RunFault::Mixed => f.write_str("mixed"),
        }
    }
}

impl Error for RunFault {}

impl From<OutOfMemory> for RunFault {
    ghost use Rattle.std.specs.Prelude.{◌≡◌};
    ghost use Rattle.city_desk.specs.declared.fault.RunFault.{RunFault};

    ghost from_gives = { λ _ f. f ≡ RunFault.OutOfMemory };

    fn from(_: OutOfMemory) -> RunFault {
        RunFault::OutOfMemory
    }
}

impl From<ReadFault> for RunFault {
    ghost use Rattle.std.specs.Prelude.{◌≡◌};
    ghost use Rattle.city_desk.specs.RunFaults.{fault_of_document};

    ghost from_gives = { λ f r. r ≡ fault_of_document f };

    fn from(fault: ReadFault) -> RunFault {
        match fault {
            ReadFault::OutOfMemory => RunFault::OutOfMemory,
            other => RunFault::Read(other),
        }
    }
}

impl From<ScriptFault> for RunFault {
    ghost use Rattle.std.specs.Prelude.{◌≡◌};
    ghost use Rattle.city_desk.specs.RunFaults.{fault_of_scripts};

    ghost from_gives = { λ f r. r ≡ fault_of_scripts f };

    fn from(fault: ScriptFault) -> RunFault {
        match fault {
            ScriptFault::OutOfMemory => RunFault::OutOfMemory,
            other => RunFault::Script(other),
        }
    }
}
