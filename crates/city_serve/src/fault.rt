//! Why bytes were not served.
use city_desk::RunFault;
use city_model::OutOfMemory;
use std::error::Error;
use std::fmt::{self, Display, Formatter, Write};

/// Why bytes were not served. A fault of the run shows as itself.
#[derive(Debug, Drop)]
pub enum ServeFault {
    /// The reader failed.
    Read,
    /// The run has no output.
    Run(RunFault),
    /// The writer failed, or took no byte, or a step of replacing the output file was refused.
    Write,
    /// Another run holds the output file.
    InUse,
    /// The output file is the model's, and is no longer what was read.
    Changed,
}

impl Display for ServeFault {
    ghost use Rattle.std.specs.Prelude.{Some};
    ghost use Rattle.city_serve.specs.FaultTexts.{serve_fault_text};

    ghost output = { λ fault. Some (serve_fault_text fault) };

    fn fmt<W: Write>(&self, f: &mut Formatter<W>) -> fmt::Result {
        match self {
            ServeFault::Read => f.write_str("cannot read"),
            ServeFault::Run(fault) => fault.fmt(f),
            ServeFault::Write => f.write_str("cannot write"),
            ServeFault::InUse => f.write_str("file in use"),
            ServeFault::Changed => f.write_str("model changed"),
        }
    }
}

impl Error for ServeFault {}

impl From<OutOfMemory> for ServeFault {
    ghost use Rattle.std.specs.Prelude.{◌≡◌};
    ghost use Rattle.city_desk.specs.declared.fault.RunFault.{RunFault};
    ghost use Rattle.city_serve.specs.declared.fault.ServeFault.{ServeFault};

    ghost from_gives = { λ _ f. f ≡ ServeFault.Run RunFault.OutOfMemory };

    fn from(_: OutOfMemory) -> ServeFault {
        ServeFault::Run(RunFault::OutOfMemory)
    }
}

impl From<RunFault> for ServeFault {
    ghost use Rattle.std.specs.Prelude.{◌≡◌};
    ghost use Rattle.city_serve.specs.declared.fault.ServeFault.{ServeFault};

    ghost from_gives = { λ f s. s ≡ ServeFault.Run f };

    fn from(fault: RunFault) -> ServeFault {
        ServeFault::Run(fault)
    }
}
