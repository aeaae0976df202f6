//! Why a text of scripts is refused. A fault shows by its number, its name and the script and the command it is in.
use city_doc::TextFault;
use city_model::OutOfMemory;
use std::error::Error;
use std::fmt::{self, Display, Formatter, Write};

/// Why a text of scripts is refused: its first fault in this list, at the first script and then the
/// first command. It shows as `scripts: 7 BadCommand 0 3`.
#[derive(Debug, Drop)]
pub enum ScriptFault {
    /// Memory ran out; this has no place in the order.
    OutOfMemory,
    /// The text is longer than 67,108,864 bytes.
    TooLong,
    /// The text isn't JSON.
    NotJson,
    /// A number isn't a whole number of 64 bits.
    NotWhole,
    /// The text isn't an array of scripts.
    NotScripts,
    /// This item isn't a script.
    BadScript(usize),
    /// There are too many scripts, or too many commands in one.
    TooMany,
    /// In this script, this command is malformed.
    BadCommand(usize, usize),
    /// In this script, this command names a missing vertex.
    BadVertex(usize, usize),
}

impl Display for ScriptFault {
    ghost use Rattle.std.specs.Prelude.{Some};
    ghost use Rattle.city_scripts.specs.FaultTexts.{script_fault_text};

    ghost output = { λ fault. Some (script_fault_text fault) };

    fn fmt<W: Write>(&self, f: &mut Formatter<W>) -> fmt::Result {
        match self {
            ScriptFault::OutOfMemory => f.write_str("out of memory"),
            ScriptFault::TooLong => f.write_str("scripts: 1 TooLong"),
            ScriptFault::NotJson => f.write_str("scripts: 2 NotJson"),
            ScriptFault::NotWhole => f.write_str("scripts: 3 NotWhole"),
            ScriptFault::NotScripts => f.write_str("scripts: 4 NotScripts"),
            ScriptFault::BadScript(n) => write!(f, "scripts: 5 BadScript {n}"),
            ScriptFault::TooMany => f.write_str("scripts: 6 TooMany"),
            ScriptFault::BadCommand(n, i) => write!(f, "scripts: 7 BadCommand {n} {i}"),
            ScriptFault::BadVertex(n, i) => write!(f, "scripts: 8 BadVertex {n} {i}"),
        }
    }
}

impl Error for ScriptFault {}

impl From<OutOfMemory> for ScriptFault {
    ghost use Rattle.std.specs.Prelude.{◌≡◌};
    ghost use Rattle.city_scripts.specs.declared.fault.ScriptFault.{ScriptFault};

    ghost from_gives = { λ _ f. f ≡ ScriptFault.OutOfMemory };

    fn from(_: OutOfMemory) -> ScriptFault {
        ScriptFault::OutOfMemory
    }
}

impl From<TextFault> for ScriptFault {
    ghost use Rattle.std.specs.Prelude.{◌≡◌};
    ghost use Rattle.city_scripts.specs.internal.TextFaults.{script_fault};

    ghost from_gives = { λ t f. f ≡ script_fault t };

    fn from(fault: TextFault) -> ScriptFault {
        match fault {
            TextFault::OutOfMemory => ScriptFault::OutOfMemory,
            TextFault::TooLong => ScriptFault::TooLong,
            TextFault::NotJson => ScriptFault::NotJson,
            TextFault::NotWhole => ScriptFault::NotWhole,
        }
    }
}
