//! Why a text is refused. A fault shows by its number, its name and the things it names, texts as JSON texts.
ghost use Rattle.std.specs.Prelude.{◌≡◌, [], ◌∷◌, IfOk};

mod quoted;

use city_members::text::{Id, Text};
use city_model::OutOfMemory;
use quoted::Quoted;
use std::alloc::Global;
use std::error::Error;
use std::fmt::{self, Display, Formatter, Write};

/// Why a document is refused: its first fault in this list, at the least id.
/// It shows as `model: 5 UnknownType "b12"`.
#[derive(Debug, Drop)]
pub enum ReadFault {
    /// Memory ran out; this has no place in the order.
    OutOfMemory,
    /// The text is longer than 67,108,864 bytes.
    TooLong,
    /// The text isn't JSON.
    NotJson,
    /// A number isn't a whole number of 64 bits.
    NotWhole,
    /// This member isn't as CityJSON 2.0 has it.
    NotCityJson(Text),
    /// This object has no type, or an unknown one.
    UnknownType(Id),
    /// This object has something unsupported, of this name.
    Unsupported(Id, Text),
    /// This object has a malformed geometry.
    BadGeometry(Id),
    /// This object names a missing vertex.
    BadVertex(Id),
    /// This object has a ring with too few points or with equal neighbours.
    BadRing(Id),
    /// The parents and children of this object don't agree.
    Relations(Id),
    /// This object has a solid with an open shell.
    OpenShell(Id),
}

/// A list of one fault.
pub fn alone<F: Drop>(alloc: Global, fault: F) -> Result<Vec<F>, OutOfMemory>
    ensures { IfOk result (λ faults. faults.items ≡ fault ∷ []) }
{
    let mut faults = Vec::new(alloc);
    faults.push(fault)?;
    Ok(faults)
}

impl Display for ReadFault {
    ghost use Rattle.std.specs.Prelude.{Some};
    ghost use Rattle.city_doc.specs.FaultTexts.{read_fault_text};

    ghost output = { λ fault. Some (read_fault_text fault) };

    fn fmt<W: Write>(&self, f: &mut Formatter<W>) -> fmt::Result {
        match self {
            ReadFault::OutOfMemory => f.write_str("out of memory"),
            ReadFault::TooLong => f.write_str("model: 1 TooLong"),
            ReadFault::NotJson => f.write_str("model: 2 NotJson"),
            ReadFault::NotWhole => f.write_str("model: 3 NotWhole"),
            ReadFault::NotCityJson(member) => write!(f, "model: 4 NotCityJson {}", Quoted(member)),
            ReadFault::UnknownType(id) => write!(f, "model: 5 UnknownType {}", Quoted(id)),
            ReadFault::Unsupported(id, name) => {
                write!(f, "model: 6 Unsupported {} {}", Quoted(id), Quoted(name))
            }
            ReadFault::BadGeometry(id) => write!(f, "model: 7 BadGeometry {}", Quoted(id)),
            ReadFault::BadVertex(id) => write!(f, "model: 8 BadVertex {}", Quoted(id)),
            ReadFault::BadRing(id) => write!(f, "model: 9 BadRing {}", Quoted(id)),
            ReadFault::Relations(id) => write!(f, "model: 10 Relations {}", Quoted(id)),
            ReadFault::OpenShell(id) => write!(f, "model: 11 OpenShell {}", Quoted(id)),
        }
    }
}

impl Error for ReadFault {}

impl From<OutOfMemory> for ReadFault {
    ghost use Rattle.std.specs.Prelude.{◌≡◌};
    ghost use Rattle.city_doc.specs.declared.fault.ReadFault.{ReadFault};

    ghost from_gives = { λ _ f. f ≡ ReadFault.OutOfMemory };

    fn from(_: OutOfMemory) -> ReadFault {
        ReadFault::OutOfMemory
    }
}
