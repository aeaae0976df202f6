//! Why a text has no canonical form.
ghost use Rattle.std.specs.Prelude.{◌≡◌};

use city_decimals::DecimalsFault;
use city_doc::ReadFault;
use city_model::OutOfMemory;

/// Why a text has no canonical form.
#[derive(Debug, Drop)]
pub enum CanonicalFault {
    /// Memory ran out.
    OutOfMemory,
    /// The text isn't JSON, or nests deeper than 128.
    NotJson,
    /// The text, with its numbers encoded, isn't a lawful city model.
    NotModel(ReadFault),
}

impl From<OutOfMemory> for CanonicalFault {
    ghost use Rattle.city_canonical.specs.declared.fault.CanonicalFault.TheVariants.{OutOfMemory};
    ghost use Rattle.std.specs.Prelude.{◌≡◌};

    ghost from_gives = { λ _ e. e ≡ OutOfMemory };

    fn from(_refused: OutOfMemory) -> CanonicalFault {
        CanonicalFault::OutOfMemory
    }
}

impl From<DecimalsFault> for CanonicalFault {
    ghost use Rattle.city_canonical.specs.Faults.{fault_of};
    ghost use Rattle.std.specs.Prelude.{◌≡◌};

    ghost from_gives = { λ t e. e ≡ fault_of t };

    fn from(fault: DecimalsFault) -> CanonicalFault {
        match fault {
            DecimalsFault::OutOfMemory => CanonicalFault::OutOfMemory,
            DecimalsFault::NotJson => CanonicalFault::NotJson,
        }
    }
}

impl From<ReadFault> for CanonicalFault {
    ghost use Rattle.city_canonical.specs.Faults.{read_fault_of};
    ghost use Rattle.std.specs.Prelude.{◌≡◌};

    ghost from_gives = { λ t e. e ≡ read_fault_of t };

    fn from(fault: ReadFault) -> CanonicalFault {
        match fault {
            ReadFault::OutOfMemory => CanonicalFault::OutOfMemory,
            other => CanonicalFault::NotModel(other),
        }
    }
}
