//! Why a text is neither encoded nor decoded.
ghost use Rattle.std.specs.Prelude.{◌≡◌};

use crate::OutOfMemory;

/// Why a text is neither encoded nor decoded.
#[derive(Clone, Copy, Debug, Drop, PartialEq, Eq)]
pub enum DecimalsFault {
    /// Memory ran out.
    OutOfMemory,
    /// The text isn't JSON, or nests deeper than 128.
    NotJson,
}

impl From<OutOfMemory> for DecimalsFault {
    ghost use Rattle.city_decimals.specs.declared.fault.DecimalsFault.TheVariants.{OutOfMemory};
    ghost use Rattle.std.specs.Prelude.{◌≡◌};

    ghost from_gives = { λ _ e. e ≡ OutOfMemory };

    fn from(_refused: OutOfMemory) -> DecimalsFault {
        DecimalsFault::OutOfMemory
    }
}

impl From<json::Error> for DecimalsFault {
    ghost use Rattle.city_decimals.specs.Faults.{fault_of};
    ghost use Rattle.std.specs.Prelude.{◌≡◌};

    ghost from_gives = { λ t e. e ≡ fault_of t };

    fn from(error: json::Error) -> DecimalsFault {
        match error {
            json::Error::OutOfMemory => DecimalsFault::OutOfMemory,
            _ => DecimalsFault::NotJson,
        }
    }
}

impl From<json::Invalid> for DecimalsFault {
    ghost use Rattle.city_decimals.specs.declared.fault.DecimalsFault.TheVariants.{NotJson};
    ghost use Rattle.std.specs.Prelude.{◌≡◌};

    ghost from_gives = { λ _ e. e ≡ NotJson };

    fn from(_invalid: json::Invalid) -> DecimalsFault {
        DecimalsFault::NotJson
    }
}
