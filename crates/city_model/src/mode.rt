//! The modes of a lock.
ghost use Rattle.std.specs.Prelude.{◌≡◌};
ghost use Rattle.city_model.specs.Mode.{is_exclusive};

/// How a lock is held: beside other `Shared` holders, or alone.
#[derive(Clone, Copy, Debug, PartialEq, Eq)]
pub enum Mode {
    Shared,
    Exclusive,
}

impl Mode {
    /// Whether a lock in this mode stands beside no other.
    pub fn is_exclusive(self) -> bool
        ensures { result ≡ is_exclusive self }
    {
        match self {
            Mode::Shared => false,
            Mode::Exclusive => true,
        }
    }
}
