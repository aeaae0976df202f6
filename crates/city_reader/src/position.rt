//! Positions in texts.
ghost use Rattle.std.specs.Prelude.{◌≡◌, IsTrue};

use crate::plain::Place;

/// A position in a text, to read on from: a byte, and what may come next there.
#[derive(Clone, Copy, Drop)]
pub struct Position {
    pub(crate) at: usize,
    pub(crate) place: Place,
}

impl Position {
    /// The byte behind a comma.
    pub fn after_comma(at: usize) -> Position {
        Position {
            at,
            place: Place::AfterComma,
        }
    }

    /// Whether it is this position.
    pub fn is(self, other: Position) -> bool
        ensures { IsTrue result → self ≡ other }
    {
        self.at == other.at && self.place.is(other.place)
    }

    /// The byte.
    pub fn at(self) -> usize {
        self.at
    }
}
