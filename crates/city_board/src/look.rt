//! A look at a published version.
ghost use Rattle.std.specs.Prelude.{◌≡◌, length};
ghost use Rattle.city_model.specs.CityMap.{object_at};
ghost use Rattle.city_model.specs.Relations.{IsLawful};
ghost use Rattle.city_model.specs.Runs.{after_changes};

use crate::history::History;
use crate::viewer::{BoardReading, Viewer};
use city_model::city::City;
use std::marker::Model;

/// A look at a version. The version stays as it is until the look is left.
///
/// Contracts see the same as of a viewer, with the version's changes. The poster waits for looks
/// not yet left, so a look can't just be dropped: end it by `leave`.
pub struct Look {
    reading: BoardReading,
    seen: History,
}

impl Model for Look {
    ghost use Rattle.std.specs.Prelude.{◌≡◌};
    ghost use Rattle.std.specs.Coded.{codes};
    ghost use Rattle.left_right.specs.Sides.{view as view_of};
    ghost use Rattle.city_members.specs.internal.DataCode.{coded_members};
    ghost use Rattle.city_txn.specs.internal.Codes.{coded_objects};
    ghost use Rattle.city_board.specs.internal.BoardRule.{known_from};
    ghost use Rattle.city_board.specs.BoardValues.{ViewerValue};
    ghost use Rattle.city_board.specs.internal.Versions.{IsFaithful};

    ghost Value = { ViewerValue };

    ghost coded = { Prim.hlevel (codes, coded_members, coded_objects) };

    ghost view = { λ l. record {
      name = l.seen.name;
      opening =
          (view_of l.reading.place).opening;
      seen = l.seen.changes;
    } };

    ghost invariant = { λ l. (view_of l.reading.place ≡ known_from l.reading.part.value)
        × IsFaithful l.reading.part.value × (l.seen ≡ l.reading.part.value.history) };
}

impl Look {
    ghost use Rattle.left_right.specs.Sides.{view as view_of};
    ghost use Rattle.city_board.specs.internal.BoardRule.{known_from};
    ghost use Rattle.city_board.specs.BoardValues.{viewer_of};
    ghost use Rattle.city_board.specs.internal.Versions.{IsFaithful};

    /// A look at the version being read, with these changes. Doesn't allocate.
    pub(crate) fn new(reading: BoardReading, seen: History) -> Look
        requires met { view_of reading.place ≡ known_from reading.part.value }
        requires faithful { IsFaithful reading.part.value }
        requires seen { seen ≡ reading.part.value.history }
        ensures { result ≡ viewer_of seen (view_of reading.place).opening }
    {
        Look { reading, seen }
    }

    /// The city: the board's opening city after the changes of this look. Doesn't allocate.
    pub fn city(&self) -> &City
        ensures frame { result.now.0 ≡ self.now.opening.0 }
        ensures objects { object_at result.now.1 ≡ after_changes (object_at self.now.opening.1) self.now.seen }
        ensures lawful { IsLawful (object_at result.now.1) }
    {
        &self.reading.get().city
    }

    /// The number of changes. Doesn't allocate.
    pub fn edits(&self) -> u64
        ensures { result ≡ length self.now.seen }
    {
        self.seen.len()
    }

    /// Ends the look and gives the viewer back, now with its changes seen. Doesn't allocate.
    pub fn leave(self) -> Viewer
        ensures { result ≡ self }
    {
        let Look { reading, seen } = self;
        Viewer::new(reading.leave(), seen)
    }
}
