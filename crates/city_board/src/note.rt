//! A poster's note to its viewers.
ghost use Rattle.std.specs.Prelude.{◌≡◌};

use crate::history::History;
use std::marker::Model;

/// The changes published by the time of the note. Contracts see the board's name and the changes.
#[derive(Drop)]
pub struct Note {
    history: History,
}

impl Model for Note {
    ghost use Rattle.std.specs.Coded.{codes};
    ghost use Rattle.city_members.specs.internal.DataCode.{coded_members};
    ghost use Rattle.city_board.specs.HistoryValue.{HistoryValue};

    ghost Value = { HistoryValue };

    ghost coded = { Prim.hlevel (codes, coded_members) };

    ghost view = { λ n. n.history };
}

impl Note {
    pub(crate) fn of(history: History) -> Note
        ensures { result ≡ history }
    {
        Note { history }
    }

    pub(crate) fn history(&self) -> &History
        ensures { result.now ≡ self.now }
    {
        &self.history
    }
}
