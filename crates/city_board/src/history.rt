//! The history of a board's changes. It only grows. At run time it is the number of its changes.
ghost use Rattle.std.specs.Prelude.{◌≡◌, ◌⊎◌, ◌<◌, ◌^◌, [], ◌∷◌, ◌++◌, length, IfSome};
ghost use mathlib.Core.List.{IsPrefix};
ghost use Rattle.city_board.specs.HistoryValue.{history_of};

use crate::ghosts::history_rule::{AddsChange, HistoryRule, NoGain};
use city_model::change::Change;
use logbook::{Offer, Seen, Start, Word};
use std::marker::Model;

/// The end of a history, where changes are added. Contracts see the history's name.
#[derive(Drop)]
pub struct Head {
    word: Word<Change, u64, HistoryRule>,
}

impl Model for Head {
    ghost use Rattle.std.specs.Prelude.{◌≡◌};
    ghost use Rattle.logbook.specs.Pages.{Book};
    ghost use Rattle.city_board.specs.internal.HistoryRule.{head_of};

    ghost Value = { Book };

    ghost view = { λ h. h.word.book };

    ghost invariant = { λ h. h.word ≡ head_of h.word.book };
}

/// A history up to some change. Contracts see its name and the changes.
#[derive(Drop)]
pub struct History {
    len: u64,
    seen: Seen<Change, u64, HistoryRule>,
}

impl Model for History {
    ghost use Rattle.std.specs.Prelude.{◌≡◌, length};
    ghost use Rattle.std.specs.Coded.{codes};
    ghost use Rattle.city_members.specs.internal.DataCode.{coded_members};
    ghost use Rattle.city_board.specs.HistoryValue.{HistoryValue, history_of};

    ghost Value = { HistoryValue };

    ghost coded = { Prim.hlevel (codes, coded_members) };

    ghost view = { λ h. history_of h.seen.book h.seen.log };

    ghost invariant = { λ h. h.len ≡ length h.seen.log };
}

impl History {
    /// A new history, without changes, and its end.
    pub fn new() -> (History, Head)
        ensures empty { result.0.changes ≡ [] }
        ensures name { result.1 ≡ result.0.name }
    {
        let (seen, mut first, _second) = Seen::open(Start::alone(), 0, 0);
        let word = Word::tracked(0, &mut first);
        (History { len: 0, seen }, Head { word })
    }

    /// The number of changes.
    pub fn len(&self) -> u64
        ensures { result ≡ length self.now.changes }
    {
        self.len
    }

    /// A copy. Doesn't allocate.
    pub fn again(&self) -> History
        ensures { result ≡ self.now }
    {
        History {
            len: self.len,
            seen: self.seen.again(),
        }
    }

    /// The longer of two histories, one of them a prefix of the other.
    pub fn longer(&self, other: &History) -> History
        requires { other.now.name ≡ self.now.name }
        ensures one { (result ≡ self.now) ⊎ (result ≡ other.now) }
        ensures this { IsPrefix self.now.changes result.changes }
        ensures that { IsPrefix other.now.changes result.changes }
    {
        let mut both = self.seen.again();
        both.learn(&other.seen);
        if self.len < other.len {
            other.again()
        } else {
            self.again()
        }
    }

    /// This history and one change more, still to be added.
    pub fn with(&self, change: &Change) -> Addition
        ensures { result ≡ history_of self.now.name (self.now.changes ++ change.now ∷ []) }
    {
        Addition {
            len: self.len,
            seen: self.seen.again(),
            offer: self.seen.plain::<NoGain, Change, AddsChange>(change),
        }
    }
}

/// A history up to some change, and its next change, still to be added. Contracts see both as one.
#[derive(Drop)]
pub struct Addition {
    len: u64,
    seen: Seen<Change, u64, HistoryRule>,
    offer: Offer<Change, u64, HistoryRule, NoGain>,
}

impl Model for Addition {
    ghost use Rattle.std.specs.Prelude.{◌≡◌, [], ◌∷◌, ◌++◌, length, None};
    ghost use Rattle.std.specs.Coded.{codes};
    ghost use Rattle.city_members.specs.internal.DataCode.{coded_members};
    ghost use Rattle.city_board.specs.HistoryValue.{HistoryValue, history_of};

    ghost Value = { HistoryValue };

    ghost coded = { Prim.hlevel (codes, coded_members) };

    ghost view = { λ a. history_of a.seen.book (a.seen.log ++ a.offer.ask ∷ []) };

    ghost invariant = { λ a. (a.len ≡ length a.seen.log) × (a.offer.names ≡ a.seen.names) × (a.offer.state ≡ None) };
}

impl Addition {
    /// Adds the change to the history; `None` if another one follows already.
    pub fn add(self, head: &Head) -> Option<History>
        requires name { head.now ≡ self.name }
        requires room { length self.changes < 2 ^ 64 }
        ensures { IfSome result (λ history. history ≡ self) }
    {
        let Addition {
            len,
            mut seen,
            mut offer,
        } = self;
        let mut pen = seen.no_pen();
        let found = head
            .word
            .compare_exchange::<AddsChange, NoGain>(len, len + 1, &mut seen, &mut offer, &mut pen);
        if found == len {
            Some(History { len: len + 1, seen })
        } else {
            None
        }
    }
}
