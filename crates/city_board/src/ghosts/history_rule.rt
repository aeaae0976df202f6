//! The rule of a history, and the one move in it: adding a change.
use city_model::change::Change;
use logbook::{Gain, Plain, Play, Rule};

/// The rule of a history: its word holds its length.
pub struct HistoryRule;

impl Rule<Change, u64> for HistoryRule {
    ghost use Rattle.std.specs.Prelude.{[]};
    ghost use base.Fml.{ftrue};
    ghost use Rattle.city_board.specs.internal.HistoryRule.{HasLength};

    ghost holds = { λ cells changes. HasLength cells changes };

    ghost first = { [] };

    ghost hinted = { λ n changes. Unit {0} };

    ghost shows = { λ changes. [] };

    ghost keeps = { λ names changes. ftrue };

    ghost moves = { λ ask before after answer. Unit {0} };
}

/// The gain of adding a change, besides the change: nothing.
pub struct NoGain;

impl Gain<Change, u64> for NoGain {
    ghost use base.Fml.{ftrue};

    ghost after = { λ names about answer. ftrue };
}

/// Adds a change.
pub struct AddsChange;

impl Play<Change, u64> for AddsChange {
    ghost use Rattle.city_board.specs.internal.HistoryRule.{Adds};

    ghost then = { Adds };
}

impl Plain<Change, Change, u64> for AddsChange {
    ghost use Rattle.std.specs.Prelude.{None};

    ghost ask = { λ change. change };

    ghost state = { λ change. None };
}
