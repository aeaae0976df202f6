//! What has ended, for contracts only.
ghost use Rattle.std.specs.Prelude.{◌≡◌, ◌++◌, ◌∷◌, []};

use crate::ghosts::no_rule::NoRule;
use crate::transaction::Transaction;
use logbook::{Opening as FirstEntries, Seen, Start};
use std::marker::Model;

/// The first entries of `Past::nothing`.
pub struct NoPast;

impl FirstEntries<(), (Transaction, bool)> for NoPast {
    ghost use Rattle.std.specs.Prelude.{[]};

    ghost log = { λ count about. [] };
}

/// A past, and one more end.
#[derive(Clone, Copy)]
pub struct WithEnd<'a> {
    past: &'a Past,
    transaction: &'a Transaction,
    is_kept: bool,
}

/// The first entries of `Past::with`.
pub struct OneMoreEnd;

impl<'a> FirstEntries<WithEnd<'a>, (Transaction, bool)> for OneMoreEnd {
    ghost use Rattle.std.specs.Prelude.{◌++◌, ◌∷◌, []};

    ghost log = { λ count with. with.past.now ++ (with.transaction.now, with.is_kept) ∷ [] };
}

/// The transactions that have ended, oldest first, each with whether its writes were kept. It is zero-sized;
/// contracts see them.
#[derive(Drop)]
pub struct Past {
    seen: Seen<(Transaction, bool), u64, NoRule>,
}

impl Model for Past {
    ghost use Rattle.city_session.specs.Grown.{Closed};
    ghost use Rattle.std.specs.Prelude.{List};
    ghost use Rattle.std.specs.Coded.{codes};
    ghost use Rattle.city_members.specs.internal.DataCode.{coded_members};
    ghost use Rattle.city_txn.specs.internal.Codes.{coded_objects};

    ghost Value = { List Closed };

    ghost coded = { Prim.hlevel (codes, coded_members, coded_objects) };

    ghost view = { λ p. p.seen.log };
}

impl Past {
    /// Nothing has ended.
    pub fn nothing() -> Past
        ensures { result ≡ [] }
    {
        let (seen, _pens) = Seen::open_row::<(), NoPast>(&(), Start::alone(), 0);
        Past { seen }
    }

    /// This past, and one more end.
    pub fn with(&self, transaction: &Transaction, is_kept: bool) -> Past
        ensures { result ≡ self.now ++ (transaction.now, is_kept) ∷ [] }
    {
        let with = WithEnd {
            past: self,
            transaction,
            is_kept,
        };
        let (seen, _pens) = Seen::open_row::<WithEnd<'_>, OneMoreEnd>(&with, Start::alone(), 0);
        Past { seen }
    }
}
