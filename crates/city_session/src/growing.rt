//! The open transactions of a session, by their stamps.
ghost use Rattle.std.specs.Prelude.{◌≡◌, ◌<◌, [], None, Some, true, false, length, is_some, option_map, OnOk, OnErr};
ghost use Rattle.std.specs.Prelude.{IfSome, MatchOption};
ghost use Rattle.city_model.specs.Scripts.{is_end};
ghost use Rattle.city_txn.specs.CoreState.{is_open};
ghost use Rattle.city_session.specs.Grown.{unrefused, max_commands, is_full_there};
ghost use Rattle.city_session.specs.Live.{grown_at};
ghost use Rattle.city_session.specs.Acting.{GrowsTo, told_after};
ghost use Rattle.city_session.specs.internal.Answering.{IsAnsweredIn};

use crate::acted::Acted;
use crate::transaction::Transaction;
use city_model::OutOfMemory;
use city_model::command::Command;
use city_txn::Core;
use std::alloc::Global;
use std::collections::BTreeMap;
use std::marker::Model;

/// The open transactions, by their stamps.
///
/// Contracts see the pairs of stamp and transaction, the stamps rising.
#[derive(Drop)]
pub struct Growing {
    by_stamp: BTreeMap<u64, Transaction>,
}

impl Model for Growing {
    ghost use Rattle.std.specs.Prelude.{ℕ, List};
    ghost use Rattle.city_session.specs.Grown.{Grown};

    ghost Value = { List (ℕ × Grown) };

    ghost use Rattle.std.specs.Coded.{codes};
    ghost use Rattle.city_members.specs.internal.DataCode.{coded_members};
    ghost use Rattle.city_txn.specs.internal.Codes.{coded_objects};

    ghost coded = { Prim.hlevel (codes, coded_members, coded_objects) };

    ghost view = { λ g. g.by_stamp.entries };
}

impl Growing {
    /// None is open. Doesn't allocate.
    pub fn new(alloc: Global) -> Growing
        ensures { result ≡ [] }
    {
        Growing {
            by_stamp: BTreeMap::new(alloc),
        }
    }

    /// The open transaction of the stamp, if there is one. Doesn't allocate.
    pub fn get(&self, stamp: u64) -> Option<&Transaction>
        ensures { MatchOption result (grown_at self.now stamp ≡ None) (λ t. grown_at self.now stamp ≡ Some t.now) }
    {
        self.by_stamp.get(&stamp)
    }

    /// Whether the open transaction of the stamp has room for a commit or an abort alone. Doesn't allocate.
    pub fn is_full(&self, stamp: u64) -> bool
        ensures { result ≡ is_full_there (grown_at self.now stamp) }
    {
        match self.get(stamp) {
            Some(transaction) => transaction.is_full(),
            None => false,
        }
    }

    /// Adds a transaction. If memory runs out, nothing changes.
    pub fn add(&mut self, stamp: u64, transaction: Transaction) -> Result<(), OutOfMemory>
        ensures added { OnOk result (GrowsTo stamp (Some transaction) self.old self.new) }
        ensures err { OnErr result (self.new ≡ self.old) }
    {
        self.by_stamp.insert(stamp, transaction)?;
        Ok(())
    }

    /// Does a command of the stamp's transaction, which is there, in the core. The transaction is looked up once.
    pub fn act(&mut self, core: &mut Core, stamp: u64, command: &Command) -> Acted
        requires there { is_some (grown_at self.old stamp) ≡ true }
        requires opened { is_open core.old stamp ≡ true }
        requires goes_on { is_end command.now ≡ false }
        ensures answered { IsAnsweredIn stamp command.now (is_full_there (grown_at self.old stamp)) result core.old
            core.new }
        ensures grows { GrowsTo stamp (option_map (told_after command.now result) (grown_at self.old stamp)) self.old
            self.new }
        ensures full { is_full_there (grown_at self.old stamp) ≡ true → self.new ≡ self.old }
    {
        match self.by_stamp.get_mut(&stamp) {
            Some(transaction) => transaction.act(core, stamp, command),
            None => unreachable!(),
        }
    }

    /// Takes the transaction of the stamp out, if there is one. Doesn't allocate.
    pub fn take(&mut self, stamp: u64) -> Option<Transaction>
        ensures taken { result ≡ grown_at self.old stamp }
        ensures within { IfSome result (λ g. length (unrefused g.told) < max_commands) }
        ensures left { GrowsTo stamp None self.old self.new }
    {
        let transaction = self.by_stamp.remove(&stamp)?;
        let _within = transaction.since();
        Some(transaction)
    }
}
