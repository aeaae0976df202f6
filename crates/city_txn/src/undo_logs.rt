//! Undo logs: the way back of an open transaction to its marks.
ghost use Rattle.std.specs.Prelude.{◌≡◌, ◌==◌, ℕ, [], ◌∷◌, ◌++◌, length, reverse, OnOk, OnErr, option_to_list};
ghost use Rattle.std.specs.Prelude.{IfNone, if◌then◌else◌};
ghost use Rattle.std.specs.List.{list_any};
ghost use Rattle.city_txn.specs.UndoLog.{log_of};
ghost use Rattle.city_txn.specs.internal.LogTests.{has_mark, is_at_mark, is_mark};

use city_locks::by_stamp::push;
use city_members::sequence::Sequence;
use city_members::text::{Id, Text};
use city_model::OutOfMemory;
use city_model::id_list::is_same_id;
use city_model::object::Object;
use std::alloc::Global;
use std::collections::BTreeMap;
use std::marker::Model;

/// A transaction's write at an id: nothing, an object, or a delete.
pub type OwnWrite = Option<Option<Object>>;

/// An entry of an undo log.
#[derive(Drop)]
pub enum Entry {
    /// A mark of this name was made.
    Mark(Text),
    /// The id was written, over this earlier write of the transaction.
    BeforeImage(Id, OwnWrite),
}

/// The undo logs of the transactions with marks, by stamp.
///
/// Contracts see them as lists, the entries newest last.
#[derive(Drop)]
pub struct UndoLogs {
    alloc: Global,
    by_stamp: BTreeMap<u64, Sequence<Entry>>,
}

impl Model for UndoLogs {
    ghost use Rattle.city_txn.specs.UndoLog.{Logs};

    ghost Value = { Logs };

    ghost use Rattle.std.specs.Coded.{codes};
    ghost use Rattle.city_txn.specs.internal.Codes.{coded_entries};

    ghost coded = { Prim.hlevel (codes, coded_entries) };

    ghost view = { λ logs. logs.by_stamp.entries };
}

impl UndoLogs {
    /// No transaction has marks. Doesn't allocate.
    pub fn new(alloc: Global) -> Self
        ensures { result ≡ [] }
    {
        UndoLogs {
            alloc,
            by_stamp: BTreeMap::new(alloc),
        }
    }

    /// Whether the transaction has no marks: its log is empty. Doesn't allocate.
    pub fn is_empty(&self, stamp: u64) -> bool
        ensures { result ≡ (length (log_of self.now stamp) == 0) }
    {
        self.entries(stamp).is_empty()
    }

    /// Whether the transaction has a mark of the name. Doesn't allocate.
    #[tactic(auto, using(crate::proofs::UndoLogs::any_reversed))]
    pub fn has_mark(&self, stamp: u64, name: &Text) -> bool
        ensures { result ≡ has_mark (log_of self.now stamp) name.now }
    {
        any_is_mark(self.entries(stamp), name)
    }

    /// Whether a mark of the name is the newest entry. Doesn't allocate.
    pub fn is_at_mark(&self, stamp: u64, name: &Text) -> bool
        ensures { result ≡ is_at_mark (log_of self.now stamp) name.now }
    {
        match self.entries(stamp) {
            [.., entry] => is_mark(entry, name),
            [] => false,
        }
    }

    /// Adds an entry to the transaction's log. If memory runs out, the logs stay as they were.
    pub fn push(&mut self, stamp: u64, entry: Entry) -> Result<(), OutOfMemory>
        ensures ok { OnOk result
            ((t : ℕ) → log_of self.new t ≡ (if stamp == t then entry ∷ log_of self.old t else log_of self.old t)) }
        ensures err { OnErr result ((t : ℕ) → log_of self.new t ≡ log_of self.old t) }
    {
        push(&mut self.by_stamp, self.alloc, stamp, entry)
    }

    /// Removes the newest entry of the transaction's log, if there is one, and
    /// returns it. Doesn't allocate.
    pub fn pop(&mut self, stamp: u64) -> Option<Entry>
        ensures entries { (t : ℕ) → log_of self.old t
            ≡ (if stamp == t then option_to_list result ++ log_of self.new t else log_of self.new t) }
        ensures none { IfNone result (log_of self.old stamp ≡ []) }
    {
        match self.by_stamp.get_mut(&stamp) {
            Some(entries) => entries.pop(),
            None => None,
        }
    }

    /// Forgets the transaction's log. Doesn't allocate.
    pub fn close(&mut self, stamp: u64)
        ensures { (t : ℕ) → log_of self.new t ≡ (if stamp == t then [] else log_of self.old t) }
    {
        let _ = self.by_stamp.remove(&stamp);
    }

    /// The entries of the transaction's log, newest last.
    fn entries(&self, stamp: u64) -> &[Entry]
        ensures { reverse result.now ≡ log_of self.now stamp }
    {
        match self.by_stamp.get(&stamp) {
            Some(entries) => entries.as_slice(),
            None => &[],
        }
    }
}

/// Whether an entry is a mark of the name.
fn any_is_mark(entries: &[Entry], name: &Text) -> bool
    ensures { result ≡ list_any (is_mark name.now) entries.now }
{
    for entry in entries {
        if is_mark(entry, name) {
            return true;
        }
    }
    false
}

/// Whether the entry is a mark of the name.
fn is_mark(entry: &Entry, name: &Text) -> bool
    ensures { result ≡ is_mark name.now entry.now }
{
    match entry {
        Entry::Mark(there) => is_same_id(name, there),
        Entry::BeforeImage(_, _) => false,
    }
}
