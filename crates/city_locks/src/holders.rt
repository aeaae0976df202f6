//! The holders of one id.
ghost use Rattle.std.specs.Prelude.{◌≡◌, OnOk, OnErr, None, Some, [], true};
ghost use Rattle.city_locks.specs.Mode.{stronger};
ghost use Rattle.city_locks.specs.Holders.{in_conflict, answer_among, mode_among, with_holder, without};

use crate::answer::Answer;
use city_model::OutOfMemory;
use city_model::mode::Mode;
use std::alloc::Global;
use std::marker::Model;

/// A stamp with a lock on an id, and its mode.
#[derive(Clone, Copy)]
pub struct Holder {
    pub stamp: u64,
    pub mode: Mode,
}

impl Holder {
    /// Whether this is another holder than the asker, and one of the two modes is exclusive.
    pub fn conflicts(&self, stamp: u64, mode: Mode) -> bool
        ensures { result ≡ in_conflict stamp mode self.now }
    {
        self.stamp != stamp && (mode.is_exclusive() || self.mode.is_exclusive())
    }
}

/// The holders of one id, each stamp once.
#[derive(Drop)]
pub struct Holders {
    list: Vec<Holder>,
}

impl Model for Holders {
    ghost use Rattle.std.specs.Prelude.{List};
    ghost use Rattle.city_locks.specs.declared.holders.Holder.{Holder};

    ghost Value = { List Holder };

    ghost view = { λ a. a.list.items };
}

impl Holders {
    /// No holders.
    pub fn new(alloc: Global) -> Self
        ensures { result ≡ [] }
    {
        Holders {
            list: Vec::new(alloc),
        }
    }

    /// The holders, each stamp once. Doesn't allocate.
    pub fn as_slice(&self) -> &[Holder]
        ensures { result.now ≡ self.now }
    {
        self.list.as_slice()
    }

    /// Whether nobody holds the id.
    pub fn is_empty(&self) -> bool
        ensures empty { result ≡ true → self.now ≡ [] }
        ensures some { self.now ≡ [] → result ≡ true }
    {
        self.list.is_empty()
    }

    /// The answer to an asker.
    pub fn answer(&self, stamp: u64, mode: Mode) -> Answer
        ensures { result ≡ answer_among self.now stamp mode }
    {
        let mut waits = false;
        for holder in &self.list {
            if holder.conflicts(stamp, mode) {
                if holder.stamp <= stamp {
                    return Answer::Die;
                }
                waits = true;
            }
        }
        if waits { Answer::Wait } else { Answer::Granted }
    }

    /// The mode of the stamp, if it is a holder.
    pub fn mode(&self, stamp: u64) -> Option<Mode>
        ensures { result ≡ mode_among self.now stamp }
    {
        for holder in &self.list {
            if holder.stamp == stamp {
                return Some(holder.mode);
            }
        }
        None
    }

    /// Makes the stamp a holder, in the stronger of the mode and its own. If memory runs out, the
    /// holders stay as they are; this happens only if the stamp isn't one of them yet.
    pub fn grant(&mut self, stamp: u64, mode: Mode) -> Result<(), OutOfMemory>
        ensures ok { OnOk result (self.new ≡ with_holder self.old stamp mode) }
        ensures err { OnErr result (self.new ≡ self.old) }
        ensures absent { OnErr result (mode_among self.old stamp ≡ None) }
    {
        for i in 0..self.list.len() {
            let holder = self.list[i];
            if holder.stamp == stamp {
                let mode = stronger(mode, holder.mode);
                self.list[i] = Holder { stamp, mode };
                return Ok(());
            }
        }
        self.list.push(Holder { stamp, mode })?;
        Ok(())
    }

    /// Removes the stamp; the other holders stay.
    pub fn release(&mut self, stamp: u64)
        ensures { self.new ≡ without self.old stamp }
    {
        self.list.retain(|holder| holder.stamp != stamp);
    }
}

/// The stronger of the mode asked for and the mode held.
fn stronger(mode: Mode, held: Mode) -> Mode
    ensures { result ≡ stronger mode (Some held) }
{
    match mode {
        Mode::Shared => held,
        Mode::Exclusive => Mode::Exclusive,
    }
}
