//! A hand.
use crate::answer::Name;
use crate::in_the_way::InTheWay;

/// The state of a hand.
#[derive(Drop)]
pub enum At {
    /// Nothing.
    Idle,
    /// Its last transaction died: its stamp, kept for the next one, and the lock in its way.
    Kept(u64, InTheWay),
    /// A script or a transaction of this stamp.
    Works(u64),
}

/// A known hand.
#[derive(Drop)]
pub struct Hand {
    pub name: Name,
    pub at: At,
    pub watches: bool,
    /// Whether its seat is listed among those of hands that had nothing.
    pub is_listed: bool,
}

impl Hand {
    /// A hand with no work, no kept age and no watch yet.
    pub fn new(name: Name) -> Hand {
        Hand {
            name,
            at: At::Idle,
            watches: false,
            is_listed: false,
        }
    }

    /// Whether it has none of them, and another may have its seat. Doesn't allocate.
    pub fn is_idle(&self) -> bool {
        matches!(self.at, At::Idle) && !self.watches
    }

    /// The stamp of its script or transaction, if it has one. Doesn't allocate.
    pub fn stamp(&self) -> Option<u64> {
        match &self.at {
            At::Works(stamp) => Some(*stamp),
            At::Idle | At::Kept(_, _) => None,
        }
    }

    /// The stamp kept for its next transaction, if there is one. Doesn't allocate.
    pub fn kept(&self) -> Option<u64> {
        match &self.at {
            At::Kept(stamp, _) => Some(*stamp),
            At::Idle | At::Works(_) => None,
        }
    }
}
