//! The answers of a lock table.

/// The answer to an asker. A smaller stamp is older.
#[derive(Clone, Copy, Debug, PartialEq, Eq)]
pub enum Answer {
    /// No other holder is in conflict: the asker holds the lock.
    Granted,
    /// The asker is older than all holders in conflict, and may wait for them.
    Wait,
    /// Some holder in conflict is older than the asker, which must give up.
    Die,
}
