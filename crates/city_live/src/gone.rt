//! How far a work came.
use crate::in_the_way::InTheWay;

/// How far a work came.
#[derive(Drop)]
pub enum Gone {
    /// The one command was done, or refused, and its hand told so.
    Replied,
    /// There is no command to be done.
    Nothing,
    /// A command of a script was refused.
    Refused,
    /// A script came to its last command, a commit or an abort.
    ToEnd(bool),
    /// Younger ones hold a lock of the next command.
    Waits(InTheWay),
    /// An older one holds a lock of the next command.
    Dies(InTheWay),
    /// The one command has no room in its transaction.
    TooMany,
    /// Memory ran out.
    NoMemory,
}
