//! What came of a command.
use city_model::command::Reply;

/// What came of a command in an open transaction.
#[derive(Drop)]
pub enum Acted {
    /// It was done, or refused: then it changed nothing, and the transaction goes on.
    Replied(Reply),
    /// Younger transactions hold a lock of it. Ask again once one of them has ended.
    Waits,
    /// An older transaction holds a lock of it. The transaction is still open, and has to give up, so
    /// that no two wait for each other: by `abort` if its replies were told, by `forget` if not.
    Dies,
    /// Only a commit or an abort has room left in the transaction, which is as it was.
    TooMany,
    /// Memory ran out. The transaction is as it was, and may have gained locks of the command.
    NoMemory,
}
