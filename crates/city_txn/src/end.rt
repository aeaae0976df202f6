//! How a transaction ends.

/// How a transaction ends.
#[derive(Clone, Copy)]
pub enum End {
    /// Its writes stay, and are committed.
    Commit,
    /// Its writes are undone.
    RollBack,
}
