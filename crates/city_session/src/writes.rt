//! Whether a transaction has written.

/// Whether an open transaction has written, by the replies to its commands.
#[derive(Clone, Copy)]
pub enum Writes {
    /// It has written nothing.
    Nothing,
    /// It has written something: its change isn't empty.
    Something,
    /// It had written something, and went back to a mark.
    Unsure,
}
