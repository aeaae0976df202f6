//! Lets the caller of a run hold a worker or a viewer.

/// Called by the threads of a run between their steps, with no lock and no look held.
pub trait Gate {
    /// A worker is about to turn a script with so many replies in this attempt.
    fn pass(&self, script: usize, replies: usize);

    /// A viewer has looked at a version of so many changes.
    fn saw(&self, viewer: usize, edits: u64);

    /// Whether its calls return at once for any arguments. A worker may then leave out `pass`
    /// between two turns.
    fn is_open(&self) -> bool {
        false
    }
}

/// An open gate: it holds nobody.
pub struct OpenGate;

impl Gate for OpenGate {
    /// Returns at once.
    fn pass(&self, _script: usize, _replies: usize) {}

    /// Returns at once.
    fn saw(&self, _viewer: usize, _edits: u64) {}

    /// Always true.
    fn is_open(&self) -> bool {
        true
    }
}
