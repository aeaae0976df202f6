//! In how many pieces a text is read.

/// In how many pieces a text may be read, each by a thread, and how many bytes of it a piece has at least.
#[derive(Clone, Copy, Drop)]
pub struct Pieces {
    pub count: usize,
    pub least: usize,
}
