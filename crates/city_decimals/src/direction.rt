//! The direction of a change.

/// Whether the numbers of a text are encoded, or decoded.
#[derive(Clone, Copy, Drop)]
pub(crate) enum Direction {
    Encode,
    Decode,
}
