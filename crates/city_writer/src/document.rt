//! Whole documents: at once, and in pieces.

pub mod in_pieces;
pub mod points_in_pieces;
pub mod text;
pub mod write;
