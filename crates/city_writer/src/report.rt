//! The report of a run: its lines, with their ends and replies.

pub mod end;
pub mod in_pieces;
pub mod reply;
pub mod write;
