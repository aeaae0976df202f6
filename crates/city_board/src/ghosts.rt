//! Rules and knowledge, for contracts and proofs only.
//!
//! - `board_rule`: no version is older than anybody's knowledge
//! - `history_rule`: a history only grows

pub mod board_rule;
pub mod history_rule;
