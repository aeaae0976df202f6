//! Zero-sized records of the past, for contracts and proofs only.
//!
//! - `opening_city`: the city at the opening of a desk or a board
//! - `taken_changes`: the changes taken by a shelf
//! - `no_rule`: the rule of a record that never grows

pub mod no_rule;
pub mod opening_city;
pub mod taken_changes;
