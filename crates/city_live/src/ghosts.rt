//! What contracts alone see.

pub mod event;
pub mod events;
mod no_rule;
