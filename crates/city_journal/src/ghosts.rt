//! What contracts alone see.

mod no_rule;
pub mod noted_commits;
