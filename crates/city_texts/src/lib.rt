//! Reads lawful texts of city models, documents and scripts, straight into cities and scripts, at once and in pieces
//! by several workers.
//!
//! `specs/` of city_tokens says what a text stands for; no word is said here of faults. If anything about a text is
//! odd there is no answer, and the text has to be read from its tree.
//!
//! - `document`, `scripts`: the two texts
//! - `cuts`, `part`, `run`, `items`, `runs`, `in_pieces`: texts with pieces read by several workers
//! - `stretches`: the points in the place of positions, by several workers
//! - `pieces`: in how many pieces a text is read
#![tactic(auto)]

mod cuts;
mod document;
mod in_pieces;
mod items;
mod part;
mod pieces;
mod run;
mod runs;
mod scripts;
mod stretches;

pub use document::{city_in_pieces, is_text, streamed_city, streamed_city_by};
pub use pieces::Pieces;
pub use scripts::{scripts_in_pieces, streamed_scripts, streamed_scripts_by};
