//! Writes the texts of city models, the reports of runs, and scripts.
//!
//! Each thing has a folder. `specs/` and `proofs/` have the same folders.
//!
//! - `tree`: kept members, three whole numbers
//! - `shape`: geometries, vertices
//! - `object`: city objects
//! - `document`: whole documents, at once or in pieces
//! - `report`: the report of a run: ends and replies
//! - `script`: scripts: commands, and vertices of their own
//! - `pool`: points, each with a number
//! - `piece_points`: the points of one piece, for other pieces to look up
//! - `point_numbers`: the numbers of points, as they are met or as they were given beforehand
#![tactic(auto)]

mod document;
mod object;
mod piece_points;
mod point_numbers;
mod pool;
mod report;
mod script;
mod shape;
mod tree;

pub use document::in_pieces::append_in_pieces;
pub use document::write::append_text;
pub use pool::{FIXED_SEED, VertexPool};
pub use report::end::{outcome_name, write_ending, write_refusal};
pub use report::in_pieces::append_report_in_pieces;
pub use report::reply::{write_found, write_replies, write_reply};
pub use report::write::{append_report, write_report};
pub use script::text::write_script;
pub use script::write::append_scripts;
