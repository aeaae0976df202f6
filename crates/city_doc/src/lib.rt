//! Reads and judges the texts of city models, and writes them and reports through `city_writer`.
//!
//! Each thing has a folder for its reader and its judge. `specs/` and `proofs/` have the same folders.
//!
//! - `tree`: JSON trees: a text parsed, members and items taken out
//! - `shape`: geometries: the form of boundaries, their points, vertices
//! - `object`: city objects: their bodies, their lists of ids
//! - `document`: whole documents: their tops, their cities, their faults, the canonical text
//! - `report`: the report of a run, in pieces if it is long
//! - `pieces`: the number of pieces in which a text is read, or a city or a report is written
//! - `fault`: why a text is refused
#![tactic(auto)]

mod document;
mod fault;
mod object;
mod pieces;
mod report;
mod shape;
mod tree;

pub use city_texts::Pieces;
pub use city_tokens::MAX_TEXT;
pub use city_writer::{FIXED_SEED, VertexPool, append_report, write_report};
pub use document::all_faults::faults_of;
pub use document::read::{read_city, read_city_by};
pub use document::write::{append_city, append_city_by, write_city};
pub use fault::{ReadFault, alone};
pub use object::body::body_of;
pub use object::faults::{has_bad_vertex, is_bad_geometry, type_of, unsupported_name};
pub use pieces::{LEAST_PIECE, pieces_for};
pub use report::append_report_by;
pub use shape::geometry::geometries_of;
pub use shape::vertices::points_of;
pub use tree::parse::{TextFault, parse};
pub use tree::texts::{has_other_item, texts_of};
pub use tree::values::{into_array, into_text, to_text};
