//! Reads the parts of city models and of scripts from the tokens of their texts, straight into objects and commands.
//!
//! `specs/` says what a document and a text of scripts stand for; no word is said here of faults. If anything about a
//! part is odd there is no answer.
//!
//! - `value`, `text`, `list`: values, texts and arrays
//! - `member_visitor`: objects with members of their own beside the kept ones
//! - `position`, `vertices`, `boundaries`, `resolve`: positions, and the points in their place
//! - `geometry`, `object`, `objects`: the parts of a city
//! - `body`, `other`, `command`, `script`: bodies, other parts of commands, commands and scripts
//! - `frame`, `triples`: the frame of a document, three whole numbers, both of trees
//! - `whole_text`, `limits`: whole texts, and how large they may be
#![tactic(auto)]

mod body;
mod boundaries;
mod command;
mod frame;
mod geometry;
mod limits;
pub mod list;
pub mod member_visitor;
pub mod object;
pub mod objects;
mod other;
mod position;
pub mod resolve;
mod script;
pub mod text;
mod triples;
mod value;
pub mod vertices;
pub mod whole_text;

pub use frame::{frame_of_rest, triple_at};
pub use limits::{MAX_COMMANDS, MAX_SCRIPTS, MAX_TEXT};
pub use triples::{are_triples, triple_of};
