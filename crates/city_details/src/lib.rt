//! The diagnostic of one fault: its place, a message, a cure, and the details of its line.
//!
//! - `diagnostic`: a diagnostic; `details`: further members of its line
//! - `text`: faults of any text; `document`: of a document's top and objects; `script`: of scripts
//! - `shape`: faults of an object's type and geometry
//! - `refusal`: commands that are refused when they are run; `refusal_text`: what is told of one, as a JSON text
//! - `tree`: the tree of a text; `path`: a path to one of its values; `quoted`: a text as a JSON text
#![tactic(auto)]

mod details;
mod diagnostic;
mod document;
mod path;
mod quoted;
mod refusal;
mod refusal_text;
mod script;
mod shape;
mod text;
mod tree;

pub use details::Details;
pub use diagnostic::Diagnostic;
pub use document::{Document, ModelFault, ObjectFault};
pub use quoted::Quoted;
pub use refusal::names::cause_name;
pub use refusal::past::Past;
pub use refusal::{Refusal, RefusedAt, Sight, geometries_of, refusal_diagnostic};
pub use refusal_text::why;
pub use script::{ScriptsFault, script_diagnostic};
pub use text::{TextFault, text_diagnostic};
pub use tree::tree_of;
