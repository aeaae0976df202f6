//! Diagnostics: all faults of a text, each with its place, the problem and the cure.
//!
//! - `check`: all faults of a document or of scripts, and warnings, a line of JSON for each; `line`: one such line
//! - `explain`: one fault, or each refused script of a run, in indented lines for a person
#![tactic(auto)]

mod check;
mod explain;
mod line;

pub use check::{check_document, check_scripts, warn_scripts};
pub use city_details::{Past, Refusal, RefusedAt, Sight, why};
pub use explain::{
    explain_document, explain_ends, explain_refusal, explain_scripts, is_refused, shown_name,
};
