//! The canonical form of a city model with numbers of any form.
//!
//! `canonical` writes a model as the editor does, and keeps each number exactly as written.
//!
//! - `canonical_form`: the canonical form
//! - `fault`: why a text has none
//! - `laws`: the effect of commands on attributes
#![tactic(auto)]

mod canonical_form;
mod fault;
mod laws;

pub use canonical_form::canonical;
pub use fault::CanonicalFault;
pub use laws::edits_alike;
