//! Members of JSON objects that are kept without being read, and the values that they are made of.
//!
//! - `text`, `sequence`: texts as bytes for contracts, lists as items
//! - `copied`, `shared`: copies, and values shared by copies
//! - `kept`, `members`, `integral`: members kept unread, as JSON trees
//! - `attributes`, `same_value`: attributes set, taken out and compared
#![tactic(auto)]

mod attributes;
pub mod copied;
pub mod integral;
pub mod kept;
pub mod members;
pub mod same_value;
pub mod sequence;
pub mod shared;
pub mod text;

/// The one error for being out of memory, the same unit type in all crates.
pub use std::alloc::AllocError as OutOfMemory;
