//! Encodes a JSON text for an editor of whole numbers, and decodes the editor's output.
//!
//! `encode` gives a text of whole numbers, `decode` the numbers exactly as written; not a digit is
//! lost.
//!
//! - a number not written as an `i64` is an object with its text: `{"#":"0.25"}`
//! - a text or an array under `#` is shielded: it stands in an array, so no object is mistaken for a number
//! - under `attributes`, such a number is shielded, and so is an array like its shield: an object there was an object
//! - a `transform` at the top is framed: the identity stands there, with the transform under `#`
#![tactic(auto)]

mod arrays;
mod compact;
mod copier;
mod decoding;
mod direction;
mod encoding;
mod fault;
mod in_place;
mod laws;
mod lines;
mod needle;
mod numbers;
mod search;
mod shapes;
mod text;
mod transcode;

pub use decoding::decode;
pub use encoding::encode;
pub use fault::DecimalsFault;
pub use laws::{what_is_edited, what_is_kept};
pub use lines::decode_lines;

/// The one error for being out of memory, under the project's word for it.
pub(crate) use std::alloc::AllocError as OutOfMemory;
