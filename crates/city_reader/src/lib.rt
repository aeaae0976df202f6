//! Reads the tokens of JSON texts, one after another, straight from the bytes.
//!
//! - `scans`: where blanks, digits and the plain bytes of a string end
//! - `numbers`: the ends of whole numbers
//! - `small`, `whole`: whole numbers of a few digits, and of any number of digits
//! - `cursor`: the rest of a text, and the lexemes at its front
//! - `plain`: reads texts without escapes, and gives up if anything is odd
//! - `reader`: reads every text
#![tactic(auto)]

mod cursor;
mod numbers;
mod plain;
mod position;
mod reader;
mod scans;
mod small;
mod whole;

pub use position::Position;
pub use reader::Reader;
pub use scans::{few_digits_len, plain_end};
pub use whole::whole_of;
