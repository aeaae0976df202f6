//! JSON trees: parsed from a text, and taken apart.

pub mod parse;
pub mod texts;
pub mod values;
