//! Scripts, with their commands and vertices.

pub mod command;
pub mod text;
pub mod write;
