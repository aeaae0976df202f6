//! City objects.

pub mod text;
