//! Geometries from their trees, and the form of these trees.

pub mod form;
pub mod geometry;
pub mod nested;
pub mod vertices;
