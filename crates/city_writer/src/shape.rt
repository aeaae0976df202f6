//! Geometries, each point as its number, and vertices.

pub mod text;
pub mod vertices;
pub mod vertices_in_pieces;
