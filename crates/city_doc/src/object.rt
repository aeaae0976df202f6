//! City objects from their trees, and the faults of these.

pub mod body;
pub mod faults;
pub mod ids;
