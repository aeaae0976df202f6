//! Documents: their cities, their faults, and the canonical text of a city.

pub mod all_faults;
pub mod build;
pub mod each_fault;
pub mod indexed;
pub mod judge;
pub mod read;
pub mod top;
pub mod write;
