//! What exists for the proofs only.
//!
//! - `origin`: a run's opening city and scripts, as a type

pub mod origin;
