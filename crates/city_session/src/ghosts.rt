//! Records of the past, for contracts only.

pub mod no_rule;
pub mod opening_city;
pub mod past;
pub mod told;
