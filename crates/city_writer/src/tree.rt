//! Kept members and three whole numbers.

pub mod kept_members;
pub mod kept_value;
pub mod member_value;
pub mod text;
pub mod triples;
pub mod whole_numbers;
