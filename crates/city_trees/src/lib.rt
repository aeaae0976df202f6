//! A persistent sequence in a balanced tree.
//!
//! - `tree`: the tree, its items by place, and changes of one
//! - `branch`: two trees put together
//! - `leaf`: the items of a leaf
//! - `built`: the tree of a vector's items
//! - `items`: the items one by one
//! - `item`: an item, shared by copies
#![tactic(auto)]

mod branch;
mod built;
pub mod item;
pub mod items;
mod leaf;
pub mod tree;

/// The one error for being out of memory, the same unit type in all crates.
pub use std::alloc::AllocError as OutOfMemory;
