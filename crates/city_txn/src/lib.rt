//! The transaction core: one city as its open transactions have written it, with undo images.
//!
//! - `txn_core`: the core, and its answers
//! - `command_locks`: the locks of a command, how it asks for them, and the answer to expect
//! - `store`: the one city as written in place, each transaction's view of it, and commands done on it
//! - `transactions`, `undo_image`: reservations, and the previous objects of written ids
//! - `undo_logs`: the way of a transaction back to its marks
//! - `end`: how a transaction ends
//! - `reserved`, `placeholder`: room in the city for reserved ids, and the object that keeps it
#![tactic(auto)]

mod command_locks;
mod end;
pub mod placeholder;
mod reserved;
mod store;
mod transactions;
mod txn_core;
mod undo_image;
mod undo_logs;

pub use txn_core::{Conflict, Core, Prepared, Step, TxnFault};
