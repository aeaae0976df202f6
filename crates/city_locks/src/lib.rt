//! The lock table: the holders of each id, their modes, and the wait-die answer to each asker.
//!
//! - `lock_table`: the lock table, asked for one lock or for several in turn
//! - `answer`, `lock_request`: the answer to an asker, and how it stands at an id
//! - `holders`: the holders of one id, and the answer among them
//! - `holders_by_id`: the holders of every locked id
//! - `by_stamp`: lists by stamps
#![tactic(auto)]

mod answer;
pub mod by_stamp;
mod holders;
mod holders_by_id;
mod lock_request;
mod lock_table;

pub use answer::Answer;
pub use city_model::mode::Mode;
pub use holders::Holder;
pub use lock_table::LockTable;
