//! The scheduler: runs scripts in turns on one transaction core, and keeps their ends.
//!
//! - `desk`, `turn`: the desk, and its answer to a turn
//! - `attempt`: the next command of an open transaction
//! - `progress`, `replies`: how far the scripts are, and the replies of one so far
//! - `in_turn`: scripts run one after the other
//! - `shelf`: takes the changes of commits
//! - `list_shelf`, `null_shelf`: a shelf that lists the changes, and one that keeps none
//! - `ghosts`: records of the past, for contracts only
#![tactic(auto)]

mod attempt;
mod desk;
mod ghosts;
mod in_turn;
mod list_shelf;
mod null_shelf;
mod progress;
mod replies;
mod shelf;
mod turn;

pub use desk::{Desk, Finished};
pub use ghosts::opening_city::OpeningCity;
pub use in_turn::run_each;
pub use list_shelf::ListShelf;
pub use null_shelf::NullShelf;
pub use shelf::Shelf;
pub use turn::Turn;

/// The most workers that take turns. All turns are taken under one lock, so one worker at a time runs
/// a command, however many there are.
pub const MAX_WORKERS: usize = 16;
