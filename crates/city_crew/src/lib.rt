//! Workers and viewers: scripts of one city run side by side, while viewers look at whole versions.
//!
//! - `run`: the run; `fault`: why it may have no output; `gate`: holds workers and viewers for a caller
//! - `threads`: the threads of a run
//! - `worker`, `batch`: the work of one worker, and its turns under one lock
//! - `shared`, `dispatcher`: what the workers share, and what they know of the desk under its lock
//! - `crew_desk`, `crew_shelf`: the desk and the shelf of a run
//! - `begin_order`, `sleepers`: the ages of the scripts, and the workers asleep
//! - `watcher`, `seen_edits`: a viewer on its thread, and what it has seen
//! - `ghosts`: the opening city and scripts as a type, for proofs only
//!
//! The board for the viewers belongs to city_board.
#![tactic(auto)]

mod batch;
mod begin_order;
mod crew_desk;
mod crew_shelf;
mod dispatcher;
mod fault;
mod gate;
mod ghosts;
mod run;
mod seen_edits;
mod shared;
mod sleepers;
mod threads;
mod watcher;
mod worker;

pub use city_board::{Look, MAX_VIEWERS, Note, Poster, Viewer, board};
pub use city_scheduler::MAX_WORKERS;
pub use gate::{Gate, OpenGate};
pub use run::{run_crew, run_crew_read, run_seeded};
