//! The options of a run, and the command line that gives them.
//!
//! - `options`: the workers, the viewers, the form of numbers, and the output's destination
//! - `command_line`: the request of a command line
//! - `given`: the request by the options and names that it gives
//! - `live_line`: what a live command line asks for
#![tactic(auto)]

pub mod command_line;
mod given;
mod live_line;
mod options;

pub use live_line::{AskedLive, LiveLine, asks_for_live, live_by};
pub use options::{Destination, MAX_WAIT, Options};
