//! The program's answers to command lines.
//!
//! - `program`: how a command line is answered; `tell`: what is told; `status`: how the program ends
//! - `check`: all faults of two texts, told; `explain`: the lines behind a fault's line, or a report
//! - `seen_line`: a viewer's line
//! - `live`: how a live command line is answered
//!
//! Made for a program that ends once its output is written: the city of a run is left to the end of the
//! process.
#![tactic(auto)]

mod check;
mod explain;
mod live;
mod program;
pub mod seen_line;
mod status;
mod tell;

pub use city_options::{asks_for_live, command_line};
pub use live::run_live_words;
pub use program::run_program;
pub use status::Status;
pub use tell::refuse_line;
