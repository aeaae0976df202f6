//! The desk: the scripts of two texts run on one transaction core, and the report of their ends.
//!
//! - `texts`: the two texts of a run read
//! - `serial_run`: the run of one worker
//! - `output`, `fault`: a run's output, and why it may have none
//!
//! The desk itself, its shelves and its turns belong to city_scheduler.
#![tactic(auto)]

mod fault;
mod output;
mod serial_run;
mod texts;

pub use city_scheduler::{Desk, Finished, ListShelf, NullShelf, OpeningCity, Shelf, Turn};
pub use fault::RunFault;
pub use output::{Output, output_bytes, output_bytes_by};
pub use serial_run::{run_read, run_serial, run_serial_to_city};
pub use texts::{read_texts, read_texts_by};
