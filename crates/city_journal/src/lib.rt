//! The journal of a live model: its commits, on the disk before anyone is told.
//!
//! - `model_sum`: the SHA-256 of a model's text; a journal names its model by it
//! - `line_sum`, `line_parts`, `line`: the lines of a journal, read; `steps`, `script_text`, `write_line`: written
//! - `keys`: the keys of the last commits, so none is made twice
//! - `read`, `reading`: a whole journal read; `fault`: why one is refused
//! - `replaying`: its commits, made again on a city
//! - `file`: a file that grows; `memory_file`: one in memory; `runtime_file`: one of a runtime
//! - `journaling`: notes the commits of a live city; `noting`: lines in a file
//! - `ghosts`: seen by contracts alone; `laws`: true of all journals
#![tactic(auto)]

mod fault;
mod file;
mod ghosts;
mod journaling;
mod keys;
mod laws;
mod line;
mod line_parts;
mod line_sum;
mod memory_file;
mod model_sum;
mod noting;
mod read;
mod reading;
mod replaying;
mod runtime_file;
mod script_text;
mod steps;
mod write_line;

pub use fault::JournalFault;
pub use file::{JournalFile, Refused};
pub use journaling::Journaling;
pub use keys::{Keys, MAX_KEYS, Made};
pub use laws::what_a_crash_leaves;
pub use memory_file::MemoryFile;
pub use model_sum::ModelSum;
pub use read::{Commit, ReadJournal, read_journal};
pub use replaying::{replay, restart};
pub use runtime_file::RuntimeFile;
pub use write_line::append_beginning;
