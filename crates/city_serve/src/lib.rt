//! Serving: a document and its scripts in, the report and the edited model out.
//!
//! - `serve`: from a reader to a writer; `serve_texts`: from two texts, borrowed or owned
//! - `run`, `decimals`: the run itself, by options
//! - `deliver`: the output to its destination, over `output_files`, replaced whole; `target`: where a path leads,
//!   `new_file`: a new file, under a name of `beside`, `file_lock`: a file's lock, `seen_text`: a text, to know it again
//! - `device`: a reader or a writer, with a record of its failure; `text_files`: a text from a file;
//!   `runtime_files`: the files of a runtime, `no_files`: none; `closed_streams`: streams that are closed at the start
//! - `texts`: the two texts at work, let go once they are read
//! - `fault`, `fault_line`: why nothing was served, and the line to report it
#![tactic(auto)]

mod beside;
mod closed_streams;
mod decimals;
mod deliver;
mod device;
mod fault;
pub mod fault_line;
mod file_lock;
mod new_file;
mod no_files;
mod output_files;
mod run;
mod runtime_files;
mod seed;
mod seen_text;
pub mod serve;
pub mod serve_texts;
mod target;
mod text_files;
mod texts;

pub use city_options::{Destination, Options};
pub use decimals::encode_text;
pub use deliver::{Delivered, filled_new, place};
pub use device::Device;
pub use fault::ServeFault;
pub use new_file::NewFile;
pub use output_files::OutputFiles;
pub use runtime_files::RuntimeFiles;
pub use seed::drawn_seed;
pub use text_files::{TextFiles, read_file, read_text};
pub use texts::{Stage, Text, Texts};
