//! A live session: the model is held, requests come as lines of JSON, and answers go out as lines.
//!
//! - `run`: a session from its start to the end of its input; `start`: the model and the journal at the start
//! - `serve`: the lines of the input answered; `input_lines`: lines, put together of what is read
//! - `server`: the hands, and what they are told; `requests`: a line handled; `save`: the model saved
//! - `telling`: the lines that are to be written; `tell`: they are written, once the journal is synced
//! - `awaited`: the keys of requests that aren't over; `journal_store`: a journal's file
//! - `fault`: why a session ends early
#![tactic(auto)]

mod awaited;
mod fault;
mod input_lines;
mod journal_store;
mod requests;
mod run;
mod save;
mod serve;
mod server;
mod start;
mod tell;
mod telling;

pub use fault::LiveFault;
pub use input_lines::{CHUNK, MAX_LINE};
pub use journal_store::{JournalStore, Journals, RuntimeJournals};
pub use run::run_live;
