//! A session: its hands, and the lines that are to be written.

use crate::awaited::Awaited;
use crate::telling::Telling;
use city_journal::{JournalFile, Journaling};
use city_lines::LineScratch;
use city_live::Hands;

/// A session's hands, and the answers that aren't written yet.
#[derive(Drop)]
pub(crate) struct Server<'a, D: JournalFile + Drop> {
    pub hands: Hands<Journaling<D>>,
    pub told: Telling,
    /// The path of the file that a save writes, if there is one.
    pub output: Option<&'a str>,
    /// The keys of requests that aren't over.
    pub awaited: Awaited,
    /// The memory that reading a line needs.
    pub scratch: LineScratch,
    /// The version that was saved last, if one was.
    pub saved: Option<u64>,
}
