//! Named texts as journals, and a clock that stands still.
use crate::named::{Named, text_named};
use city_journal::MemoryFile;
use city_serve::ServeFault;
use city_server::Journals;
use std::alloc::Global;
use std::io;
use std::time::{Clock, Duration};

/// The named texts of a file of scenarios, each as a journal of its name; there is an empty one of each other name.
#[derive(Drop)]
pub struct NamedJournals<'a> {
    alloc: Global,
    names: &'a [Named<'a>],
}

impl<'a> NamedJournals<'a> {
    /// The journals of these names.
    pub fn new(alloc: Global, names: &'a [Named<'a>]) -> NamedJournals<'a> {
        NamedJournals { alloc, names }
    }
}

impl Journals for NamedJournals<'_> {
    type Store = MemoryFile;

    fn lock(&mut self, path: &str, _wait: usize) -> Result<MemoryFile, ServeFault> {
        let text = text_named(self.names, path).unwrap_or(b"");
        match text.to_vec(self.alloc) {
            Ok(bytes) => Ok(MemoryFile::new(self.alloc, bytes)),
            Err(_) => Err(ServeFault::Write),
        }
    }
}

/// A clock that stands still, at the beginning of 1970.
#[derive(Clone, Copy)]
pub struct StillClock;

impl Clock for StillClock {
    fn monotonic(&self) -> io::Result<Duration> {
        Ok(Duration::from_secs(0))
    }

    fn since_1970(&self) -> io::Result<Duration> {
        Ok(Duration::from_secs(0))
    }
}
