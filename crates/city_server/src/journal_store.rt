//! Where a session finds its journal.
ghost use Rattle.std.specs.Prelude.{OnOk};
ghost use Rattle.city_journal.specs.Files.{IsKept};

use city_journal::{JournalFile, MemoryFile, RuntimeFile};
use city_serve::ServeFault;
use std::alloc::Global;
use std::fs::{File, Files};
use std::io::{self, ErrorKind};
use std::time::Clock;

/// A journal's file, locked, that is read at the start of a session, and then grows.
pub trait JournalStore: JournalFile {
    /// All its bytes; none if it isn't there.
    fn read_all(&self, alloc: Global) -> io::Result<Vec<u8>>;

    /// Opens it to append behind its first bytes, so many; cuts off all others. What it has then is on the disk.
    fn open_behind(&mut self, whole: usize) -> io::Result<()>
        ensures { OnOk result (IsKept (Self.seen self.new) (Self.may_leave self.new)) };

    /// Lets other runs have it.
    fn let_go(&mut self);
}

/// Journals by their paths.
pub trait Journals {
    /// A journal's file.
    type Store: JournalStore + Drop;

    /// Keeps all other runs from the journal of this path. If another run holds it, waits for so many seconds at most.
    ///
    /// `InUse` if it is held all the time, `Write` if it can't be locked.
    fn lock(&mut self, path: &str, wait: usize) -> Result<Self::Store, ServeFault>;
}

impl<R: Files<File = File> + AllocGlobal + Clock> JournalStore for RuntimeFile<'_, R> {
    fn read_all(&self, _alloc: Global) -> io::Result<Vec<u8>> {
        self.read()
    }

    fn open_behind(&mut self, whole: usize) -> io::Result<()> {
        self.open(whole)
    }

    fn let_go(&mut self) {
        self.unlock();
    }
}

impl JournalStore for MemoryFile {
    fn read_all(&self, alloc: Global) -> io::Result<Vec<u8>> {
        match self.bytes().to_vec(alloc) {
            Ok(bytes) => Ok(bytes),
            Err(_) => Err(io::Error::from(ErrorKind::OutOfMemory)),
        }
    }

    // (none of its lines was cut)
    fn open_behind(&mut self, whole: usize) -> io::Result<()> {
        if whole != self.bytes().len() {
            return Err(io::Error::from(ErrorKind::InvalidInput));
        }
        match self.sync() {
            Ok(()) => Ok(()),
            Err(_) => Err(io::Error::from(ErrorKind::InvalidInput)),
        }
    }

    fn let_go(&mut self) {}
}

/// The journals of a runtime.
#[derive(Drop)]
pub struct RuntimeJournals<'a, R> {
    rt: &'a R,
    /// From what the names of new files are made.
    seed: u64,
}

impl<'a, R> RuntimeJournals<'a, R> {
    /// The journals of this runtime.
    pub fn new(rt: &'a R, seed: u64) -> RuntimeJournals<'a, R> {
        RuntimeJournals { rt, seed }
    }
}

impl<'a, R: Files<File = File> + AllocGlobal + Clock> Journals for RuntimeJournals<'a, R> {
    type Store = RuntimeFile<'a, R>;

    fn lock(&mut self, path: &str, wait: usize) -> Result<RuntimeFile<'a, R>, ServeFault> {
        RuntimeFile::lock(self.rt, path, self.seed, wait)
    }
}
