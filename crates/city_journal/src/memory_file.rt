//! A file in memory.
ghost use Rattle.std.specs.Prelude.{◌≡◌, Some};
ghost use Rattle.city_journal.specs.Files.{IsKept, LeavesFirst};

use crate::file::{JournalFile, Refused};
use std::alloc::Global;

/// A file in memory, which may have little room, or refuse to sync.
#[derive(Drop)]
pub struct MemoryFile {
    alloc: Global,
    bytes: Vec<u8>,
    /// How many of the bytes are synced.
    synced: usize,
    /// How many bytes it takes at most.
    room: usize,
    /// How many further syncs succeed.
    syncs: usize,
}

impl MemoryFile {
    /// A file with these bytes, all of them synced.
    pub fn new(alloc: Global, bytes: Vec<u8>) -> MemoryFile
        ensures { (result.bytes.items ≡ bytes.items) × IsKept (Some bytes.items) (LeavesFirst result.synced bytes.items) }
    {
        let synced = bytes.len();
        MemoryFile {
            alloc,
            bytes,
            synced,
            room: usize::MAX,
            syncs: usize::MAX,
        }
    }

    /// Takes so many bytes at most from now on, and syncs so often.
    pub fn limit(&mut self, room: usize, syncs: usize) {
        self.room = room;
        self.syncs = syncs;
    }

    /// Its bytes. Doesn't allocate.
    pub fn bytes(&self) -> &[u8] {
        self.bytes.as_slice()
    }

    /// What a crash leaves at least. Doesn't allocate.
    pub fn synced(&self) -> usize {
        self.synced
    }
}

impl JournalFile for MemoryFile {
    ghost use Rattle.std.specs.Prelude.{Some};
    ghost use Rattle.city_journal.specs.Files.{LeavesFirst};

    ghost seen = { λ f. Some f.bytes.items };

    ghost may_leave = { λ f. LeavesFirst f.synced f.bytes.items };

    fn append(&mut self, bytes: &[u8]) -> Result<(), Refused> {
        if self.room.saturating_sub(self.bytes.len()) < bytes.len() {
            return Err(Refused);
        }
        match self.bytes.extend_from_slice(bytes) {
            Ok(()) => Ok(()),
            Err(_) => Err(Refused),
        }
    }

    fn sync(&mut self) -> Result<(), Refused> {
        if self.syncs == 0 {
            return Err(Refused);
        }
        self.syncs -= 1;
        self.synced = self.bytes.len();
        Ok(())
    }

    fn begin(&mut self, bytes: &[u8], _number: u64) -> Result<(), Refused> {
        match bytes.to_vec(self.alloc) {
            Ok(bytes) => {
                self.synced = bytes.len();
                self.bytes = bytes;
                Ok(())
            }
            Err(_) => Err(Refused),
        }
    }
}
