//! Writers with habits.
ghost use Rattle.std.specs.Prelude.{◌≡◌, []};

use crate::reader::number_after;
use std::alloc::Global;
use std::io::{self, ErrorKind, Write};

/// The habits of a writer.
#[derive(Clone, Copy, Drop)]
pub struct Writes {
    /// How many at a time, at most.
    at_a_time: usize,
    /// Whether every other call is interrupted.
    busy: bool,
    /// How many bytes it takes in all.
    room: usize,
    /// Whether it takes none then, and doesn't say why.
    stuck: bool,
    /// Whether it holds its bytes until a flush.
    holds: bool,
    /// How many flushes are interrupted at first.
    unready: usize,
    /// Whether its flush fails.
    unflushed: bool,
}

impl Writes {
    /// The habits described by these words. A `room` comes before theirs.
    pub fn told(words: &str, room: Option<usize>) -> Writes {
        let full = number_after(words, "full ");
        let stuck = number_after(words, "stuck ");
        Writes {
            at_a_time: if words.contains("piecewise") {
                1
            } else {
                usize::MAX
            },
            busy: words.contains("busy"),
            room: room.or(full).or(stuck).unwrap_or(usize::MAX),
            stuck: words.contains("stuck"),
            holds: words.contains("holds"),
            unready: number_after(words, "unready ").unwrap_or(0),
            unflushed: words.contains("unflushed"),
        }
    }
}

/// A writer with habits. What was written to it is known.
#[derive(Drop)]
pub struct Taking {
    habits: Writes,
    written: Vec<u8>,
    /// How many bytes it doesn't hold any more.
    flushed: usize,
    /// Whether the next call is interrupted.
    interrupts: bool,
}

impl Taking {
    /// A writer without bytes.
    pub fn new(alloc: Global, habits: Writes) -> Taking
        ensures { result.written.items ≡ [] }
    {
        Taking {
            habits,
            written: Vec::new(alloc),
            flushed: 0,
            interrupts: habits.busy,
        }
    }

    /// Its bytes, but for those that it holds.
    pub fn into_written(self) -> Vec<u8> {
        let mut written = self.written;
        written.truncate(self.flushed);
        written
    }

    /// Its bytes, also those that it holds.
    pub fn into_whole(self) -> Vec<u8>
        ensures { result.items ≡ self.written.items }
    {
        self.written
    }
}

impl Write for Taking {
    ghost use Rattle.std.specs.Prelude.{Some};

    ghost contents = { λ writer. Some writer.written.items };

    fn write(&mut self, buf: &[u8]) -> io::Result<usize> {
        if self.interrupts {
            self.interrupts = false;
            return Err(io::Error::from(ErrorKind::Interrupted));
        }
        self.interrupts = self.habits.busy;
        if self.habits.room == 0 {
            // it fails or takes none once, and would take all later bytes
            self.habits.room = usize::MAX;
            if self.habits.stuck {
                return Ok(0);
            }
            return Err(io::Error::other("full"));
        }
        let count = buf.len().min(self.habits.at_a_time).min(self.habits.room);
        self.habits.room = self.habits.room.saturating_sub(count);
        self.written.extend_from_slice(&buf[..count])?;
        if !self.habits.holds {
            self.flushed = self.written.len();
        }
        Ok(count)
    }

    fn flush(&mut self) -> io::Result<()> {
        if self.habits.unready > 0 {
            self.habits.unready = self.habits.unready.saturating_sub(1);
            return Err(io::Error::from(ErrorKind::Interrupted));
        }
        if self.habits.unflushed {
            return Err(io::Error::other("full"));
        }
        self.flushed = self.written.len();
        Ok(())
    }
}
