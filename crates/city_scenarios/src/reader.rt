//! Readers with habits.
ghost use Rattle.std.specs.Prelude.{◌≡◌, ◌≤◌, IfSome, length, take, drop};

use std::io::{self, ErrorKind, Read};

/// The habits of a reader.
#[derive(Clone, Copy, Drop)]
pub struct Reads {
    /// Whether it gives a byte at a time.
    bytewise: bool,
    /// Whether every other call is interrupted.
    interrupted: bool,
    /// After how many more bytes it fails, if it does.
    stops: Option<usize>,
    /// Whether it is out of memory then.
    starves: bool,
    /// Whether it gives spaces without end.
    endless: bool,
}

impl Reads {
    /// The habits described by these words.
    pub fn told(words: &str) -> Reads {
        let breaks = number_after(words, "breaks ");
        Reads {
            bytewise: words.contains("bytewise"),
            interrupted: words.contains("interrupted"),
            stops: breaks.or(number_after(words, "starved ")),
            starves: breaks.is_none(),
            endless: words.contains("endless"),
        }
    }
}

/// The number behind a word.
pub fn number_after(words: &str, word: &str) -> Option<usize> {
    word_after(words, word)?.parse::<usize>().ok()
}

/// The word behind a word.
pub fn word_after<'t>(words: &'t str, word: &str) -> Option<&'t str> {
    let (_, rest) = words.split_once(word)?;
    rest.split_whitespace().next()
}

/// A reader with habits. Unless it is endless, what it still has is known.
#[derive(Drop)]
pub struct Giving<'a> {
    habits: Reads,
    left: &'a [u8],
    /// Whether the next call is interrupted.
    interrupts: bool,
}

impl<'a> Giving<'a> {
    /// A reader of these bytes.
    pub fn new(habits: Reads, bytes: &'a [u8]) -> Giving<'a>
        ensures left { result.left.now ≡ bytes.now }
        ensures endless { result.habits.endless ≡ habits.endless }
    {
        Giving {
            habits,
            left: bytes,
            interrupts: habits.interrupted,
        }
    }

    /// How many bytes it gives at most at once, none only at the end; `None` if it fails instead.
    fn most(&self) -> Option<usize>
        ensures within { IfSome result (λ n. n ≤ length self.now.left.now) }
        ensures end { IfSome result (λ n. n ≡ 0 → length self.now.left.now ≡ 0) }
    {
        let most = if self.habits.bytewise {
            self.left.len().min(1)
        } else {
            self.left.len()
        };
        match self.habits.stops {
            Some(stops) if stops == 0 || self.left.is_empty() => None,
            Some(stops) => Some(most.min(stops)),
            None => Some(most),
        }
    }

    /// Why it fails.
    fn failure(&self) -> io::Error {
        if self.habits.starves {
            io::Error::from(ErrorKind::OutOfMemory)
        } else {
            io::Error::other("broken")
        }
    }

    /// Gives so many bytes.
    fn give(&mut self, given: &mut [u8])
        requires { length given.old ≤ length self.old.left.now }
        ensures given { given.new ≡ take (length given.old) self.old.left.now }
        ensures left { self.new.left.now ≡ drop (length given.old) self.old.left.now }
        ensures endless { self.new.habits.endless ≡ self.old.habits.endless }
    {
        let (now, later) = self.left.split_at(given.len());
        given.copy_from_slice(now);
        self.left = later;
        if let Some(stops) = self.habits.stops {
            self.habits.stops = Some(stops.saturating_sub(given.len()));
        }
    }
}

impl Read for Giving<'_> {
    ghost use Rattle.std.specs.Prelude.{None, Some, if◌then◌else◌};

    ghost remaining = { λ reader. if reader.habits.endless then None else Some reader.left.now };

    fn read(&mut self, buf: &mut [u8]) -> io::Result<usize> {
        if self.interrupts {
            self.interrupts = false;
            return Err(io::Error::from(ErrorKind::Interrupted));
        }
        self.interrupts = self.habits.interrupted;
        if self.habits.endless {
            buf.fill(b' ');
            return Ok(buf.len());
        }
        let Some(most) = self.most() else {
            return Err(self.failure());
        };
        let count = buf.len().min(most);
        self.give(&mut buf[..count]);
        Ok(count)
    }
}
