//! Lines, put together of what a reader gives.
ghost use Rattle.std.specs.Prelude.{◌≡◌, ◌++◌, ◌∷◌, [], List, ℕ, IsTrue, MatchOption, Some, false};
ghost use Rattle.city_journal.specs.Lines.{IsLine};
ghost use Rattle.city_server.specs.Lines.{HasBegun, IsTaken};

use memchr::memchr;
use std::alloc::Global;
use std::mem::replace;

/// The most bytes of a line, without its newline.
pub const MAX_LINE: usize = 67_108_864;

/// How many bytes are read at a time at the most.
pub const CHUNK: usize = 65_536;

/// Why a line is skipped.
#[derive(Clone, Copy)]
pub enum Skip {
    TooLong,
    NoMemory,
}

/// The beginning of a line, more of which is still to be read.
#[derive(Drop)]
pub struct BegunLine {
    alloc: Global,
    /// What was read of the line, unless it is skipped.
    pub kept: Vec<u8>,
    /// Why the line is skipped to its end, if it is.
    pub skip: Option<Skip>,
}

impl BegunLine {
    /// No line is begun. Doesn't allocate.
    pub fn new(alloc: Global) -> BegunLine
        ensures { HasBegun result.skip result.kept.items [] }
    {
        BegunLine {
            alloc,
            kept: Vec::new(alloc),
            skip: None,
        }
    }

    /// Whether nothing of a line was read. Doesn't allocate.
    pub fn is_empty(&self) -> bool
        ensures none { IsTrue result → HasBegun self.now.skip self.now.kept.items [] }
        ensures only { IsTrue result → (begun : List ℕ) → HasBegun self.now.skip self.now.kept.items begun
            → begun ≡ [] }
        ensures some { result ≡ false → HasBegun self.now.skip self.now.kept.items [] → ⊥ }
    {
        self.skip.is_none() && self.kept.is_empty()
    }

    /// Keeps more of the line. If it is too long, or memory runs out, it is skipped to its end.
    pub fn keep(&mut self, part: &[u8])
        ensures { (begun : List ℕ) → HasBegun self.old.skip self.old.kept.items begun
            → HasBegun self.new.skip self.new.kept.items (begun ++ part.now) }
    {
        if self.skip.is_some() || part.is_empty() {
            return;
        }
        if part.len() > MAX_LINE.saturating_sub(self.kept.len()) {
            self.skip_for(Skip::TooLong);
        } else if self.kept.extend_from_slice(part).is_err() {
            self.skip_for(Skip::NoMemory);
        }
    }

    /// Skips the line to its end.
    fn skip_for(&mut self, why: Skip)
        ensures { (self.new.skip ≡ Some why) × (self.new.kept.items ≡ []) }
    {
        self.skip = Some(why);
        self.kept = Vec::new(self.alloc);
    }

    /// The line at its end, or why it was skipped. The next one begins.
    pub fn take(&mut self) -> Result<Vec<u8>, Skip>
        ensures taken { (begun : List ℕ) → HasBegun self.old.skip self.old.kept.items begun → IsTaken begun result }
        ensures next { HasBegun self.new.skip self.new.kept.items [] }
    {
        let line = replace(&mut self.kept, Vec::new(self.alloc));
        match self.skip.take() {
            None => Ok(line),
            Some(why) => Err(why),
        }
    }
}

/// The first line of some bytes, without its newline, and what stands behind that.
pub fn first_line(bytes: &[u8]) -> Option<(&[u8], &[u8])>
    ensures { MatchOption result (IsLine bytes.now)
        (λ p. IsLine p.0.now × (bytes.now ≡ p.0.now ++ 10 ∷ p.1.now)) }
{
    match memchr(b'\n', bytes) {
        None => None,
        Some(at) => Some((&bytes[..at], &bytes[at + 1..])),
    }
}
