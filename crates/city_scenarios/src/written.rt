//! The answers of verbs, as far as memory goes.
use city_model::OutOfMemory;
use std::alloc::Global;
use std::fmt::{self, Debug, Display, Write};

/// Bytes written one after another, and whether memory ran out for some of them. The writer goes on then; `whole`
/// returns the error.
#[derive(Drop)]
pub struct Written {
    bytes: Vec<u8>,
    short: bool,
}

impl Written {
    /// Nothing yet.
    pub fn new(alloc: Global) -> Written {
        Written {
            bytes: Vec::new(alloc),
            short: false,
        }
    }

    /// The bytes so far.
    pub fn as_slice(&self) -> &[u8] {
        self.bytes.as_slice()
    }

    /// All bytes.
    pub fn whole(self) -> Result<Vec<u8>, OutOfMemory> {
        if self.short {
            return Err(OutOfMemory);
        }
        Ok(self.bytes)
    }

    /// Notes that memory ran out.
    pub fn run_out(&mut self) {
        self.short = true;
    }

    /// Adds bytes.
    pub fn add_bytes(&mut self, bytes: &[u8]) {
        if self.bytes.extend_from_slice(bytes).is_err() {
            self.short = true;
        }
    }

    /// Adds bytes, and a newline unless they end with one.
    pub fn add_lines(&mut self, bytes: &[u8]) {
        self.add_bytes(bytes);
        if !bytes.ends_with(b"\n") {
            self.add("\n");
        }
    }

    /// Adds bytes written elsewhere.
    pub fn add_written(&mut self, other: &Written) {
        if other.short {
            self.short = true;
        }
        self.add_bytes(other.as_slice());
    }

    /// Adds text.
    pub fn add(&mut self, text: &str) {
        self.add_bytes(text.as_bytes());
    }

    /// Adds a line.
    pub fn add_line(&mut self, line: &str) {
        self.add(line);
        self.add("\n");
    }

    /// Adds a value by `Display`.
    pub fn show<T: Display>(&mut self, value: &T) {
        if write!(self, "{value}").is_err() {
            self.short = true;
        }
    }

    /// Adds a value by `Debug`.
    pub fn show_debug<T: Debug>(&mut self, value: &T) {
        if write!(self, "{value:?}").is_err() {
            self.short = true;
        }
    }

    /// Adds `now` unless it equals `last`.
    pub fn add_unlike(&mut self, last: &mut Written, now: Written) {
        if now.short || now.as_slice() != last.as_slice() {
            self.add_written(&now);
            *last = now;
        }
    }
}

impl Write for Written {
    fn write_str(&mut self, text: &str) -> fmt::Result {
        self.add(text);
        Ok(())
    }
}
