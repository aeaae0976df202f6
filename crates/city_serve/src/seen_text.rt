//! A text that was read from the output file, to know it again.
use crate::target::{is_file_of, leads_to_place};
use std::fs::{self, File, Files, Metadata};
use std::hash::{DefaultHasher, Hasher};
use std::io::{self, ErrorKind, Read};
use std::os::unix::fs::MetadataExt;
use std::path::PathBuf;
use std::time::Clock;

/// How many bytes are read at a time.
const PIECE: usize = 64 * 1024;

/// For how many seconds behind a file's last change another one may get the same time.
const UNSETTLED: i64 = 2;

/// Which file it is, how long, and when it was changed last.
#[derive(Clone, Copy, PartialEq)]
struct Stamp {
    dev: u64,
    ino: u64,
    size: u64,
    modified: (i64, i64),
    changed: (i64, i64),
}

impl Stamp {
    fn of(found: &Metadata) -> Stamp {
        Stamp {
            dev: found.dev(),
            ino: found.ino(),
            size: found.size(),
            modified: (found.mtime(), found.mtime_nsec()),
            changed: (found.ctime(), found.ctime_nsec()),
        }
    }
}

/// A text that was read from the output file, and the file as it was before.
#[derive(Drop)]
pub(crate) struct SeenText {
    stamp: Stamp,
    /// Whether a later change would have got another time.
    settled: bool,
    length: u64,
    hash: u64,
}

impl SeenText {
    /// The state of a file that was opened by its path, before it is read. `None` if neither the path
    /// nor the file is the output file's: another program may have replaced that since.
    pub fn begin<R: Files<File = File> + AllocGlobal + Clock>(
        rt: &R,
        file: &File,
        path: &str,
        output: &PathBuf,
    ) -> io::Result<Option<SeenText>> {
        let found = file.metadata()?;
        if !leads_to_place(rt, path, output) && !is_file_of(rt, &found, output)? {
            return Ok(None);
        }
        Ok(Some(SeenText {
            stamp: Stamp::of(&found),
            settled: is_settled(rt, &found),
            length: 0,
            hash: 0,
        }))
    }

    /// The text that was read then.
    pub fn end(self, text: &[u8]) -> SeenText {
        let mut hasher = DefaultHasher::new();
        hasher.write(text);
        SeenText {
            length: text.len() as u64,
            hash: hasher.finish(),
            ..self
        }
    }

    /// Whether the file of this path still has the text. Its bytes are read only if it isn't the
    /// same file, of the same length and times.
    pub fn is_still<R: Files<File = File>>(&self, rt: &R, path: &PathBuf) -> io::Result<bool> {
        match fs::symlink_metadata(rt, path.as_str()) {
            Ok(found) if !found.is_file() => return Ok(false),
            Ok(found) if self.settled && Stamp::of(&found) == self.stamp => return Ok(true),
            Ok(_) => {}
            Err(error) if error.kind() == ErrorKind::NotFound => return Ok(false),
            Err(error) => return Err(error),
        }
        self.is_text_of(fs::open(rt, path.as_str())?)
    }

    /// Whether a file has the text: so many bytes with this hash.
    fn is_text_of(&self, mut file: File) -> io::Result<bool> {
        let mut hasher = DefaultHasher::new();
        let mut chunk = [0; PIECE];
        let mut length: u64 = 0;
        for _ in 0..u64::MAX {
            match file.read(&mut chunk) {
                Ok(0) => return Ok(length == self.length && hasher.finish() == self.hash),
                Ok(count) => {
                    hasher.write(&chunk[..count]);
                    length = length.saturating_add(count as u64);
                    if self.length < length {
                        return Ok(false);
                    }
                }
                Err(error) if error.kind() == ErrorKind::Interrupted => {}
                Err(error) => return Err(error),
            }
        }
        Ok(false)
    }
}

/// Whether a file was changed last so long ago that a later change gets another time. Where the clock
/// isn't known it may not be so.
fn is_settled<R: Clock>(rt: &R, found: &Metadata) -> bool {
    let last = found.mtime().max(found.ctime());
    match rt.since_1970() {
        Ok(now) => match i64::try_from(now.as_secs()) {
            Ok(now) => last.saturating_add(UNSETTLED) < now,
            Err(_) => false,
        },
        Err(_) => false,
    }
}
