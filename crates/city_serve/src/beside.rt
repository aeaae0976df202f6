//! Names beside a file.
use city_model::OutOfMemory;
use std::alloc::Global;
use std::hash::{DefaultHasher, Hasher};
use std::path::PathBuf;

/// The most bytes of a name, on the usual file systems.
const MOST_NAME: usize = 255;

/// How many bytes the hash of a name takes, with its hyphen.
const HASH: usize = 17;

/// The path of a name beside the file of this path: the file's own name with an ending, in at most
/// `MOST_NAME` bytes. Where it would be longer, the end of the file's name gives way to its hash.
///
/// The same path and ending give the same name in every run.
pub(crate) fn beside(
    alloc: Global,
    target: &PathBuf,
    ending: &str,
) -> Result<PathBuf, OutOfMemory> {
    let own = target.file_name().unwrap_or("");
    let mut name = String::new(alloc);
    if own.len().saturating_add(ending.len()) <= MOST_NAME {
        name.push_str(own)?;
    } else {
        let room = MOST_NAME.saturating_sub(ending.len().saturating_add(HASH));
        push_front(&mut name, own, room)?;
        let hash = hash_of(own);
        name.push_str(format!(in alloc; "-{hash:016x}")?.as_str())?;
    }
    name.push_str(ending)?;
    target.with_file_name(alloc, name.as_str())
}

/// Adds the first characters of a text, as many as fit so many bytes.
fn push_front(name: &mut String, text: &str, room: usize) -> Result<(), OutOfMemory> {
    let mut left = room;
    for c in text.chars() {
        let size = c.len_utf8();
        if left < size {
            return Ok(());
        }
        left -= size;
        name.push(c)?;
    }
    Ok(())
}

/// A number for a text, the same in every run.
fn hash_of(text: &str) -> u64 {
    let mut hasher = DefaultHasher::new();
    hasher.write(text.as_bytes());
    hasher.finish()
}
