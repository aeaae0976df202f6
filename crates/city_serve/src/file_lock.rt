//! The lock of an output file.
//!
//! The output file itself is replaced by each run, and may not be there yet. So what is locked is a
//! file beside it, of its name with `.cityed-lock` behind: a run makes it, locks it, and removes it
//! at its end while it still holds the lock. A run that gets the lock then looks whether the file
//! that it locked still has the name. If not, whoever held the lock before has removed it, and the
//! run begins again. So at each moment at most one run holds a locked file that has the name.
//!
//! Links are followed before (`target_of`), and again once the lock is held, so all links to a file
//! have one lock, and a link that was turned meanwhile is followed anew. Two names of one file
//! (hard links) are two files to be replaced, as each rename replaces one name. The system frees the
//! lock of a process that ends, however it ends. A lock's file that a killed run leaves is taken by
//! the next run.
use crate::beside::beside;
use crate::target::{Target, is_one_file, target_of};
use std::fs::{self, File, Files, OpenOptions, TryLockError};
use std::io::{self, ErrorKind};
use std::path::PathBuf;
use std::thread;
use std::time::{Clock, Duration};

/// The ending of a lock's file.
const ENDING: &str = ".cityed-lock";

/// For how many milliseconds a run that waits sleeps between two tries.
const PAUSE: u64 = 20;

/// How often a run begins again at once, since others removed or made the lock's file meanwhile.
const MOST_TURNS: u32 = 1000;

/// An output file, locked for this run. What is no plain file isn't locked.
#[derive(Drop)]
pub(crate) struct FileLock {
    /// What the output file's path led to when it was locked.
    pub target: Target,
    /// The lock's file and its path.
    held: Option<(File, PathBuf)>,
}

/// What a try to lock comes to.
#[derive(Drop)]
enum Try {
    Locked(FileLock),
    /// Another run holds the lock.
    Held,
    /// The lock's file lost its name meanwhile, or a link was turned.
    Moved,
}

impl FileLock {
    /// Locks the file of this path, or waits for so many seconds. `None` if another run holds it all
    /// the time.
    pub fn take<R: Files<File = File> + AllocGlobal + Clock>(
        rt: &R,
        path: &str,
        wait: usize,
    ) -> io::Result<Option<FileLock>> {
        let start = rt.monotonic()?;
        let limit = Duration::from_secs(wait as u64);
        for _ in 0..u64::MAX {
            if let Some(lock) = FileLock::take_at_once(rt, path)? {
                return Ok(Some(lock));
            }
            if rt.monotonic()?.saturating_sub(start) >= limit {
                return Ok(None);
            }
            thread::sleep(rt, Duration::from_millis(PAUSE));
        }
        Ok(None)
    }

    /// Locks the file of this path. `None` if another run holds it.
    fn take_at_once<R: Files<File = File> + AllocGlobal>(
        rt: &R,
        path: &str,
    ) -> io::Result<Option<FileLock>> {
        for _ in 0..MOST_TURNS {
            match FileLock::tried(rt, path)? {
                Try::Locked(lock) => return Ok(Some(lock)),
                Try::Held => return Ok(None),
                Try::Moved => {}
            }
        }
        Ok(None)
    }

    /// Tries to lock the file of this path.
    fn tried<R: Files<File = File> + AllocGlobal>(rt: &R, path: &str) -> io::Result<Try> {
        let target = target_of(rt, path)?;
        let Target::Plain(end) = &target else {
            return Ok(Try::Locked(FileLock { target, held: None }));
        };
        let name = beside(rt.alloc(), end, ENDING)?;
        let file = opened(rt, name.as_str())?;
        match file.try_lock() {
            Ok(()) => {}
            Err(TryLockError::WouldBlock) => return Ok(Try::Held),
            Err(TryLockError::Error(error)) => return Err(error),
        }
        if !has_name(rt, &file, name.as_str())? {
            return Ok(Try::Moved);
        }
        let leads = leads_to(rt, path, end);
        let lock = FileLock {
            target,
            held: Some((file, name)),
        };
        match leads {
            Ok(true) => Ok(Try::Locked(lock)),
            Ok(false) => {
                lock.release(rt);
                Ok(Try::Moved)
            }
            Err(error) => {
                lock.release(rt);
                Err(error)
            }
        }
    }

    /// Removes the lock's file, and frees the lock. If the first is refused, the next run takes the
    /// file that is left.
    pub fn release<R: Files<File = File>>(self, rt: &R) {
        let FileLock { target: _, held } = self;
        if let Some((file, name)) = held {
            let _ = fs::remove_file(rt, name.as_str());
            drop(file);
        }
    }
}

/// Opens a lock's file, and makes it if it isn't there. One of another user may be open to reading
/// alone, which serves as well.
fn opened<R: Files<File = File>>(rt: &R, name: &str) -> io::Result<File> {
    match OpenOptions::new()
        .read(true)
        .write(true)
        .create(true)
        .open(rt, name)
    {
        Err(error) if error.kind() == ErrorKind::PermissionDenied => fs::open(rt, name),
        answer => answer,
    }
}

/// Whether a name is that of this plain file.
fn has_name<R: Files<File = File>>(rt: &R, file: &File, name: &str) -> io::Result<bool> {
    match fs::symlink_metadata(rt, name) {
        Ok(found) => Ok(found.is_file() && is_one_file(&found, &file.metadata()?)),
        Err(error) if error.kind() == ErrorKind::NotFound => Ok(false),
        Err(error) => Err(error),
    }
}

/// Whether a path still leads to the plain file of this path.
fn leads_to<R: Files<File = File> + AllocGlobal>(
    rt: &R,
    path: &str,
    end: &PathBuf,
) -> io::Result<bool> {
    match target_of(rt, path)? {
        Target::Plain(other) => Ok(other.as_str() == end.as_str()),
        Target::Device => Ok(false),
    }
}
