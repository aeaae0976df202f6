//! The files of a runtime.
ghost use Rattle.std.specs.Prelude.{◌≡◌, ◌≢◌, true, false, is_ok};

use crate::closed_streams::fill_closed_streams;
use crate::fault::ServeFault;
use crate::file_lock::FileLock;
use crate::new_file::{NewFile, sync_folder_of};
use crate::output_files::OutputFiles;
use crate::seen_text::SeenText;
use crate::target::{Target, is_one_file, target_of};
use crate::text_files::{TextFiles, open_noting, read_noting};
use std::fs::{self, File, Files};
use std::io;
use std::path::PathBuf;
use std::time::Clock;

/// The files of a runtime: the output file that is locked, and the text that was read from it;
/// whether a step was refused, and why the last refused call was.
#[derive(Drop)]
pub struct RuntimeFiles<'a, R> {
    rt: &'a R,
    lock: Option<FileLock>,
    seen: Option<SeenText>,
    failed: bool,
    why: Option<io::Error>,
}

impl<'a, R> RuntimeFiles<'a, R> {
    /// The files of this runtime.
    pub fn new(rt: &'a R) -> RuntimeFiles<'a, R> {
        RuntimeFiles {
            rt,
            lock: None,
            seen: None,
            failed: false,
            why: None,
        }
    }
}

impl<R: Files<File = File> + AllocGlobal + Clock> RuntimeFiles<'_, R> {
    /// Whether a step succeeded. If not, keeps the failure and why.
    fn noted(&mut self, step: io::Result<()>) -> bool
        ensures done { result ≡ is_ok step }
        ensures unfailed { result ≡ true → self.new.failed ≡ self.old.failed }
        ensures failed { result ≢ true → self.new.failed ≡ true }
    {
        if let Err(error) = step {
            self.why = Some(error);
            self.failed = true;
            return false;
        }
        true
    }

    /// The path of the locked output file behind its links, if it is a plain file.
    fn locked_path(&self) -> Option<&PathBuf> {
        match &self.lock {
            Some(
                FileLock {
                    target: Target::Plain(end),
                    ..
                },
            ) => Some(end),
            _ => None,
        }
    }

    /// A new file for the output file of a path.
    fn make(&self, path: &str, seed: u64) -> io::Result<NewFile> {
        match &self.lock {
            Some(lock) => NewFile::make(self.rt, &lock.target, path, seed),
            None => NewFile::make(self.rt, &target_of(self.rt, path)?, path, seed),
        }
    }

    /// The names beside the output file of a path, brought to the device.
    fn sync_names(&self, path: &str) -> io::Result<()> {
        match &self.lock {
            Some(lock) => sync_folder_of(self.rt, &lock.target),
            None => sync_folder_of(self.rt, &target_of(self.rt, path)?),
        }
    }

    /// Locks the output file of a path. `false` if another run holds it.
    fn take_lock(&mut self, path: &str, wait: usize) -> io::Result<bool>
        ensures { self.new.failed ≡ self.old.failed }
    {
        fill_closed_streams(self.rt)?;
        match FileLock::take(self.rt, path, wait)? {
            Some(lock) => {
                self.lock = Some(lock);
                Ok(true)
            }
            None => Ok(false),
        }
    }

    /// Whether the output file still has the text that was read from it, if one was.
    fn is_unchanged(&self) -> io::Result<bool> {
        match (&self.seen, self.locked_path()) {
            (Some(seen), Some(end)) => seen.is_still(self.rt, end),
            _ => Ok(true),
        }
    }

    /// Notes a file that was opened by its path before it is read, if it is the locked output file.
    fn begin_to_read(&self, file: &File, path: &str) -> io::Result<Option<SeenText>> {
        match self.locked_path() {
            Some(end) => SeenText::begin(self.rt, file, path, end),
            None => Ok(None),
        }
    }
}

impl<R: Files<File = File> + AllocGlobal + Clock> TextFiles for RuntimeFiles<'_, R> {
    fn read(&mut self, path: &str) -> Result<Vec<u8>, ServeFault> {
        self.why = None;
        let file = open_noting(self.rt, path, &mut self.why)?;
        let begun = match self.begin_to_read(&file, path) {
            Ok(begun) => begun,
            Err(error) => {
                self.why = Some(error);
                return Err(ServeFault::Read);
            }
        };
        let text = read_noting(self.rt.alloc(), file, &mut self.why)?;
        if let Some(begun) = begun {
            self.seen = Some(begun.end(text.as_slice()));
        }
        Ok(text)
    }

    fn why(&self) -> Option<io::Error> {
        self.why
    }
}

impl<R: Files<File = File> + AllocGlobal + Clock> OutputFiles for RuntimeFiles<'_, R> {
    type New = NewFile;

    ghost is_synced = { λ new. new.synced };

    ghost are_known = { false };

    ghost have_failed = { λ files. files.failed };

    fn are_same(&self, one: &str, other: &str) -> bool {
        one == other || are_one_plain_file(self.rt, one, other)
    }

    fn lock(&mut self, path: &str, wait: usize) -> Result<(), ServeFault> {
        match self.take_lock(path, wait) {
            Ok(true) => Ok(()),
            Ok(false) => Err(ServeFault::InUse),
            Err(error) => {
                self.why = Some(error);
                self.failed = true;
                Err(ServeFault::Write)
            }
        }
    }

    fn create(&mut self, path: &str, seed: u64) -> Option<NewFile> {
        match self.make(path, seed) {
            Ok(new) => Some(new),
            Err(error) => {
                self.why = Some(error);
                self.failed = true;
                None
            }
        }
    }

    fn sync(&mut self, new: &mut NewFile) -> bool {
        let synced = new.sync();
        self.noted(synced)
    }

    fn look_again(&mut self, _path: &str) -> Result<(), ServeFault> {
        match self.is_unchanged() {
            Ok(true) => Ok(()),
            Ok(false) => Err(ServeFault::Changed),
            Err(error) => {
                self.why = Some(error);
                self.failed = true;
                Err(ServeFault::Write)
            }
        }
    }

    fn rename(&mut self, new: NewFile, _path: &str) -> bool {
        let put = new.put(self.rt);
        self.noted(put)
    }

    fn sync_folder(&mut self, path: &str) -> bool {
        let synced = self.sync_names(path);
        self.noted(synced)
    }

    fn give_up(&mut self, new: NewFile) {
        self.failed = true;
        let why = new.drop_with(self.rt);
        if why.is_some() {
            self.why = why;
        }
    }

    fn unlock(&mut self) {
        self.seen = None;
        if let Some(lock) = self.lock.take() {
            lock.release(self.rt);
        }
    }
}

/// Whether two paths lead to one plain file that is there.
fn are_one_plain_file<R: Files<File = File>>(rt: &R, one: &str, other: &str) -> bool {
    match (fs::metadata(rt, one), fs::metadata(rt, other)) {
        (Ok(one), Ok(other)) => one.is_file() && is_one_file(&one, &other),
        _ => false,
    }
}
