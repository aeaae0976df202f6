//! A file of a runtime, as a journal.
use crate::file::{JournalFile, Refused};
use city_serve::serve::write_output;
use city_serve::{Device, OutputFiles, RuntimeFiles, ServeFault};
use std::fs::{self, File, Files, OpenFile, OpenOptions};
use std::io::{self, ErrorKind, Write};
use std::os::unix::fs::MetadataExt;
use std::time::Clock;

/// How many names for an old journal are tried.
const MOST_NAMES: u64 = 100;

/// A journal's file, locked for this run.
#[derive(Drop)]
pub struct RuntimeFile<'a, R> {
    rt: &'a R,
    files: RuntimeFiles<'a, R>,
    path: String,
    /// From what the names of new files are made.
    seed: u64,
    /// The file, opened to append; none if it can't be appended to.
    file: Option<File>,
    /// How many bytes it has.
    length: u64,
    /// Whether there may be more than that, of an append that was refused.
    torn: bool,
}

impl<'a, R: Files<File = File> + AllocGlobal + Clock> RuntimeFile<'a, R> {
    /// Locks the journal of this path for this run, or waits for so many seconds. It isn't opened yet.
    pub fn lock(
        rt: &'a R,
        path: &str,
        seed: u64,
        wait: usize,
    ) -> Result<RuntimeFile<'a, R>, ServeFault> {
        let mut files = RuntimeFiles::new(rt);
        files.lock(path, wait)?;
        let path = String::from_str(rt.alloc(), path)?;
        Ok(RuntimeFile {
            rt,
            files,
            path,
            seed,
            file: None,
            length: 0,
            torn: false,
        })
    }

    /// All bytes of the journal; none if there is no such file. It has to be a plain file.
    pub fn read(&self) -> io::Result<Vec<u8>> {
        let path = self.path.as_str();
        match fs::metadata(self.rt, path) {
            Ok(found) if found.is_file() => fs::read(self.rt, path),
            Ok(_) => Err(io::Error::from(ErrorKind::InvalidInput)),
            Err(error) if error.kind() == ErrorKind::NotFound => Ok(Vec::new(self.rt.alloc())),
            Err(error) => Err(error),
        }
    }

    /// Opens the journal, to append behind its first bytes, so many; cuts off all others.
    pub fn open(&mut self, whole: usize) -> io::Result<()> {
        let file = OpenOptions::new()
            .append(true)
            .open(self.rt, self.path.as_str())?;
        let length = whole as u64;
        if file.metadata()?.len() != length {
            file.set_len(length)?;
            file.sync_data()?;
        }
        self.length = length;
        self.torn = false;
        self.file = Some(file);
        Ok(())
    }

    /// Lets other runs have the journal.
    pub fn unlock(&mut self) {
        self.files.unlock();
    }
}

/// What came of a further name for a journal.
enum Name {
    /// It had it.
    Had,
    /// It has it now.
    Given,
    /// Another file has it.
    Taken,
}

/// Keeps the journal of a path under a name with this number too: the first that no other file has. Returns the name if
/// the journal didn't have it before.
fn keep_old<R: Files<File = File> + AllocGlobal>(
    rt: &R,
    path: &str,
    number: u64,
) -> io::Result<Option<String>> {
    let real = match fs::canonicalize(rt, path) {
        Ok(real) => real,
        Err(error) if error.kind() == ErrorKind::NotFound => return Ok(None),
        Err(error) => return Err(error),
    };
    let own = real.as_str();
    let name = format!(in rt.alloc(); "{own}.{number}")?;
    match keep_as(rt, own, name.as_str())? {
        Name::Had => return Ok(None),
        Name::Given => return Ok(Some(name)),
        Name::Taken => {}
    }
    for turn in 1..MOST_NAMES {
        let name = format!(in rt.alloc(); "{own}.{number}.{turn}")?;
        match keep_as(rt, own, name.as_str())? {
            Name::Had => return Ok(None),
            Name::Given => return Ok(Some(name)),
            Name::Taken => {}
        }
    }
    Err(io::Error::from(ErrorKind::AlreadyExists))
}

/// Gives the journal this name too, unless it is another file's; a copy has it where a file has one name alone.
fn keep_as<R: Files<File = File>>(rt: &R, own: &str, name: &str) -> io::Result<Name> {
    match fs::symlink_metadata(rt, name) {
        Ok(found) => {
            let journal = fs::metadata(rt, own)?;
            if found.dev() == journal.dev() && found.ino() == journal.ino() {
                return Ok(Name::Had);
            }
            return Ok(Name::Taken);
        }
        Err(error) if error.kind() == ErrorKind::NotFound => {}
        Err(error) => return Err(error),
    }
    if fs::hard_link(rt, own, name).is_err() {
        fs::copy(rt, own, name)?;
    }
    Ok(Name::Given)
}

/// The device and the number of the file of a path, if it can be told.
fn file_at<R: Files<File = File>>(rt: &R, path: &str) -> Option<(u64, u64)> {
    match fs::metadata(rt, path) {
        Ok(found) => Some((found.dev(), found.ino())),
        Err(_) => None,
    }
}

/// Whether the path still leads to this file.
fn is_still<R: Files<File = File>>(rt: &R, path: &str, file: Option<(u64, u64)>) -> bool {
    match (file, file_at(rt, path)) {
        (Some((device, number)), Some((other_device, other_number))) => {
            device == other_device && number == other_number
        }
        _ => false,
    }
}

/// Writes a new file with these bytes, synced, and gives it the journal's name.
fn put_new<R: Files<File = File> + AllocGlobal + Clock>(
    rt: &R,
    files: &mut RuntimeFiles<'_, R>,
    path: &str,
    seed: u64,
    bytes: &[u8],
    number: u64,
) -> Result<(), Refused> {
    let Some(new) = files.create(path, seed.wrapping_add(number)) else {
        return Err(Refused);
    };
    let mut device = Device::new(new);
    let filled = write_output(&mut device, bytes);
    let mut new = device.into_inner();
    if !filled || !files.sync(&mut new) {
        files.give_up(new);
        return Err(Refused);
    }
    let journal = file_at(rt, path);
    let Ok(kept) = keep_old(rt, path, number) else {
        files.give_up(new);
        return Err(Refused);
    };
    if files.rename(new, path) {
        return Ok(());
    }
    // (a journal that goes on is no old one)
    if let Some(name) = kept {
        if is_still(rt, path, journal) {
            let _ = fs::remove_file(rt, name.as_str());
        }
    }
    Err(Refused)
}

/// Cuts what was left of an append that was refused.
fn cut_back(file: &File, length: u64, torn: &mut bool) -> Result<(), Refused> {
    if *torn {
        if file.set_len(length).is_err() {
            return Err(Refused);
        }
        *torn = false;
    }
    Ok(())
}

impl<R: Files<File = File> + AllocGlobal + Clock> JournalFile for RuntimeFile<'_, R> {
    ghost use Rattle.std.specs.Prelude.{None};

    ghost seen = { λ _. None };

    ghost may_leave = { λ _ _. ⊥ };

    fn append(&mut self, bytes: &[u8]) -> Result<(), Refused> {
        let Some(file) = &mut self.file else {
            return Err(Refused);
        };
        cut_back(file, self.length, &mut self.torn)?;
        if file.write_all(bytes).is_err() {
            self.torn = true;
            let _ = cut_back(file, self.length, &mut self.torn);
            return Err(Refused);
        }
        self.length = self.length.saturating_add(bytes.len() as u64);
        Ok(())
    }

    fn sync(&mut self) -> Result<(), Refused> {
        match &self.file {
            Some(file) if file.sync_data().is_ok() => Ok(()),
            _ => Err(Refused),
        }
    }

    fn begin(&mut self, bytes: &[u8], number: u64) -> Result<(), Refused> {
        let path = self.path.as_str();
        put_new(self.rt, &mut self.files, path, self.seed, bytes, number)?;
        self.file = None;
        if !self.files.sync_folder(self.path.as_str()) {
            return Err(Refused);
        }
        match self.open(bytes.len()) {
            Ok(()) => Ok(()),
            Err(_) => Err(Refused),
        }
    }
}
