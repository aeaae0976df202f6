//! A new file, before it takes the place of another.
ghost use Rattle.std.specs.Prelude.{◌≡◌, true, OnOk};

use crate::beside::beside;
use crate::target::{Target, folder_of};
use std::fs::{self, File, Files, Metadata, OpenOptions, Permissions};
use std::io::{self, ErrorKind, Write};
use std::os::unix::fs::{MetadataExt, OpenOptionsExt, PermissionsExt, chown};
use std::path::PathBuf;

/// How many names of new files are tried.
const MOST_NAMES: u64 = 100;

/// The bits of a mode without those that lend the owner's or the group's rights.
const NO_SET_ID: u32 = 0o1777;

/// The mode of a new file that takes the place of another, until it gets the other's.
const PRIVATE: u32 = 0o600;

/// A new file beside another one, under a name of its own; or a device, which gets what is written
/// once it is its turn.
#[derive(Drop)]
pub struct NewFile {
    file: File,
    place: Place,
    /// The mode that it gets once it is written, if it is another one's: a write may drop bits of it.
    mode: Option<u32>,
    synced: bool,
    /// Why its last write was refused, if it was.
    why: Option<io::Error>,
}

/// What becomes of a new file.
#[derive(Drop)]
enum Place {
    /// It takes the place of the file of the second path, and has the first until then.
    Name(PathBuf, PathBuf),
    /// The device is written to at last, with these bytes.
    Device(Vec<u8>),
}

impl NewFile {
    /// Makes a new file for what an output file is. It has the owner and the group of the file that it
    /// will replace, if there is one, and gets its mode when it is synced: see `take_over`.
    pub(crate) fn make<R: Files<File = File> + AllocGlobal>(
        rt: &R,
        target: &Target,
        path: &str,
        seed: u64,
    ) -> io::Result<NewFile> {
        let (file, place, mode) = match target {
            Target::Device => {
                let file = OpenOptions::new().write(true).open(rt, path)?;
                (file, Place::Device(Vec::new(rt.alloc())), None)
            }
            Target::Plain(end) => {
                let own = end.as_path().to_path_buf(rt.alloc())?;
                let (file, name, mode) = new_for(rt, end, seed)?;
                (file, Place::Name(name, own), mode)
            }
        };
        Ok(NewFile {
            file,
            place,
            mode,
            synced: false,
            why: None,
        })
    }

    /// Gives the new file its mode, and brings all that was written to the device. What a device gets
    /// at last isn't written yet.
    pub(crate) fn sync(&mut self) -> io::Result<()>
        ensures { OnOk result (self.new.synced ≡ true) }
    {
        if let Place::Name(_, _) = &self.place {
            if let Some(mode) = self.mode {
                self.file.set_permissions(Permissions::from_mode(mode))?;
            }
            self.file.sync_all()?;
        }
        self.synced = true;
        Ok(())
    }

    /// Gives the file's name to the new file, or its bytes to the device. Refused, the new file is
    /// removed.
    pub(crate) fn put<R: Files<File = File>>(self, rt: &R) -> io::Result<()> {
        let NewFile {
            mut file,
            place,
            mode: _,
            synced: _,
            why: _,
        } = self;
        match place {
            Place::Name(name, end) => {
                let renamed = fs::rename(rt, name.as_str(), end.as_str());
                if renamed.is_err() {
                    remove(rt, &name);
                }
                renamed
            }
            Place::Device(bytes) => file.write_all(bytes.as_slice()),
        }
    }

    /// Removes the new file, and says why its last write was refused, if it was.
    pub(crate) fn drop_with<R: Files<File = File>>(self, rt: &R) -> Option<io::Error> {
        if let Place::Name(name, _) = &self.place {
            remove(rt, name);
        }
        self.why
    }
}

impl Write for NewFile {
    fn write(&mut self, buf: &[u8]) -> io::Result<usize> {
        self.synced = false;
        let written = match &mut self.place {
            Place::Name(_, _) => self.file.write(buf),
            Place::Device(bytes) => match bytes.extend_from_slice(buf) {
                Ok(()) => Ok(buf.len()),
                Err(error) => Err(io::Error::from(error)),
            },
        };
        self.why = written.as_ref().err().copied();
        written
    }

    fn flush(&mut self) -> io::Result<()> {
        self.file.flush()
    }
}

/// Brings the names in the folder of a file to the device. If the folder can't be synced, since it
/// can't be read or the system doesn't sync folders, there is no error.
pub(crate) fn sync_folder_of<R: Files<File = File>>(rt: &R, target: &Target) -> io::Result<()> {
    let Target::Plain(end) = target else {
        return Ok(());
    };
    match fs::open(rt, folder_of(end)).and_then(|folder| folder.sync_all()) {
        Err(error) if !is_unable(error.kind()) => Err(error),
        _ => Ok(()),
    }
}

/// Whether an error says a folder can't be synced at all.
fn is_unable(kind: ErrorKind) -> bool {
    matches!(
        kind,
        ErrorKind::InvalidInput | ErrorKind::Unsupported | ErrorKind::PermissionDenied
    )
}

/// Makes a new file for the plain file of this path, and takes over what that has, if it is there:
/// owner and group at once, and the mode later.
fn new_for<R: Files<File = File> + AllocGlobal>(
    rt: &R,
    end: &PathBuf,
    seed: u64,
) -> io::Result<(File, PathBuf, Option<u32>)> {
    let old = match fs::symlink_metadata(rt, end.as_str()) {
        Ok(found) if found.is_file() => Some(found),
        Ok(_) => return Err(io::Error::from(ErrorKind::InvalidInput)),
        Err(error) if error.kind() == ErrorKind::NotFound => None,
        Err(error) => return Err(error),
    };
    let (file, name) = create_new(rt, end, seed, old.is_some())?;
    let Some(old) = old else {
        return Ok((file, name, None));
    };
    match take_over(rt, &file, &name, &old) {
        Ok(mode) => Ok((file, name, Some(mode))),
        Err(error) => {
            remove(rt, &name);
            Err(error)
        }
    }
}

/// Gives a new file the owner and the group of an old one, and returns the mode for it: the old one's.
/// Where owner or group may not be given, the bits of the mode that lend their rights are left out.
fn take_over<R: Files<File = File>>(
    rt: &R,
    new: &File,
    name: &PathBuf,
    old: &Metadata,
) -> io::Result<u32> {
    let made = new.metadata()?;
    let name = name.as_str();
    let owned = made.uid() == old.uid() || chown(rt, name, Some(old.uid()), None).is_ok();
    let grouped = made.gid() == old.gid() || chown(rt, name, None, Some(old.gid())).is_ok();
    let mode = old.permissions().mode();
    if owned && grouped {
        Ok(mode)
    } else {
        Ok(mode & NO_SET_ID)
    }
}

/// Makes a new file under the first free name: the file's own, and behind it a number from the seed
/// on. One that will get another mode is private until then.
fn create_new<R: Files<File = File> + AllocGlobal>(
    rt: &R,
    end: &PathBuf,
    seed: u64,
    is_private: bool,
) -> io::Result<(File, PathBuf)> {
    let mut options = OpenOptions::new();
    options.write(true).create_new(true);
    if is_private {
        options.mode(PRIVATE);
    }
    for turn in 0..MOST_NAMES {
        let number = seed.wrapping_add(turn);
        let ending = format!(in rt.alloc(); ".cityed-{number:016x}")?;
        let name = beside(rt.alloc(), end, ending.as_str())?;
        match options.open(rt, name.as_str()) {
            Ok(file) => return Ok((file, name)),
            Err(error) if error.kind() == ErrorKind::AlreadyExists => {}
            Err(error) => return Err(error),
        }
    }
    Err(io::Error::from(ErrorKind::AlreadyExists))
}

/// Removes a new file. If that is refused it stays, and its name tells what it is.
fn remove<R: Files<File = File>>(rt: &R, name: &PathBuf) {
    let _ = fs::remove_file(rt, name.as_str());
}
