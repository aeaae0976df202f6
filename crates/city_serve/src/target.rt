//! Where a path leads: to a plain file behind its links, or to something else.
use std::fs::{self, File, Files, Metadata};
use std::io::{self, ErrorKind};
use std::os::unix::fs::MetadataExt;
use std::path::PathBuf;

/// How many links are followed, as the system does.
const MOST_LINKS: u32 = 40;

/// How often a path is followed anew, since another run replaces its file meanwhile.
const MOST_TURNS: u32 = 100;

/// What an output file is.
#[derive(Drop)]
pub(crate) enum Target {
    /// A plain file that is there, or may be made: its path behind all links.
    Plain(PathBuf),
    /// A device, a pipe or a terminal.
    Device,
}

/// Whether two files that are there are one.
pub(crate) fn is_one_file(one: &Metadata, other: &Metadata) -> bool {
    one.dev() == other.dev() && one.ino() == other.ino()
}

/// Whether a path leads to the place of a plain file: the same name in the same folder, whatever file
/// stands there. If a link can't be followed or a folder not looked at, it doesn't.
pub(crate) fn leads_to_place<R: Files<File = File> + AllocGlobal>(
    rt: &R,
    path: &str,
    place: &PathBuf,
) -> bool {
    match target_of(rt, path) {
        Ok(Target::Plain(end)) => {
            end.file_name() == place.file_name() && has_folder_of(rt, &end, place)
        }
        _ => false,
    }
}

/// Whether two paths are of one folder.
fn has_folder_of<R: Files<File = File>>(rt: &R, one: &PathBuf, other: &PathBuf) -> bool {
    match (
        fs::metadata(rt, folder_of(one)),
        fs::metadata(rt, folder_of(other)),
    ) {
        (Ok(one), Ok(other)) => is_one_file(&one, &other),
        _ => false,
    }
}

/// What a path leads to. Refused for a folder, and where a link can't be followed.
///
/// Links are followed one by one, by their own texts: no path of the working folder is asked for,
/// which may be too long, and a link whose file isn't there leads to where it would be.
pub(crate) fn target_of<R: Files<File = File> + AllocGlobal>(
    rt: &R,
    path: &str,
) -> io::Result<Target> {
    if path.is_empty() {
        return Err(io::Error::from(ErrorKind::NotFound));
    }
    for _ in 0..MOST_TURNS {
        if let Some(target) = target_at_once(rt, path)? {
            return Ok(target);
        }
    }
    Err(io::Error::from(ErrorKind::InvalidInput))
}

/// What a path leads to. `None` if the file at the end of its links isn't the path's: another run has
/// replaced it meanwhile, or the links' texts aren't the way to it.
fn target_at_once<R: Files<File = File> + AllocGlobal>(
    rt: &R,
    path: &str,
) -> io::Result<Option<Target>> {
    match fs::metadata(rt, path) {
        Ok(found) if found.is_dir() => Err(io::Error::from(ErrorKind::IsADirectory)),
        Ok(found) if !found.is_file() => Ok(Some(Target::Device)),
        Ok(found) => {
            let end = behind_links(rt, path)?;
            if is_file_of(rt, &found, &end)? {
                Ok(Some(Target::Plain(end)))
            } else {
                Ok(None)
            }
        }
        Err(error) if error.kind() == ErrorKind::NotFound => {
            Ok(Some(Target::Plain(behind_links(rt, path)?)))
        }
        Err(error) => Err(error),
    }
}

/// Whether this is the file of a path, which is no link.
pub(crate) fn is_file_of<R: Files<File = File>>(
    rt: &R,
    found: &Metadata,
    path: &PathBuf,
) -> io::Result<bool> {
    match fs::symlink_metadata(rt, path.as_str()) {
        Ok(there) => Ok(is_one_file(found, &there)),
        Err(error) if error.kind() == ErrorKind::NotFound => Ok(false),
        Err(error) => Err(error),
    }
}

/// The path behind all links that a path leads through, whether or not a file is there.
fn behind_links<R: Files<File = File> + AllocGlobal>(rt: &R, path: &str) -> io::Result<PathBuf> {
    let mut at = PathBuf::from_str(rt.alloc(), path)?;
    for _ in 0..=MOST_LINKS {
        match fs::symlink_metadata(rt, at.as_str()) {
            Ok(found) if found.is_symlink() => at = next_of(rt, &at)?,
            Ok(_) => return Ok(at),
            Err(error) if error.kind() == ErrorKind::NotFound => return Ok(at),
            Err(error) => return Err(error),
        }
    }
    Err(io::Error::from(ErrorKind::FilesystemLoop))
}

/// The path that a link has: a relative one counts from the link's folder.
fn next_of<R: Files<File = File> + AllocGlobal>(rt: &R, link: &PathBuf) -> io::Result<PathBuf> {
    let to = fs::read_link(rt, link.as_str())?;
    match link.parent() {
        Some(folder) => Ok(folder.join(rt.alloc(), to.as_str())?),
        None => Ok(to),
    }
}

/// The folder of a path, as it can be opened.
pub(crate) fn folder_of(path: &PathBuf) -> &str {
    match path.parent() {
        Some(parent) if !parent.as_str().is_empty() => parent.as_str(),
        _ => ".",
    }
}
