//! The steps of replacing a file, in a real folder.
use city_serve::{OutputFiles, RuntimeFiles, ServeFault, TextFiles, read_file};
use std::fs::{self, File, Files, Permissions};
use std::io::{self, Write};
use std::os::unix::fs::{PermissionsExt, symlink};
use std::test::Fail;
use std::time::Clock;

/// The seed of the new files' names.
const SEED: u64 = 7;

/// A mode unlike a new file's.
const MODE: u32 = 0o751;

/// Whether a file has this text.
fn has_text<R: Files + AllocGlobal>(rt: &R, path: &str, text: &str) -> bool {
    read_file(rt, path).is_ok_and(|read| read.as_slice() == text.as_bytes())
}

/// Whether a file has this mode.
fn has_mode<R: Files>(rt: &R, path: &str, mode: u32) -> bool {
    fs::metadata(rt, path).is_ok_and(|found| found.permissions().mode() & 0o777 == mode)
}

/// Whether a folder has so many names.
fn has_names(rt: &HostRuntime, folder: &str, count: usize) -> io::Result<bool> {
    let mut left = count;
    for entry in fs::read_dir(rt, folder)? {
        let _entry = entry?;
        if left == 0 {
            return Ok(false);
        }
        left -= 1;
    }
    Ok(left == 0)
}

/// Makes a folder with one file of this text and the mode.
fn make_file<R: Files + AllocGlobal>(
    rt: &R,
    folder: &str,
    path: &str,
    text: &str,
) -> io::Result<()> {
    fs::create_dir(rt, folder)?;
    fs::write(rt, path, text)?;
    fs::set_permissions(rt, path, Permissions::from_mode(MODE))
}

/// Replaces the file of this path, in the steps of a run. Returns whether each step succeeded.
fn replace<R: Files<File = File> + AllocGlobal + Clock>(rt: &R, path: &str, text: &str) -> bool {
    replace_by(&mut RuntimeFiles::new(rt), path, text)
}

/// Replaces the file of this path by these files, likewise.
fn replace_by<R: Files<File = File> + AllocGlobal + Clock>(
    files: &mut RuntimeFiles<'_, R>,
    path: &str,
    text: &str,
) -> bool {
    let Some(mut new) = files.create(path, SEED) else {
        return false;
    };
    if new.write_all(text.as_bytes()).is_err() || !files.sync(&mut new) {
        files.give_up(new);
        return false;
    }
    if files.look_again(path).is_err() {
        files.give_up(new);
        return false;
    }
    files.rename(new, path) && files.sync_folder(path)
}

/// Makes a new file with a text for this path and gives it up. Returns whether it was made.
fn begin_in_vain<R: Files<File = File> + AllocGlobal + Clock>(
    rt: &R,
    path: &str,
    text: &str,
) -> bool {
    let mut files = RuntimeFiles::new(rt);
    let Some(mut new) = files.create(path, SEED) else {
        return false;
    };
    let written = new.write_all(text.as_bytes()).is_ok() && files.sync(&mut new);
    files.give_up(new);
    written
}

#[test]
fn a_replaced_file_has_the_new_text_and_its_mode(rt: HostRuntime) -> Result<(), Fail> {
    make_file(&rt, "replaced", "replaced/model", "old")?;
    for text in ["a longer text", "", "short"] {
        assert!(rt; replace(&rt, "replaced/model", text), "{text}");
        assert!(rt; has_text(&rt, "replaced/model", text), "{text}");
        assert!(rt; has_mode(&rt, "replaced/model", MODE), "{text}");
        assert!(rt; has_names(&rt, "replaced", 1)?, "{text}");
    }
    assert!(rt; replace(&rt, "replaced/another", "where there was no file"));
    assert!(rt; has_text(&rt, "replaced/another", "where there was no file"));
    assert!(rt; has_names(&rt, "replaced", 2)?);
    fs::remove_dir_all(&rt, "replaced")?;
    Ok(())
}

#[test]
fn a_new_file_that_is_given_up_is_gone(rt: HostRuntime) -> Result<(), Fail> {
    make_file(&rt, "given_up", "given_up/model", "old")?;
    assert!(rt; begin_in_vain(&rt, "given_up/model", "new"));
    assert!(rt; has_text(&rt, "given_up/model", "old"));
    assert!(rt; has_mode(&rt, "given_up/model", MODE));
    assert!(rt; has_names(&rt, "given_up", 1)?);
    fs::remove_dir_all(&rt, "given_up")?;
    Ok(())
}

#[test]
fn a_folder_is_not_replaced_and_a_link_stays_one(rt: HostRuntime) -> Result<(), Fail> {
    make_file(&rt, "linked", "linked/model", "old")?;
    fs::create_dir(&rt, "linked/folder")?;
    assert!(rt;
        RuntimeFiles::new(&rt)
            .create("linked/folder", SEED)
            .is_none()
    );
    symlink(&rt, "model", "linked/link")?;
    assert!(rt; replace(&rt, "linked/link", "new"));
    assert!(rt; fs::symlink_metadata(&rt, "linked/link")?.is_symlink());
    assert!(rt; has_text(&rt, "linked/model", "new"));
    assert!(rt; has_names(&rt, "linked", 3)?);
    fs::remove_dir_all(&rt, "linked")?;
    Ok(())
}

#[test]
fn two_new_files_of_one_path_have_two_names(rt: HostRuntime) -> Result<(), Fail> {
    make_file(&rt, "twice", "twice/model", "old")?;
    let mut files = RuntimeFiles::new(&rt);
    let first = files.create("twice/model", SEED);
    assert!(rt; replace(&rt, "twice/model", "new"));
    assert!(rt; has_names(&rt, "twice", 2)?);
    let Some(first) = first else {
        return Err(Fail::from(io::Error::from(io::ErrorKind::NotFound)));
    };
    files.give_up(first);
    assert!(rt; has_text(&rt, "twice/model", "new"));
    assert!(rt; has_names(&rt, "twice", 1)?);
    fs::remove_dir_all(&rt, "twice")?;
    Ok(())
}

#[test]
fn one_of_two_runs_locks_a_file(rt: HostRuntime) -> Result<(), Fail> {
    make_file(&rt, "locked", "locked/model", "old")?;
    symlink(&rt, "model", "locked/link")?;
    let (mut first, mut second) = (RuntimeFiles::new(&rt), RuntimeFiles::new(&rt));
    assert!(rt; first.lock("locked/model", 0).is_ok());
    for (path, wait) in [
        ("locked/model", 0),
        ("locked/link", 0),
        ("locked/./model", 1),
    ] {
        assert!(rt;
            matches!(second.lock(path, wait), Err(ServeFault::InUse)),
            "{path}"
        );
    }
    assert!(rt; second.lock("locked/another", 0).is_ok());
    second.unlock();
    assert!(rt; replace_by(&mut first, "locked/model", "new"));
    assert!(rt; matches!(second.lock("locked/link", 0), Err(ServeFault::InUse)));
    first.unlock();
    assert!(rt; has_names(&rt, "locked", 2)?);
    assert!(rt; second.lock("locked/link", 0).is_ok());
    assert!(rt; matches!(first.lock("locked/model", 0), Err(ServeFault::InUse)));
    second.unlock();
    assert!(rt; has_names(&rt, "locked", 2)?);
    fs::remove_dir_all(&rt, "locked")?;
    Ok(())
}

#[test]
fn a_file_that_changed_since_it_was_read_stays(rt: HostRuntime) -> Result<(), Fail> {
    make_file(&rt, "changed", "changed/model", "old")?;
    for (text, stays) in [("odd", true), ("longer", true), ("", true), ("old", false)] {
        fs::write(&rt, "changed/model", "old")?;
        let mut files = RuntimeFiles::new(&rt);
        assert!(rt; files.lock("changed/model", 0).is_ok());
        assert!(rt; files.read("changed/model").is_ok());
        fs::write(&rt, "changed/model", text)?;
        let looked = files.look_again("changed/model");
        assert!(rt;
            matches!(looked, Err(ServeFault::Changed)) == stays,
            "{text}"
        );
        assert!(rt;
            replace_by(&mut files, "changed/model", "new") != stays,
            "{text}"
        );
        files.unlock();
        let left = if stays { text } else { "new" };
        assert!(rt; has_text(&rt, "changed/model", left), "{text}");
        assert!(rt; has_names(&rt, "changed", 1)?, "{text}");
    }
    fs::remove_dir_all(&rt, "changed")?;
    Ok(())
}

#[test]
fn what_a_dangling_link_leads_to_is_made(rt: HostRuntime) -> Result<(), Fail> {
    make_file(&rt, "dangling", "dangling/model", "old")?;
    symlink(&rt, "new", "dangling/link")?;
    symlink(&rt, "../dangling/link", "dangling/chain")?;
    symlink(&rt, "loop", "dangling/loop")?;
    let mut files = RuntimeFiles::new(&rt);
    assert!(rt; matches!(files.lock("dangling/loop", 0), Err(ServeFault::Write)));
    for path in ["dangling/link", "dangling/chain"] {
        assert!(rt; files.lock(path, 0).is_ok(), "{path}");
        assert!(rt; replace_by(&mut files, path, path), "{path}");
        files.unlock();
        assert!(rt; has_text(&rt, "dangling/new", path), "{path}");
        assert!(rt; fs::symlink_metadata(&rt, path)?.is_symlink(), "{path}");
        assert!(rt; has_names(&rt, "dangling", 5)?, "{path}");
        fs::remove_file(&rt, "dangling/new")?;
    }
    fs::remove_dir_all(&rt, "dangling")?;
    Ok(())
}

#[test]
fn a_file_of_a_long_name_is_replaced(rt: HostRuntime) -> Result<(), Fail> {
    fs::create_dir(&rt, "long")?;
    for length in [231, 232, 243, 244, 255] {
        let mut path = String::new(rt.alloc());
        path.push_str("long/")?;
        for _ in 0..length {
            path.push_str("n")?;
        }
        for text in ["first", "second"] {
            let mut files = RuntimeFiles::new(&rt);
            assert!(rt; files.lock(path.as_str(), 0).is_ok(), "{length}");
            assert!(rt; replace_by(&mut files, path.as_str(), text), "{length}");
            files.unlock();
            assert!(rt; has_text(&rt, path.as_str(), text), "{length}");
            assert!(rt; has_names(&rt, "long", 1)?, "{length}");
        }
        fs::remove_file(&rt, path.as_str())?;
    }
    fs::remove_dir_all(&rt, "long")?;
    Ok(())
}
