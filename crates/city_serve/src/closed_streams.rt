//! Standard streams that are closed when the program starts.
use std::fs::{self, File, Files};
use std::io;
use std::mem::forget;
use std::os::fd::AsRawFd;

/// The greatest number of a standard stream.
const LAST: i32 = 2;

/// Gives the numbers of closed standard streams to something that can be neither read nor written,
/// so that no file gets one of them, and with it what is meant for the stream.
///
/// That is the root folder, opened to reading, for as long as the process lasts: a stream that was
/// closed goes on failing.
pub(crate) fn fill_closed_streams<R: Files<File = File>>(rt: &R) -> io::Result<()> {
    for _ in 0..=LAST {
        let file = fs::open(rt, "/")?;
        if file.as_raw_fd() > LAST {
            return Ok(());
        }
        forget(file);
    }
    Ok(())
}
