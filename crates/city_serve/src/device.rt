//! A reader or a writer, with a record of whether it has failed, and why.
ghost use Rattle.std.specs.Prelude.{◌≡◌, ◌<◌, ◌≤◌, true, false, length, take, is_some, IfOk, IfErr, IfSome, IsSome};
ghost use Rattle.std.specs.Prelude.{IsNone, OnOk, OnErr};
ghost use Rattle.std.specs.Io.KnownBytes.{Appends, Consumes, IsAtEnd, Keeps};
ghost use Rattle.city_serve.specs.Served.{IsDeviceFault};

use crate::fault::ServeFault;
use city_desk::RunFault;
use std::io::{self, ErrorKind, Read, Write};
use std::marker::Model;

/// A reader or a writer, and whether and why it has failed since it was wrapped.
///
/// A reader fails if it answers an error other than being out of memory. A writer fails if
/// it answers an error, or takes none of the bytes. Being interrupted is no failure: the
/// call is made again.
#[derive(Drop)]
pub struct Device<D> {
    inner: D,
    failure: Option<io::Error>,
}

impl<D> Model for Device<D> {
    ghost use Rattle.std.specs.Prelude.{Bool, is_some};

    ghost Value = { D × Bool };

    ghost view = { λ d. (d.inner, is_some d.failure) };
}

impl<D> Device<D> {
    /// A device that hasn't failed. Doesn't allocate.
    pub fn new(inner: D) -> Self
        ensures { result ≡ (inner, false) }
    {
        Device {
            inner,
            failure: None,
        }
    }

    /// Why it failed, if it has: its last error.
    pub fn failure(&self) -> Option<io::Error>
        ensures { is_some result ≡ self.now.1 }
    {
        self.failure
    }

    /// The reader or the writer.
    pub fn into_inner(self) -> D
        ensures { result ≡ self.0 }
    {
        self.inner
    }
}

impl<R: Read> Device<R> {
    /// Reads some bytes into the chunk, and returns how many: 0 only at the end of the input.
    ///
    /// It answers `Read` if the reader fails, and `OutOfMemory` if the reader ran out of memory;
    /// either way the reader has given nothing.
    pub fn read_some(&mut self, chunk: &mut [u8]) -> Result<usize, ServeFault>
        requires { 0 < length chunk.old }
        ensures within { IfOk result (λ n. n ≤ length chunk.new) }
        ensures bytes { IfOk result (λ n.
            Consumes (R.remaining self.old.0) (R.remaining self.new.0) (take n chunk.new)) }
        ensures end { IfOk result (λ n. n ≡ 0 → IsAtEnd (R.remaining self.new.0)) }
        ensures unfailed { OnOk result (self.new.1 ≡ self.old.1) }
        ensures kept { OnErr result (Keeps (R.remaining self.old.0) (R.remaining self.new.0)) }
        ensures fault { IfErr result (IsDeviceFault self.new.1) }
    {
        for _ in 0..u64::MAX {
            match self.inner.read(chunk) {
                Ok(count) => return Ok(count),
                Err(error) => match error.kind() {
                    ErrorKind::Interrupted => {}
                    ErrorKind::OutOfMemory => return Err(ServeFault::Run(RunFault::OutOfMemory)),
                    _ => {
                        self.failure = Some(error);
                        return Err(ServeFault::Read);
                    }
                },
            }
        }
        self.failure = Some(io::Error::from(ErrorKind::Interrupted));
        Err(ServeFault::Read)
    }
}

impl<W: Write> Device<W> {
    /// Gives the writer some bytes, and returns how many it took, at least one.
    ///
    /// `None` if it fails; then it took nothing.
    pub fn write_some(&mut self, bytes: &[u8]) -> Option<usize>
        requires { 0 < length bytes.now }
        ensures taken { IfSome result (λ n. (0 < n) × (n ≤ length bytes.now)) }
        ensures written { IfSome result (λ n.
            Appends (W.contents self.old.0) (W.contents self.new.0) (take n bytes.now)) }
        ensures unfailed { IsSome result → self.new.1 ≡ self.old.1 }
        ensures kept { IsNone result → Keeps (W.contents self.old.0) (W.contents self.new.0) }
        ensures failed { IsNone result → self.new.1 ≡ true }
    {
        for _ in 0..u64::MAX {
            match self.inner.write(bytes) {
                Ok(0) => {
                    self.failure = Some(io::Error::from(ErrorKind::WriteZero));
                    return None;
                }
                Ok(count) => return Some(count),
                Err(error) => {
                    if error.kind() != ErrorKind::Interrupted {
                        self.failure = Some(error);
                        return None;
                    }
                }
            }
        }
        self.failure = Some(io::Error::from(ErrorKind::Interrupted));
        None
    }

    /// Flushes the writer, again if interrupted, and says whether it succeeded.
    pub fn flush(&mut self) -> bool
        ensures kept { Keeps (W.contents self.old.0) (W.contents self.new.0) }
        ensures unfailed { result ≡ true → self.new.1 ≡ self.old.1 }
        ensures failed { result ≡ false → self.new.1 ≡ true }
    {
        for _ in 0..u64::MAX {
            match self.inner.flush() {
                Ok(()) => return true,
                Err(error) => {
                    if error.kind() != ErrorKind::Interrupted {
                        self.failure = Some(error);
                        return false;
                    }
                }
            }
        }
        self.failure = Some(io::Error::from(ErrorKind::Interrupted));
        false
    }
}
