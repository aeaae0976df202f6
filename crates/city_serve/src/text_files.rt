//! Texts from files.
ghost use Rattle.std.specs.Prelude.{◌≡◌, ◌+◌, ℕ, true, take, is_ok, List, Option, None, IfOk, IfErr, IfSome, OnOk};
ghost use Rattle.city_tokens.specs.tree.Texts.{max_text};
ghost use Rattle.city_serve.specs.Served.{IsDeviceFault};
ghost use Rattle.city_serve.specs.ServedTexts.{IsEnoughOf, LosesAtMost};
ghost use Rattle.city_serve.specs.Steps.{Step, Takes, steps_if};

use crate::device::Device;
use crate::fault::ServeFault;
use crate::serve::read_at_most;
use city_desk::RunFault;
use city_doc::MAX_TEXT;
use std::alloc::Global;
use std::fs;
use std::fs::Files;
use std::io::{self, ErrorKind, Read};

/// The most bytes read of a text: one more than it may have, so a text too long is noticed.
const MOST: usize = MAX_TEXT + 1;

/// Texts by their paths.
pub trait TextFiles {
    /// The text from a read of a path, if it is known.
    ghost text: { Self → List ℕ → Option (List ℕ) } = { λ _ _. None };

    /// The steps taken so far, if they are known.
    ghost steps: { Self → Option (List Step) } = { λ _. None };

    /// The text of a file; if it is too long, its first `MAX_TEXT` + 1 bytes.
    fn read(&mut self, path: &str) -> Result<Vec<u8>, ServeFault>
        ensures read { IfOk result (λ v. IfSome (text self.old path.now) (λ all. v.items ≡ all)) }
        ensures fault { IfErr result (IsDeviceFault true) }
        ensures texts { text self.new ≡ text self.old }
        ensures steps { Takes (steps self.old) (steps self.new) (steps_if (is_ok result) (Step.Read path.now)) };

    /// Why the last refused call was refused, if the system said why.
    fn why(&self) -> Option<io::Error> {
        None
    }
}

/// The text of a file; if it is too long, its first `MAX_TEXT` + 1 bytes.
///
/// A file that can't be opened or read is the fault Read.
pub fn read_file<R: Files + AllocGlobal>(rt: &R, path: &str) -> Result<Vec<u8>, ServeFault>
    ensures { IfErr result (IsDeviceFault true) }
{
    let file = open_noting(rt, path, &mut None)?;
    read_noting(rt.alloc(), file, &mut None)
}

/// Opens a file for its text, and notes why it can't be opened.
pub(crate) fn open_noting<R: Files>(
    rt: &R,
    path: &str,
    why: &mut Option<io::Error>,
) -> Result<R::File, ServeFault>
    ensures { IfErr result (IsDeviceFault true) }
{
    match fs::open(rt, path) {
        Ok(file) => Ok(file),
        Err(error) => {
            *why = Some(error);
            Err(open_fault(error.kind()))
        }
    }
}

/// The text of an open file, as of `read_file`; notes why it can't be read.
pub(crate) fn read_noting<F: Read + Drop>(
    alloc: Global,
    file: F,
    why: &mut Option<io::Error>,
) -> Result<Vec<u8>, ServeFault>
    ensures { IfErr result (IsDeviceFault true) }
{
    let mut device = Device::new(file);
    let text = read_text(alloc, &mut device);
    *why = device.failure();
    text
}

/// The fault of an error of this kind in opening a file.
fn open_fault(kind: ErrorKind) -> ServeFault
    ensures { IsDeviceFault true result }
{
    match kind {
        ErrorKind::OutOfMemory => ServeFault::Run(RunFault::OutOfMemory),
        _ => ServeFault::Read,
    }
}

/// The text from a reader; if it is too long, its first `MAX_TEXT` + 1 bytes. No more are taken
/// from it.
pub fn read_text<R: Read>(alloc: Global, reader: &mut Device<R>) -> Result<Vec<u8>, ServeFault>
    ensures read { IfOk result (λ v. IfSome (R.remaining reader.old.0)
        (λ all. v.items ≡ take (max_text + 1) all)) }
    ensures enough { IfOk result (λ v. IfSome (R.remaining reader.old.0)
        (λ all. IsEnoughOf all v.items)) }
    ensures taken { LosesAtMost (max_text + 1) (R.remaining reader.old.0) (R.remaining reader.new.0) }
    ensures unfailed { OnOk result (reader.new.1 ≡ reader.old.1) }
    ensures fault { IfErr result (IsDeviceFault reader.new.1) }
{
    read_at_most(alloc, reader, MOST)
}
