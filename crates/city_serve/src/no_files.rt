//! No files, for runs with the model behind the report.
ghost use Rattle.std.specs.Prelude.{true, false};

use crate::fault::ServeFault;
use crate::output_files::OutputFiles;
use crate::text_files::TextFiles;
use std::io::{self, Sink};

/// No files: each step is refused.
#[derive(Drop)]
pub(crate) struct NoFiles;

impl TextFiles for NoFiles {
    fn read(&mut self, _path: &str) -> Result<Vec<u8>, ServeFault> {
        Err(ServeFault::Read)
    }
}

impl OutputFiles for NoFiles {
    ghost is_synced = { λ _. true };

    ghost are_known = { false };

    ghost have_failed = { λ _. true };

    type New = Sink;

    fn are_same(&self, _one: &str, _other: &str) -> bool {
        true
    }

    fn lock(&mut self, _path: &str, _wait: usize) -> Result<(), ServeFault> {
        Err(ServeFault::Write)
    }

    fn create(&mut self, _path: &str, _seed: u64) -> Option<Sink> {
        None
    }

    fn sync(&mut self, _new: &mut Sink) -> bool {
        false
    }

    fn look_again(&mut self, _path: &str) -> Result<(), ServeFault> {
        Err(ServeFault::Write)
    }

    fn rename(&mut self, _new: Sink, _path: &str) -> bool {
        false
    }

    fn sync_folder(&mut self, _path: &str) -> bool {
        false
    }

    fn give_up(&mut self, _new: Sink) {}

    fn unlock(&mut self) {}
}
