//! Texts with names, as files whose texts and steps contracts know.
ghost use Rattle.std.specs.Prelude.{◌≡◌, ◌≢◌, ◌++◌, true, false, IfOk, IfErr, IfSome};
ghost use Rattle.city_serve.specs.Served.{IsDeviceFault};
ghost use Rattle.city_serve.specs.Steps.{steps_if};
ghost use Rattle.city_scenarios.specs.Files.{known_text, step_of, steps_of};

use crate::known_texts::KnownTexts;
use crate::named::Named;
use crate::reader::{Reads, number_after, word_after};
use crate::taken_steps::{Kind, TakenSteps};
use crate::writer::{Taking, Writes};
use crate::written::Written;
use city_desk::RunFault;
use city_model::OutOfMemory;
use city_serve::{OutputFiles, ServeFault, TextFiles};
use std::alloc::Global;
use std::io;

/// The named texts of a file of scenarios, each as a file of its name. Some of them may be replaced, or new ones made.
///
/// Contracts know the texts of all files, unless the reader is endless, and all steps.
///
/// Habits: memory is short for the file named behind `without`; new files have room for the number of bytes behind
/// `room`; another run holds the output file for the number of seconds behind `held`; with `changed` a look finds that
/// another program changed it; all names are one file with `linked`; `unlockable`, `uncreated`, `unsynced`, `unseen`,
/// `unrenamed` and `unlisted` refuse these steps.
#[derive(Drop)]
pub struct Folder<'a> {
    alloc: Global,
    texts: KnownTexts<'a>,
    habits: &'a str,
    taken: TakenSteps,
    /// A word for each step, but for reads of files that have no named text.
    steps: Written,
    locked: bool,
    failed: bool,
    why: Option<io::Error>,
}

impl<'a> Folder<'a> {
    /// The files of these names.
    pub fn new(alloc: Global, names: &'a [Named<'a>], habits: &'a str) -> Folder<'a> {
        Folder {
            alloc,
            texts: KnownTexts::new(alloc, names, Reads::told(habits)),
            habits,
            taken: TakenSteps::none(),
            steps: Written::new(alloc),
            locked: false,
            failed: false,
            why: None,
        }
    }

    /// The words of the steps, each with a space before it; and of each replaced file its name, in a line, and its text.
    pub fn left(self) -> Result<(Vec<u8>, Vec<u8>), OutOfMemory> {
        let mut replaced = Written::new(self.alloc);
        for placed in self.texts.placed.iter().rev() {
            replaced.add_line(placed.path());
            replaced.add_bytes(placed.text());
        }
        Ok((self.steps.whole()?, replaced.whole()?))
    }

    /// Takes a step for a path, or refuses it if the habits have the other word.
    fn step(&mut self, kind: Kind, path: &str, word: &str, refused: &str) -> bool
        ensures texts { self.new.texts ≡ self.old.texts }
        ensures taken { steps_of self.new.taken ≡ steps_of self.old.taken ++ steps_if result (step_of (kind, path.now)) }
        ensures unfailed { result ≡ true → self.new.failed ≡ self.old.failed }
        ensures failed { result ≢ true → self.new.failed ≡ true }
    {
        if self.habits.contains(refused) {
            return self.refuse(word, refused);
        }
        self.steps.add(word);
        self.taken = self.taken.with(kind, path);
        true
    }

    /// Refuses a step, for the reason that this word names.
    fn refuse(&mut self, word: &str, refused: &str) -> bool
        ensures refused { result ≡ false }
        ensures texts { self.new.texts ≡ self.old.texts }
        ensures taken { self.new.taken ≡ self.old.taken }
        ensures failed { self.new.failed ≡ true }
    {
        self.failed = true;
        self.why = Some(io::Error::other(refused));
        self.steps.add(" not");
        self.steps.add(word);
        false
    }

    /// The text of a file; notes why there is none.
    fn text(&mut self, path: &str) -> Result<Vec<u8>, ServeFault>
        ensures read { IfOk result (λ v. IfSome (known_text self.old.texts path.now) (λ all. v.items ≡ all)) }
        ensures fault { IfErr result (IsDeviceFault true) }
        ensures texts { self.new.texts ≡ self.old.texts }
        ensures taken { self.new.taken ≡ self.old.taken }
    {
        if word_after(self.habits, "without ") == Some(path) {
            return Err(ServeFault::Run(RunFault::OutOfMemory));
        }
        match self.texts.read(self.alloc, path) {
            Ok(text) => {
                self.why = None;
                Ok(text)
            }
            Err((fault, why)) => {
                self.why = why;
                Err(fault)
            }
        }
    }
}

impl TextFiles for Folder<'_> {
    ghost use Rattle.std.specs.Prelude.{Some};
    ghost use Rattle.city_scenarios.specs.Files.{known_text, steps_of};

    ghost text = { λ files. known_text files.texts };

    ghost steps = { λ files. Some (steps_of files.taken) };

    fn read(&mut self, path: &str) -> Result<Vec<u8>, ServeFault> {
        let text = self.text(path)?;
        if self.locked && self.texts.is_named(path) {
            self.steps.add(" read");
        }
        self.taken = self.taken.with(Kind::Read, path);
        Ok(text)
    }

    fn why(&self) -> Option<io::Error> {
        self.why
    }
}

impl OutputFiles for Folder<'_> {
    ghost use Rattle.std.specs.Prelude.{true};

    type New = Taking;

    ghost is_synced = { λ _. true };

    ghost are_known = { true };

    ghost have_failed = { λ files. files.failed };

    fn are_same(&self, one: &str, other: &str) -> bool {
        one == other || self.habits.contains("linked")
    }

    fn lock(&mut self, path: &str, wait: usize) -> Result<(), ServeFault> {
        if number_after(self.habits, "held ").is_some_and(|seconds| wait < seconds) {
            self.steps.add(" in use");
            return Err(ServeFault::InUse);
        }
        if !self.step(Kind::Lock, path, " locked", "unlockable") {
            return Err(ServeFault::Write);
        }
        self.locked = true;
        Ok(())
    }

    fn create(&mut self, path: &str, _seed: u64) -> Option<Taking> {
        if !self.step(Kind::Create, path, " created", "uncreated") {
            return None;
        }
        let room = number_after(self.habits, "room ");
        Some(Taking::new(self.alloc, Writes::told("", room)))
    }

    fn sync(&mut self, _new: &mut Taking) -> bool {
        self.step(Kind::Sync, "", " synced", "unsynced")
    }

    fn look_again(&mut self, path: &str) -> Result<(), ServeFault> {
        if self.habits.contains("changed") {
            self.steps.add(" changed");
            return Err(ServeFault::Changed);
        }
        if !self.step(Kind::LookAgain, path, " looked", "unseen") {
            return Err(ServeFault::Write);
        }
        Ok(())
    }

    fn rename(&mut self, new: Taking, path: &str) -> bool {
        if self.habits.contains("unrenamed") {
            return self.refuse(" renamed", "unrenamed");
        }
        match self.texts.place(self.alloc, path, new.into_whole()) {
            Ok(()) => {
                self.steps.add(" renamed");
                self.taken = self.taken.with(Kind::Rename, path);
                true
            }
            Err(OutOfMemory) => {
                self.steps.run_out();
                self.failed = true;
                false
            }
        }
    }

    fn sync_folder(&mut self, path: &str) -> bool {
        self.step(Kind::SyncFolder, path, " listed", "unlisted")
    }

    fn give_up(&mut self, _new: Taking) {
        self.failed = true;
        self.steps.add(" given up");
        self.taken = self.taken.with(Kind::GiveUp, "");
    }

    fn unlock(&mut self) {
        self.locked = false;
        self.steps.add(" unlocked");
        self.taken = self.taken.with(Kind::Unlock, "");
    }
}
