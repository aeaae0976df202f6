//! The model saved.
ghost use Rattle.std.specs.Prelude.{◌≡◌, OnOk, Some};
ghost use Rattle.city_server.specs.Asked.{EachTold, IsSaved, IsSaveTold, model_version};
ghost use Rattle.city_server.specs.Sessions.{Adds};

use crate::server::Server;
use city_journal::{JournalFile, ModelSum};
use city_lines::{Form, LineFault};
use city_live::{Answer, Request, Tag, Unwritten, What};
use city_members::copied::Copied;
use city_members::text::Text;
use city_model::OutOfMemory;
use city_model::city::City;
use city_serve::{OutputFiles, filled_new, place};

/// Why a model isn't saved.
#[derive(Clone, Copy)]
pub(crate) enum Unsaved {
    NoMemory,
    /// A step on the output file or the journal was refused, or another program changed the file.
    CannotWrite,
}

impl From<OutOfMemory> for Unsaved {
    fn from(_: OutOfMemory) -> Unsaved {
        Unsaved::NoMemory
    }
}

impl<D: JournalFile + Drop> Server<'_, D> {
    /// Saves the model for a hand, and tells it so.
    pub(crate) fn save_for<F: OutputFiles>(
        &mut self,
        files: &mut F,
        hand: Text,
        tag: Tag,
    ) -> Result<(), OutOfMemory>
        ensures { OnOk result (Adds (IsSaved self.old.told.decimals self.old.told.line hand tag
            self.old.hands self.new.hands) self.old.told self.new.told) }
    {
        let Some(path) = self.output else {
            return self.refuse(Some(hand), tag, LineFault::NoOutput);
        };
        match self.hands.handle(hand, tag, Request::Model) {
            Ok(answers) => self.save_each(files, path, answers.as_slice()),
            Err(OutOfMemory) => self.refuse(None, None, LineFault::NoMemory),
        }
    }

    /// Saves the model that the engine answers with, and tells what came of it; tells all other answers.
    fn save_each<F: OutputFiles>(
        &mut self,
        files: &mut F,
        path: &str,
        answers: &[Answer],
    ) -> Result<(), OutOfMemory>
        ensures told { OnOk result (Adds (EachTold (λ a.
            IsSaveTold self.old.told.decimals self.old.told.line a (model_version a.what)) answers.now)
            self.old.told self.new.told) }
        ensures hands { self.new.hands ≡ self.old.hands }
    {
        for answer in answers {
            self.save_by(files, path, answer)?;
        }
        Ok(())
    }

    /// Saves the model of an answer, and tells what came of it; tells any other answer.
    fn save_by<F: OutputFiles>(
        &mut self,
        files: &mut F,
        path: &str,
        answer: &Answer,
    ) -> Result<(), OutOfMemory>
        ensures told { OnOk result (Adds (IsSaveTold self.old.told.decimals self.old.told.line answer.now
            (model_version answer.now.what)) self.old.told self.new.told) }
        ensures hands { self.new.hands ≡ self.old.hands }
    {
        match &answer.what {
            What::Model(city, version) => {
                let saved = self.save(files, path, city, *version);
                self.tell_saving(answer, *version, saved)
            }
            _ => self.told.tell(answer, Form::Plain),
        }
    }

    /// Tells a hand what came of its save.
    fn tell_saving(
        &mut self,
        answer: &Answer,
        version: u64,
        saved: Result<(), Unsaved>,
    ) -> Result<(), OutOfMemory>
        ensures told { OnOk result (Adds (IsSaveTold self.old.told.decimals self.old.told.line answer.now
            (Some version)) self.old.told self.new.told) }
        ensures hands { self.new.hands ≡ self.old.hands }
    {
        let fault = match saved {
            Ok(()) => return self.told.tell_saved(&answer.hand, &answer.tag, version),
            Err(Unsaved::NoMemory) => LineFault::NoMemory,
            Err(Unsaved::CannotWrite) => LineFault::CannotWrite,
        };
        let hand = answer.hand.copy(self.told.alloc)?;
        let tag = answer.tag.copy(self.told.alloc)?;
        self.told.refuse(Some(hand), tag, fault)
    }

    /// Writes a city to the file of this path, replaced whole, and begins the journal anew over it, unless the file had
    /// this version already.
    pub(crate) fn save<F: OutputFiles>(
        &mut self,
        files: &mut F,
        path: &str,
        city: &City,
        version: u64,
    ) -> Result<(), Unsaved>
        ensures told { self.new.told ≡ self.old.told }
        ensures hands { self.new.hands ≡ self.old.hands }
    {
        let mut text = self.told.model_text(city)?;
        let sum = ModelSum::of(text.as_slice());
        if text.push(b'\n').is_err() {
            return Err(Unsaved::NoMemory);
        }
        let Some(new) = filled_new(files, self.told.seed, path, text.as_slice()) else {
            return Err(Unsaved::CannotWrite);
        };
        let is_new = self.saved != Some(version);
        if self.note_new(is_new, &sum).is_err() {
            files.give_up(new);
            return Err(Unsaved::CannotWrite);
        }
        if place(files, new, path).is_err() {
            return Err(Unsaved::CannotWrite);
        }
        if self.end_new(is_new, &sum, version).is_err() {
            return Err(Unsaved::CannotWrite);
        }
        self.saved = Some(version);
        drop(text);
        // (the file is known again, so that the next save finds changes by others)
        let _ = files.read(path);
        Ok(())
    }

    /// Notes a save in the journal, if it is a new one.
    fn note_new(&mut self, is_new: bool, sum: &ModelSum) -> Result<(), Unwritten>
        ensures told { self.new.told ≡ self.old.told }
        ensures hands { self.new.hands ≡ self.old.hands }
    {
        if !is_new {
            return Ok(());
        }
        self.note_save(sum)
    }

    /// Begins the journal anew over the model that was saved, if the save is a new one.
    fn end_new(&mut self, is_new: bool, sum: &ModelSum, version: u64) -> Result<(), Unwritten>
        ensures told { self.new.told ≡ self.old.told }
        ensures hands { self.new.hands ≡ self.old.hands }
    {
        if !is_new {
            return Ok(());
        }
        self.hands.journal_mut().end_save(sum, version)
    }

    /// Notes a save in the journal, and brings that to the disk.
    fn note_save(&mut self, sum: &ModelSum) -> Result<(), Unwritten>
        ensures told { self.new.told ≡ self.old.told }
        ensures hands { self.new.hands ≡ self.old.hands }
    {
        let journal = self.hands.journal_mut();
        journal.begin_save(sum)?;
        journal.sync()
    }

    /// Saves the model at the end of the input, if there is an output and it doesn't have the model.
    pub(crate) fn save_at_end<F: OutputFiles>(&mut self, files: &mut F) -> Result<(), Unsaved> {
        let Some(path) = self.output else {
            return Ok(());
        };
        if self.saved == Some(self.hands.version()) {
            return Ok(());
        }
        let nobody = Text::new(String::new(self.told.alloc));
        for answer in self.hands.handle(nobody, None, Request::Model)? {
            if let What::Model(city, version) = &answer.what {
                return self.save(files, path, city, *version);
            }
        }
        Err(Unsaved::NoMemory)
    }
}
