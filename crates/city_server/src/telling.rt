//! The lines that are to be written.
ghost use Rattle.std.specs.Prelude.{◌≡◌, ◌+◌, ◌++◌, ◌∷◌, [], IfOk, OnOk, None, Some, codes};
ghost use Rattle.city_lines.specs.Answers.{line_text};
ghost use Rattle.city_lines.specs.declared.answer.Form.{Form};
ghost use Rattle.city_lines.specs.Told.{committed_data, made_data, one, whole_model};
ghost use Rattle.city_writer.specs.document.Canonical.{city_text};
ghost use Rattle.city_writer.specs.internal.tree.PartTokens.{tokens_of_members};
ghost use Rattle.city_writer.specs.report.Ends.{count_data};
ghost use Rattle.city_server.specs.Answered.{IsAnswerTold, IsError, IsGivenBack, IsTold, IsWritten};
ghost use Rattle.city_server.specs.Answered.{told_number};
ghost use Rattle.city_server.specs.Sessions.{Adds};

use city_decimals::decode;
use city_doc::append_city;
use city_lines::{
    Form, LineError, LineFault, append_answer, append_ended, append_error, append_made,
    append_model, append_saved, whole_model,
};
use city_live::{Answer, Tag};
use city_members::copied::Copied;
use city_members::text::Text;
use city_model::OutOfMemory;
use city_model::city::City;
use std::alloc::Global;

/// Whole lines that are to be written, and what they are written by.
#[derive(Drop)]
pub(crate) struct Telling {
    pub alloc: Global,
    /// The seed by which points are hashed.
    pub seed: u64,
    /// Whether numbers of any form are taken, and given back as they were written.
    pub decimals: bool,
    /// The number of the line that is handled, from 1.
    pub line: u64,
    /// The lines that are to be written.
    pub answers: Vec<u8>,
}

impl Telling {
    /// One more line is handled.
    pub fn count(&mut self)
        ensures line { self.new.line ≡ told_number (self.old.line + 1) }
        ensures decimals { self.new.decimals ≡ self.old.decimals }
        ensures answers { self.new.answers ≡ self.old.answers }
    {
        self.line = self.line.saturating_add(1);
    }

    /// Tells an answer of the engine. If memory runs out for it, its hand is told that.
    pub fn tell(&mut self, answer: &Answer, form: Form) -> Result<(), OutOfMemory>
        ensures { OnOk result (Adds (IsAnswerTold self.old.decimals self.old.line form answer.now) self.old self.new) }
    {
        match self.written(answer, form) {
            Ok(line) => self.push(line),
            Err(OutOfMemory) => {
                let hand = answer.hand.copy(self.alloc)?;
                let tag = answer.tag.copy(self.alloc)?;
                self.refuse(Some(hand), tag, LineFault::NoMemory)
            }
        }
    }

    /// The line of an answer of the engine.
    fn written(&self, answer: &Answer, form: Form) -> Result<Vec<u8>, OutOfMemory>
        ensures { IfOk result (λ v. IsTold self.now.decimals self.now.line form answer.now
            (whole_model form answer.now.what) v.items) }
    {
        match whole_model(form, &answer.what) {
            Some((city, version)) => self.model_line(answer, city, version),
            None => self.answer_line(answer, form),
        }
    }

    /// The line of an answer with a model whole.
    fn model_line(&self, answer: &Answer, city: &City, version: u64) -> Result<Vec<u8>, OutOfMemory>
        ensures { IfOk result (λ v. (form : Form) → IsTold self.now.decimals self.now.line form answer.now
            (Some (city.now, version)) v.items) }
    {
        let text = self.model_text(city)?;
        let (hand, room) = (answer.hand.as_str(), Vec::new(self.alloc));
        let line = append_model(hand, &answer.tag, version, text.as_slice(), room)?;
        Ok(line)
    }

    /// The line of an answer without a whole model.
    fn answer_line(&self, answer: &Answer, form: Form) -> Result<Vec<u8>, OutOfMemory>
        ensures { IfOk result (λ v. IsTold self.now.decimals self.now.line form answer.now None v.items) }
    {
        let room = Vec::new(self.alloc);
        let line = append_answer(self.alloc, self.seed, self.line, form, answer, room)?;
        self.given_line(line)
    }

    /// The canonical text of a city, its numbers as they were written.
    pub fn model_text(&self, city: &City) -> Result<Vec<u8>, OutOfMemory>
        ensures { IfOk result (λ v. IsGivenBack self.now.decimals (city_text city.now) v.items) }
    {
        let text = append_city(self.alloc, self.seed, Vec::new(self.alloc), city)?;
        self.given_back(text)
    }

    /// A text, with its numbers as they were written.
    fn given_back(&self, text: Vec<u8>) -> Result<Vec<u8>, OutOfMemory>
        ensures { IfOk result (λ v. IsGivenBack self.now.decimals text.items v.items) }
    {
        if !self.decimals {
            return Ok(text);
        }
        // (what is written here is JSON, so only memory can run out)
        match decode(self.alloc, text.as_slice()) {
            Ok(decoded) => Ok(decoded),
            Err(_) => Err(OutOfMemory),
        }
    }

    /// A line with its newline, with its numbers as they were written.
    fn given_line(&self, line: Vec<u8>) -> Result<Vec<u8>, OutOfMemory>
        ensures { IfOk result (λ v. IsWritten self.now.decimals line.items v.items) }
    {
        if !self.decimals {
            return Ok(line);
        }
        // (what is written here is JSON, so only memory can run out)
        match decode(self.alloc, line.as_slice()) {
            Ok(decoded) => ended(decoded),
            Err(_) => Err(OutOfMemory),
        }
    }

    /// Adds a line to those that are to be written.
    fn push(&mut self, line: Vec<u8>) -> Result<(), OutOfMemory>
        ensures { OnOk result (Adds (λ out. out ≡ line.items) self.old self.new) }
    {
        if self.answers.is_empty() {
            self.answers = line;
            return Ok(());
        }
        self.answers.extend_from_slice(line.as_slice())?;
        Ok(())
    }

    /// Tells why a line isn't done.
    pub fn tell_error(&mut self, error: &LineError) -> Result<(), OutOfMemory>
        ensures { OnOk result (Adds (IsError self.old.decimals error.now.hand error.now.tag) self.old self.new) }
    {
        let line = append_error(self.alloc, self.line, error, Vec::new(self.alloc))?;
        let line = self.given_line(line)?;
        self.push(line)
    }

    /// Tells a hand, if it is known, why its request isn't done.
    pub fn refuse(
        &mut self,
        hand: Option<Text>,
        tag: Tag,
        fault: LineFault,
    ) -> Result<(), OutOfMemory>
        ensures { OnOk result (Adds (IsError self.old.decimals hand tag) self.old self.new) }
    {
        self.tell_error(&LineError { hand, tag, fault })
    }

    /// Tells which version a commit with a key made, or that none was made.
    pub fn tell_made(
        &mut self,
        hand: &Text,
        tag: &Tag,
        version: Option<u64>,
    ) -> Result<(), OutOfMemory>
        ensures { OnOk result (Adds (λ out. IsWritten self.old.decimals (line_text (Some hand.now) tag.now
            (tokens_of_members (one (codes "made") (made_data version)))) out) self.old self.new) }
    {
        let line = append_made(hand.as_str(), tag, version, Vec::new(self.alloc))?;
        let line = self.given_line(line)?;
        self.push(line)
    }

    /// Tells the end of a commit of this name that is known by its key.
    pub fn tell_known_end(
        &mut self,
        hand: &Text,
        tag: &Tag,
        name: &Text,
        version: u64,
    ) -> Result<(), OutOfMemory>
        ensures { OnOk result (Adds (λ out. IsWritten self.old.decimals (line_text (Some hand.now) tag.now
            (tokens_of_members (one (codes "ended") (committed_data name.now version)))) out) self.old self.new) }
    {
        let room = Vec::new(self.alloc);
        let line = append_ended(hand.as_str(), tag, name.as_str(), version, room)?;
        let line = self.given_line(line)?;
        self.push(line)
    }

    /// Tells that the model of this version is saved.
    pub fn tell_saved(&mut self, hand: &Text, tag: &Tag, version: u64) -> Result<(), OutOfMemory>
        ensures { OnOk result (Adds (λ out. IsWritten self.old.decimals (line_text (Some hand.now) tag.now
            (tokens_of_members (one (codes "saved") (count_data version)))) out) self.old self.new) }
    {
        let line = append_saved(hand.as_str(), tag, version, Vec::new(self.alloc))?;
        let line = self.given_line(line)?;
        self.push(line)
    }
}

/// The bytes, and a newline.
fn ended(bytes: Vec<u8>) -> Result<Vec<u8>, OutOfMemory>
    ensures { IfOk result (λ v. v.items ≡ bytes.items ++ 10 ∷ []) }
{
    let mut line = bytes;
    line.push(b'\n')?;
    Ok(line)
}
