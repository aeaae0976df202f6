//! A journal while it is read, line by line.
ghost use Rattle.std.specs.Prelude.{◌≡◌, ◌≢◌, ◌+◌, ◌^◌, ◌<◌, ℕ, List, Bool, Option, Err, option_copied, option_map};
ghost use Rattle.std.specs.Prelude.{true, IfOk, IfSome, IsSomeAnd, MatchResult};
ghost use Rattle.std.specs.Str.{IsUtf8};
ghost use Rattle.json.specs.Print.{quoted};
ghost use Rattle.city_journal.specs.LineTexts.{base_text};
ghost use Rattle.city_journal.specs.Names.{HasName, KeyFits};
ghost use Rattle.city_journal.specs.Reads.{IsNext, begun, reading_so_far, with_commit, with_said};
ghost use Rattle.city_journal.specs.Said.{Said, said_text};
ghost use Rattle.city_journal.specs.Skipped.{IsSkippedLine, TellsSkipped};
ghost use Rattle.city_journal.specs.Sums.{IsSum};
ghost use Rattle.city_journal.specs.declared.fault.JournalFault.{JournalFault};
ghost use Rattle.city_journal.specs.declared.reading.Taken.{Taken};

use crate::fault::JournalFault;
use crate::keys::Keys;
use crate::line::{CommitLine, KeyLine, Line, base_of};
use crate::line_parts::{name_of, text_of};
use crate::model_sum::ModelSum;
use crate::read::Commit;
use city_model::OutOfMemory;
use std::alloc::Global;

/// A place in a journal where the model is known: its sum, and how many commits stand before.
#[derive(Clone, Copy, Drop)]
pub(crate) struct Place {
    pub sum: ModelSum,
    pub before: usize,
}

/// The lines so far.
#[derive(Drop)]
pub(crate) struct Reading<'a> {
    alloc: Global,
    pub decimals: bool,
    /// The version behind the lines so far.
    pub version: u64,
    pub commits: Vec<Commit<'a>>,
    pub places: Vec<Place>,
    pub keys: Keys,
}

/// What became of a line.
#[derive(Clone, Copy, Drop, PartialEq, Eq)]
pub(crate) enum Taken {
    /// It is taken.
    Stands,
    /// It is no line of a journal, and nothing was taken.
    Damaged,
}

impl<'a> Reading<'a> {
    /// A journal that begins with this line. `None` if it isn't a journal's first.
    pub fn begin(alloc: Global, line: &[u8]) -> Result<Option<Reading<'a>>, OutOfMemory>
        ensures written { (sum : List ℕ) (decimals : Bool) (version : ℕ) → IsSum sum → version < 2 ^ 64
            → line.now ≡ base_text sum decimals version → IfOk result (λ o. IsSomeAnd o (λ r.
            (r.decimals ≡ decimals) × (reading_so_far r ≡ begun sum version))) }
    {
        let Some(base) = base_of(line) else {
            return Ok(None);
        };
        let mut places = Vec::new(alloc);
        places.push(Place {
            sum: base.sum,
            before: 0,
        })?;
        Ok(Some(Reading {
            alloc,
            decimals: base.decimals,
            version: base.version,
            commits: Vec::new(alloc),
            places,
            keys: Keys::new(alloc),
        }))
    }

    /// Takes a line that isn't the first, with this number.
    pub fn take(&mut self, line: &'a [u8], number: usize) -> Result<Taken, JournalFault>
        ensures written { (s : Said) → IsNext self.old.version s → line.now ≡ said_text s
            → MatchResult result
            (λ t. (t ≡ Taken.Stands) × (reading_so_far self.new ≡ with_said (reading_so_far self.old) s))
            (λ f. f ≡ JournalFault.OutOfMemory) }
        ensures skipped { IsSkippedLine self.old.version line.now → MatchResult result (λ _. ⊥) TellsSkipped }
    {
        match Line::of(self.alloc, line)? {
            Some(Line::Commit(commit)) => self.take_commit(commit, number),
            Some(Line::Saved(sum)) => self.take_place(sum),
            Some(Line::Key(key)) => self.take_key(key),
            Some(Line::Base(_base)) => Ok(Taken::Damaged),
            None => Ok(Taken::Damaged),
        }
    }

    /// Takes the line of a save.
    fn take_place(&mut self, sum: ModelSum) -> Result<Taken, JournalFault>
        ensures written { MatchResult result
            (λ t. (t ≡ Taken.Stands)
            × (reading_so_far self.new ≡ with_said (reading_so_far self.old) (Said.Saved sum.bytes)))
            (λ f. f ≡ JournalFault.OutOfMemory) }
    {
        let before = self.commits.len();
        self.places.push(Place { sum, before })?;
        Ok(Taken::Stands)
    }

    /// Takes the line of a commit.
    fn take_commit(&mut self, commit: CommitLine<'a>, number: usize) -> Result<Taken, JournalFault>
        ensures written { (key : Option (List ℕ)) → option_copied commit.entry.key ≡ option_map quoted key
            → KeyFits key commit.entry.script.now → commit.entry.version ≡ self.old.version + 1
            → MatchResult result
            (λ t. (t ≡ Taken.Stands) × (reading_so_far self.new
            ≡ with_commit (reading_so_far self.old) commit.entry.script.now commit.entry.version))
            (λ f. f ≡ JournalFault.OutOfMemory) }
        ensures skipped { commit.entry.version ≢ self.old.version + 1 → result ≡ Err (JournalFault.BadVersion number) }
    {
        if Some(commit.version) != self.version.checked_add(1) {
            return Err(JournalFault::BadVersion(number));
        }
        if let Some(key) = commit.key {
            if !note_key(self.alloc, &mut self.keys, key, &commit)? {
                return Ok(Taken::Damaged);
            }
        }
        self.commits.push(Commit {
            script: commit.script,
            version: commit.version,
        })?;
        self.version = commit.version;
        Ok(Taken::Stands)
    }

    /// Takes the line of a key.
    fn take_key(&mut self, line: KeyLine<'a>) -> Result<Taken, JournalFault>
        ensures written { (key name : List ℕ) → IsUtf8 key → IsUtf8 name → line.entry.key.now ≡ quoted key
            → line.entry.name.now ≡ quoted name
            → MatchResult result (λ t. t ≡ Taken.Stands) (λ f. f ≡ JournalFault.OutOfMemory) }
        ensures same { reading_so_far self.new ≡ reading_so_far self.old }
    {
        let Some(key) = text_of(self.alloc, line.key)? else {
            return Ok(Taken::Damaged);
        };
        let Some(name) = text_of(self.alloc, line.name)? else {
            return Ok(Taken::Damaged);
        };
        self.keys.note(&key, &name, line.version)?;
        Ok(Taken::Stands)
    }
}

/// Notes the key of a commit, if it is a text and the commit's script has a name.
fn note_key(
    alloc: Global,
    keys: &mut Keys,
    key: &[u8],
    commit: &CommitLine<'_>,
) -> Result<bool, OutOfMemory>
    ensures { (s : List ℕ) → IsUtf8 s → HasName commit.now.script.now → key.now ≡ quoted s
        → IfOk result (λ r. r ≡ true) }
{
    let Some(key) = text_of(alloc, key)? else {
        return Ok(false);
    };
    let Some(name) = name_of(alloc, commit.script)? else {
        return Ok(false);
    };
    keys.note(&key, &name, commit.version)?;
    Ok(true)
}
