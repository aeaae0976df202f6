//! Notes the commits of a live city.
ghost use Rattle.std.specs.Prelude.{◌≡◌, ◌++◌, ◌∷◌, [], true, is_some, IfOk, IfSome, None, OnOk, OnErr};
ghost use Rattle.city_live.specs.Entering.{noted_by};
ghost use Rattle.city_journal.specs.Entries.{IsCommitLine};
ghost use Rattle.city_journal.specs.Files.{IsKept};
ghost use Rattle.city_journal.specs.Followed.{AddsCommits, TellsCommits};
ghost use Rattle.city_journal.specs.LineTexts.{saved_text};
ghost use Rattle.city_journal.specs.Kept.{Gains, GoesBy, MayTell, Stays};

use crate::file::JournalFile;
use crate::ghosts::noted_commits::NotedCommits;
use crate::keys::{Keys, Made};
use crate::model_sum::ModelSum;
use crate::noting::{note, sync};
use crate::write_line::{append_beginning, commit_line, saved_line};
use city_live::{Entry, Journal, Unwritten};
use city_members::copied::Copied;
use city_members::text::Text;
use city_model::OutOfMemory;
use std::alloc::Global;
use std::collections::BTreeMap;
use std::marker::Model;

/// Notes commits in a file, if there is one, and their keys.
///
/// A commit is told to nobody before `sync` has succeeded after it. Contracts see the file and the commits noted.
#[derive(Drop)]
pub struct Journaling<F: JournalFile> {
    alloc: Global,
    /// Points are hashed by it.
    seed: u64,
    /// Whether numbers are of any form.
    decimals: bool,
    file: Option<F>,
    noted: NotedCommits,
    /// Whether the whole file is synced.
    synced: bool,
    /// The time: so many seconds since 1970.
    time: u64,
    keys: Keys,
    /// The keys of hands' next commits.
    asked: BTreeMap<Text, Text>,
}

impl<F: JournalFile> Model for Journaling<F> {
    ghost use Rattle.std.specs.Prelude.{◌≡◌, true, IfSome};
    ghost use Rattle.city_journal.specs.Files.{IsKept};
    ghost use Rattle.city_journal.specs.Journaled.{Journaled};
    ghost use Rattle.city_journal.specs.internal.Journaled.{journaled_code};

    ghost Value = { Journaled F };

    ghost coded = { journaled_code F.code };

    ghost view = { λ j. record { decimals = j.decimals; file = j.file; noted = j.noted } };

    ghost invariant = { λ j. j.synced ≡ true → IfSome j.file (λ f. IsKept (F.seen f) (F.may_leave f)) };
}

impl<F: JournalFile> Journaling<F> {
    /// Notes commits at the end of this file, if there is one; these keys are known. Doesn't allocate.
    pub fn new(
        alloc: Global,
        seed: u64,
        decimals: bool,
        file: Option<F>,
        keys: Keys,
    ) -> Journaling<F>
        requires { IfSome file (λ f. IsKept (F.seen f) (F.may_leave f)) }
        ensures decimals { result.decimals ≡ decimals }
        ensures file { result.file ≡ file }
        ensures noted { result.noted ≡ [] }
    {
        Journaling {
            alloc,
            seed,
            decimals,
            file,
            noted: NotedCommits::none(),
            synced: true,
            time: 0,
            keys,
            asked: BTreeMap::new(alloc),
        }
    }

    /// The file, if there is one. Doesn't allocate.
    pub fn file(&self) -> Option<&F> {
        self.file.as_ref()
    }

    /// The file, if there is one.
    pub fn into_file(self) -> Option<F>
        ensures { result ≡ self.file }
    {
        self.file
    }

    /// Takes the file out, if there is one: no more is noted. Doesn't allocate.
    pub fn take_file(&mut self) -> Option<F>
        ensures file { result ≡ self.old.file }
        ensures left { self.new.file ≡ None }
        ensures noted { self.new.noted ≡ self.old.noted }
        ensures decimals { self.new.decimals ≡ self.old.decimals }
    {
        self.file.take()
    }

    /// Sets the time of the next lines: so many seconds since 1970. Doesn't allocate.
    pub fn set_time(&mut self, seconds: u64)
        ensures { self.new ≡ self.old }
    {
        self.time = seconds;
    }

    /// Has the hand's next commit noted with this key. If it has a key already, the old one stays.
    pub fn ask(&mut self, hand: &Text, key: &Text) -> Result<(), OutOfMemory>
        ensures { self.new ≡ self.old }
    {
        if self.asked.contains_key(hand) {
            return Ok(());
        }
        let hand = hand.copy(self.alloc)?;
        let key = key.copy(self.alloc)?;
        match self.asked.insert(hand, key) {
            Ok(_) => Ok(()),
            Err(_) => Err(OutOfMemory),
        }
    }

    /// The key of the hand's next commit, if it has one. Doesn't allocate.
    pub fn asked(&self, hand: &Text) -> Option<&Text> {
        self.asked.get(hand)
    }

    /// Forgets the key of the hand's next commit. Doesn't allocate.
    pub fn forget(&mut self, hand: &Text)
        ensures { self.new ≡ self.old }
    {
        self.asked.remove(hand);
    }

    /// The commit made with this key, if it is known. Doesn't allocate.
    pub fn made(&self, key: &Text) -> Option<&Made> {
        self.keys.get(key)
    }

    /// Brings all appended lines to the disk. If it can't, nobody may be told of them.
    pub fn sync(&mut self) -> Result<(), Unwritten>
        ensures ok { OnOk result (GoesBy (MayTell F.seen F.may_leave) self.old.file self.new.file) }
        ensures told { OnOk result (GoesBy (TellsCommits self.old.decimals F.seen F.may_leave)
            self.old.file self.new.file) }
        ensures err { OnErr result (GoesBy (Stays F.seen F.may_leave) self.old.file self.new.file) }
        ensures noted { self.new.noted ≡ self.old.noted }
        ensures decimals { self.new.decimals ≡ self.old.decimals }
    {
        if self.synced {
            return Ok(());
        }
        sync(&mut self.file)?;
        self.synced = true;
        Ok(())
    }

    /// Notes that the model with this sum is about to be put into place. It has to be synced before.
    pub fn begin_save(&mut self, sum: &ModelSum) -> Result<(), Unwritten>
        ensures ok { OnOk result (GoesBy (Gains (λ l. l ≡ saved_text sum.now.bytes) F.seen F.may_leave)
            self.old.file self.new.file) }
        ensures follows { OnOk result (GoesBy (AddsCommits self.old.decimals [] F.seen F.may_leave)
            self.old.file self.new.file) }
        ensures err { OnErr result (GoesBy (Stays F.seen F.may_leave) self.old.file self.new.file) }
        ensures noted { self.new.noted ≡ self.old.noted }
        ensures decimals { self.new.decimals ≡ self.old.decimals }
    {
        self.synced = false;
        match saved_line(self.alloc, sum) {
            Ok(line) => note(&mut self.file, line),
            Err(OutOfMemory) => Err(Unwritten::OutOfMemory),
        }
    }

    /// Begins the journal anew over the model just put into place, with this sum and at this version.
    pub fn end_save(&mut self, sum: &ModelSum, version: u64) -> Result<(), Unwritten>
        ensures noted { self.new.noted ≡ self.old.noted }
        ensures decimals { self.new.decimals ≡ self.old.decimals }
    {
        self.synced = false;
        let Some(file) = &mut self.file else {
            return Ok(());
        };
        let room = Vec::new(self.alloc);
        let Ok(lines) = append_beginning(self.alloc, room, sum, self.decimals, version, &self.keys)
        else {
            return Err(Unwritten::OutOfMemory);
        };
        match file.begin(lines.as_slice(), version) {
            Ok(()) => Ok(()),
            Err(_) => Err(Unwritten::CannotWrite),
        }
    }

    /// Notes a commit about to be made, with the key its hand asked for. If it can't, its key isn't known.
    pub fn note_commit(&mut self, entry: &Entry<'_>) -> Result<(), Unwritten>
        ensures ok { OnOk result (GoesBy (Gains (IsCommitLine self.old.decimals entry.now) F.seen F.may_leave)
            self.old.file self.new.file) }
        ensures follows { OnOk result (GoesBy (AddsCommits self.old.decimals (noted_by entry.now ∷ []) F.seen F.may_leave)
            self.old.file self.new.file) }
        ensures err { OnErr result (GoesBy (Stays F.seen F.may_leave) self.old.file self.new.file) }
        ensures decimals { self.new.decimals ≡ self.old.decimals }
        ensures noted { OnOk result (self.new.noted ≡ self.old.noted ++ noted_by entry.now ∷ []) }
        ensures same { OnErr result (self.new.noted ≡ self.old.noted) }
    {
        let key = self.asked.remove(entry.by);
        let line = line_for(
            &self.file,
            self.alloc,
            self.seed,
            self.decimals,
            entry,
            key.as_ref(),
            self.time,
        )?;
        if let Some(key) = &key {
            if self.keys.note(key, entry.name, entry.version).is_err() {
                return Err(Unwritten::OutOfMemory);
            }
        }
        self.synced = false;
        match note_entry(&mut self.file, self.decimals, entry, line) {
            Ok(()) => {
                self.noted = self.noted.and(entry);
                Ok(())
            }
            Err(unwritten) => {
                if let Some(key) = &key {
                    self.keys.forget(key);
                }
                Err(unwritten)
            }
        }
    }
}

impl<F: JournalFile + Drop> Journal for Journaling<F> {
    ghost use Rattle.std.specs.Prelude.{Some};

    ghost noted = { λ j. Some j.noted };

    // (keys are noted without a file too)
    fn is_kept(&self) -> bool {
        true
    }

    fn append(&mut self, entry: &Entry<'_>) -> Result<(), Unwritten> {
        self.note_commit(entry)
    }
}

/// The line of a commit, if there is a file.
fn line_for<F: JournalFile>(
    file: &Option<F>,
    alloc: Global,
    seed: u64,
    decimals: bool,
    entry: &Entry<'_>,
    key: Option<&Text>,
    time: u64,
) -> Result<Vec<u8>, Unwritten>
    ensures { IfOk result (λ line. is_some file.now ≡ true → IsCommitLine decimals entry.now line.items) }
{
    if file.is_none() {
        return Ok(Vec::new(alloc));
    }
    commit_line(alloc, seed, decimals, entry, key, time)
}

/// Notes the line of a commit in the file, if there is one.
fn note_entry<F: JournalFile>(
    file: &mut Option<F>,
    decimals: bool,
    entry: &Entry<'_>,
    line: Vec<u8>,
) -> Result<(), Unwritten>
    requires { is_some file.old ≡ true → IsCommitLine decimals entry.now line.items }
    ensures ok { OnOk result (GoesBy (Gains (IsCommitLine decimals entry.now) F.seen F.may_leave) file.old file.new) }
    ensures follows { OnOk result (GoesBy (AddsCommits decimals (noted_by entry.now ∷ []) F.seen F.may_leave)
        file.old file.new) }
    ensures err { OnErr result (GoesBy (Stays F.seen F.may_leave) file.old file.new) }
{
    note(file, line)
}
