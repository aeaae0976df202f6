//! The poster of a board, and the shelf that it is for a desk.
ghost use Rattle.std.specs.Prelude.{◌≡◌, ◌+◌, ◌<◌, ◌^◌, [], ◌∷◌, ◌++◌, length, drop, IfOk, OnOk, OnErr};
ghost use mathlib.Core.List.{IsPrefix};
ghost use Rattle.left_right.specs.Sides.{view};
ghost use Rattle.city_model.specs.CityMap.{object_at};
ghost use Rattle.city_model.specs.Relations.{IsLawful};
ghost use Rattle.city_model.specs.Runs.{after_changes};
ghost use Rattle.city_board.specs.internal.BoardRule.{HoldsEdits};
ghost use Rattle.city_board.specs.HistoryValue.{history_of};

use crate::ghosts::board_rule::SeesVersion;
use crate::history::{Head, History};
use crate::note::Note;
use crate::version::Edit;
use crate::writer::{OwnWriter, append_all};
use city_model::OutOfMemory;
use city_model::change::Change;
use city_scheduler::{OpeningCity, Shelf};
use std::alloc::Global;
use std::collections::VecDeque;
use std::marker::Model;
use std::sync::Wait;

/// Takes changes of a city, and publishes them to the viewers of its board.
///
/// Contracts see the board's name, its opening city, the published changes, and all changes taken:
/// the published ones, then the pending ones. Its drop waits until each look has been left.
#[derive(Drop)]
pub struct Poster<R: Wait + Drop> {
    /// `None` only while `publish` runs.
    writer: Option<OwnWriter<R>>,
    head: Head,
    opening: OpeningCity,
    published: History,
    taken: History,
    /// The edits still to be handed to the writer.
    waiting: VecDeque<Edit>,
}

impl<R: Wait + Drop> Model for Poster<R> {
    ghost use Rattle.std.specs.Prelude.{◌≡◌, ◌++◌, drop, IfSome};
    ghost use mathlib.Core.List.{IsPrefix};
    ghost use Rattle.std.specs.Coded.{codes};
    ghost use Rattle.city_members.specs.internal.DataCode.{coded_members};
    ghost use Rattle.city_txn.specs.internal.Codes.{coded_objects};
    ghost use Rattle.left_right.specs.Sides.{view as view_of};
    ghost use Rattle.city_board.specs.internal.BoardRule.{HoldsEdits};
    ghost use Rattle.city_board.specs.BoardValues.{PosterValue};

    ghost Value = { PosterValue };

    ghost coded = { Prim.hlevel (codes, coded_members, coded_objects) };

    ghost view = { λ p. record { name = p.published.name; opening = p.opening; published = p.published.changes; taken = p.taken.changes } };

    ghost invariant = { λ p. (p.head ≡ p.published.name) × (p.taken.name ≡ p.published.name)
        × IsPrefix p.published.changes p.taken.changes
        × IfSome p.writer (λ w. HoldsEdits w.writer.desk.shown.value (view_of w.writer.desk.place)
        (drop w.writer.behind w.writer.log.items ++ p.waiting.items) p.opening p.published p.taken) };
}

impl<R: Wait + Drop> Poster<R> {
    /// A poster without pending changes. Doesn't allocate.
    pub(crate) fn new(
        alloc: Global,
        writer: OwnWriter<R>,
        head: Head,
        opening: OpeningCity,
        history: History,
    ) -> Poster<R>
        requires name { head ≡ history.name }
        requires edits { HoldsEdits writer.writer.desk.shown.value (view writer.writer.desk.place)
            (drop writer.writer.behind writer.writer.log.items) opening history history }
        ensures name { result.name ≡ history.name }
        ensures opening { result.opening ≡ opening }
        ensures published { result.published ≡ history.changes }
        ensures taken { result.taken ≡ history.changes }
    {
        Poster {
            writer: Some(writer),
            head,
            opening,
            published: history.again(),
            taken: history,
            waiting: VecDeque::new(alloc),
        }
    }

    /// Takes a change as pending. If memory runs out, nothing changes.
    ///
    /// In every poster, the published changes are a prefix of those taken.
    pub fn append(&mut self, change: Change) -> Result<(), OutOfMemory>
        requires room { length self.old.taken + 1 < 2 ^ 64 }
        requires lawful { IsLawful (after_changes (object_at self.old.opening.1) (self.old.taken ++ change ∷ [])) }
        ensures ok { OnOk result (self.new ≡ record self.old { taken = self.old.taken ++ change ∷ [] }) }
        ensures err { OnErr result (self.new ≡ self.old) }
        ensures begins { IsPrefix self.old.published self.old.taken }
    {
        if self.waiting.reserve(1).is_err() {
            return Err(OutOfMemory);
        }
        let addition = self.taken.with(&change);
        let Some(history) = addition.add(&self.head) else {
            return Err(OutOfMemory);
        };
        self.taken = history.again();
        self.waiting.push_back_reserved(Edit { change, history });
        Ok(())
    }

    /// Publishes all pending changes at once, and returns a note of all changes published by then.
    /// If memory runs out, nothing changes, and they are still pending.
    ///
    /// Waits for looks at the version before the published one.
    pub fn publish(&mut self) -> Result<Note, OutOfMemory>
        ensures ok { OnOk result (self.new ≡ record self.old { published = self.old.taken }) }
        ensures note { IfOk result (λ note. note ≡ history_of self.old.name self.old.taken) }
        ensures err { OnErr result (self.new ≡ self.old) }
    {
        let Some(own) = self.writer.take() else {
            return Err(OutOfMemory);
        };
        let (mut writer, rt) = own.into_parts();
        if !append_all(&mut writer, &mut self.waiting) {
            self.writer = Some(OwnWriter { writer, rt });
            return Err(OutOfMemory);
        }
        let (writer, done) = writer.publish_as::<SeesVersion, R>(&rt);
        self.writer = Some(OwnWriter { writer, rt });
        match done {
            Err(_) => Err(OutOfMemory),
            Ok(()) => {
                self.published = self.taken.again();
                Ok(Note::of(self.taken.again()))
            }
        }
    }
}

/// Lists all changes taken, and shows viewers the published ones; the base is the board's opening
/// city.
impl<R: Wait + Drop> Shelf for Poster<R> {
    type Note = Note;

    ghost use Rattle.std.specs.Prelude.{◌≡◌, [], ◌∷◌, Some};

    ghost list = { λ poster. poster.taken };

    ghost base = { λ poster. Some poster.opening };

    ghost name = { λ poster. poster.name.number ∷ poster.name.log_name ∷ poster.name.cells_name ∷ [] };

    ghost published = { λ poster. Some poster.published };

    ghost tells = { λ poster note. (note.changes ≡ poster.taken) × (note.name ≡ poster.name) };

    fn take(&mut self, change: Change) -> Result<(), OutOfMemory> {
        self.append(change)
    }

    fn show<Q: Wait>(&mut self, _rt: &Q) -> Result<Note, OutOfMemory> {
        self.publish()
    }
}
