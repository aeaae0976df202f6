//! The viewers of a board.
ghost use Rattle.std.specs.Prelude.{◌≡◌, ◌⊎◌, true, IfOk, IfErr};
ghost use mathlib.Core.List.{IsPrefix};

use crate::ghosts::board_rule::{BoardRule, Known, SeesVersion};
use crate::history::History;
use crate::look::Look;
use crate::note::Note;
use crate::version::Version;
use left_right::reader::{Reader, Reading};
use std::marker::Model;

/// A viewer's reader of versions.
pub type BoardReader = Reader<Version, Known, BoardRule>;

/// A version being read by a viewer.
pub type BoardReading = Reading<Version, Known, BoardRule>;

/// A reader of a board's versions, from any thread and without waiting.
///
/// Contracts see the board's name, its opening city, and the changes seen or told of.
#[derive(Drop)]
pub struct Viewer {
    reader: BoardReader,
    seen: History,
}

impl Model for Viewer {
    ghost use Rattle.std.specs.Prelude.{◌≡◌, true};
    ghost use Rattle.std.specs.Coded.{codes};
    ghost use Rattle.left_right.specs.Sides.{view as view_of};
    ghost use Rattle.city_members.specs.internal.DataCode.{coded_members};
    ghost use Rattle.city_txn.specs.internal.Codes.{coded_objects};
    ghost use Rattle.city_board.specs.BoardValues.{ViewerValue};

    ghost Value = { ViewerValue };

    ghost coded = { Prim.hlevel (codes, coded_members, coded_objects) };

    ghost view = { λ v. record {
      name = v.seen.name;
      opening =
          (view_of v.reader.place).opening;
      seen = v.seen.changes;
    } };

    ghost invariant = { λ v. ((view_of v.reader.place).met ≡ true)
        × ((view_of v.reader.place).history.name ≡ v.seen.name) };
}

impl Viewer {
    ghost use Rattle.left_right.specs.Sides.{view as view_of};
    ghost use Rattle.city_board.specs.BoardValues.{viewer_of};

    /// A viewer who has seen these changes. Doesn't allocate.
    pub(crate) fn new(reader: BoardReader, seen: History) -> Viewer
        requires { ((view_of reader.place).met ≡ true) × ((view_of reader.place).history.name ≡ seen.name) }
        ensures { result ≡ viewer_of seen (view_of reader.place).opening }
    {
        Viewer { reader, seen }
    }

    /// Looks at the version published now. Doesn't allocate, and waits for nobody.
    ///
    /// The version has all changes this viewer saw or was told of. If the poster is gone, the
    /// viewer comes back unchanged.
    pub fn look(self) -> Result<Look, Viewer>
        ensures name { IfOk result (λ look. look.name ≡ self.name) }
        ensures opening { IfOk result (λ look. look.opening ≡ self.opening) }
        ensures seen { IfOk result (λ look. IsPrefix self.seen look.seen) }
        ensures err { IfErr result (λ viewer. viewer ≡ self) }
    {
        let Viewer { reader, seen } = self;
        match reader.enter_as::<SeesVersion>() {
            Err(reader) => Err(Viewer { reader, seen }),
            Ok(reading) => {
                let now = &reading.get().history;
                // (the viewer was told of published changes only, so this version has them)
                if now.len() < seen.len() {
                    return Err(Viewer {
                        reader: reading.leave(),
                        seen,
                    });
                }
                let seen = now.longer(&seen);
                Ok(Look::new(reading, seen))
            }
        }
    }

    /// Learns of the note's changes: from now on each look has them. Doesn't allocate.
    ///
    /// Of the viewer's changes and the note's, one list is a prefix of the other. The viewer keeps
    /// the longer one.
    pub fn learn(self, note: &Note) -> Viewer
        requires { note.now.name ≡ self.name }
        ensures name { result.name ≡ self.name }
        ensures opening { result.opening ≡ self.opening }
        ensures one { (result.seen ≡ self.seen) ⊎ (result.seen ≡ note.now.changes) }
        ensures own { IsPrefix self.seen result.seen }
        ensures told { IsPrefix note.now.changes result.seen }
    {
        let Viewer { reader, seen } = self;
        let seen = seen.longer(note.history());
        Viewer { reader, seen }
    }
}
