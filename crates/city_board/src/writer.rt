//! A board's writer, as its poster keeps it.
ghost use Rattle.std.specs.Prelude.{◌≡◌, ◌++◌, [], drop, IsTrue};

use crate::ghosts::board_rule::{BoardRule, Known};
use crate::version::{Edit, Version};
use left_right::writer::Writer;
use std::collections::VecDeque;
use std::sync::Wait;

/// Writes both versions of a board.
pub type BoardWriter = Writer<Version, Edit, Known, BoardRule>;

/// A writer, and the runtime to end it: its drop waits until each look has been left.
pub struct OwnWriter<R: Wait + Drop> {
    pub writer: BoardWriter,
    pub rt: R,
}

impl<R: Wait + Drop> OwnWriter<R> {
    /// Its parts. The caller must end the writer.
    pub fn into_parts(self) -> (BoardWriter, R)
        ensures writer { result.0 ≡ self.writer }
        ensures rt { result.1 ≡ self.rt }
    {
        let Self { writer, rt } = self;
        (writer, rt)
    }
}

impl<R: Wait + Drop> Drop for OwnWriter<R> {
    fn drop(self) {
        let Self { writer, rt } = self;
        writer.take(&rt);
    }
}

/// Hands the edits to the writer. Returns false if memory runs out; the remaining edits stay.
pub fn append_all(writer: &mut BoardWriter, waiting: &mut VecDeque<Edit>) -> bool
    ensures desk { writer.new.desk ≡ writer.old.desk }
    ensures edits { drop writer.new.behind writer.new.log.items
        ++ waiting.new.items ≡ drop writer.old.behind writer.old.log.items ++ waiting.old.items }
    ensures all { IsTrue result → waiting.new.items ≡ [] }
{
    while let Some(edit) = waiting.pop_front() {
        if let Err(edit) = writer.append(edit) {
            waiting.push_front_reserved(edit);
            return false;
        }
    }
    true
}
