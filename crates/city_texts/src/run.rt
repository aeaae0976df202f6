//! Parts of a text, read beforehand by several workers.
ghost use Rattle.std.specs.Prelude.{◌≡◌, ◌++◌, ℕ, List, [], IfSome, flat_map};
ghost use Rattle.std.specs.List.{AllByRecursion};
ghost use Rattle.std.specs.Vec.{vec_items};
ghost use Rattle.city_texts.specs.internal.Runs.{IsPiece, IsRun, IsAppended, IsLeft, ArePassed};

use crate::part::{Part, read_between};
use city_reader::{Position, Reader};
use std::alloc::Global;
use std::mem::replace;
use std::thread::{Threads, map_indices};

/// The parts between two positions of a text, one after another.
#[derive(Drop)]
pub struct Piece<T> {
    pub from: Position,
    pub to: Position,
    pub parts: Vec<T>,
}

/// The parts between two positions of a text, in pieces, one after another.
#[derive(Drop)]
pub struct Run<T> {
    pub from: Position,
    pub to: Position,
    pub pieces: Vec<Vec<T>>,
}

/// Moves the parts of all pieces to the end of the others.
fn append_each<T: Drop>(parts: &mut Vec<T>, pieces: Vec<Vec<T>>) -> Option<()>
    ensures { IfSome result (λ _. parts.new.items ≡ parts.old.items ++ flat_map vec_items pieces.items) }
{
    let mut count = 0usize;
    'lengths: for piece in &pieces {
        count = count.saturating_add(piece.len());
    }
    parts.reserve(count).ok()?;
    'pieces: for piece in pieces {
        let mut piece = piece;
        parts.append(&mut piece).ok()?;
    }
    Some(())
}

impl<T: Drop> Run<T> {
    /// No parts, at a position.
    fn at(alloc: Global, position: Position) -> Run<T>
        ensures { (result.from ≡ position) × (result.to ≡ position) × (result.pieces.items ≡ []) }
    {
        Run {
            from: position,
            to: position,
            pieces: Vec::new(alloc),
        }
    }

    /// Appends the next piece, if it begins at the end of these; `None` otherwise.
    fn append(&mut self, next: Piece<T>) -> Option<()>
        ensures { IsAppended result self.old next self.new }
    {
        if !self.to.is(next.from) {
            return None;
        }
        self.pieces.push(next.parts).ok()?;
        self.to = next.to;
        Some(())
    }

    /// Passes these parts of a text, and appends them to the others, if the reader stands at their
    /// start.
    pub fn pass(
        &mut self,
        alloc: Global,
        text: &str,
        reader: &mut Reader<'_>,
        parts: &mut Vec<T>,
    ) -> Option<()>
        ensures left { IsLeft self.old self.new }
        ensures passed { IfSome result (λ _. (more : List T)
            × ArePassed text.now self.old more reader.old reader.new
            × (parts.new.items ≡ parts.old.items ++ more)) }
    {
        let to = self.to;
        if !reader.pass(text, self.from, to) {
            return Some(());
        }
        let run = replace(self, Run::at(alloc, to));
        append_each(parts, run.pieces)
    }

    /// Whether all of these were passed.
    pub fn is_passed(&self) -> bool {
        self.pieces.is_empty()
    }
}

/// The last cut; without cuts, the beginning of the text.
fn last_cut(cuts: &[Position]) -> Position {
    match cuts.last() {
        Some(cut) => *cut,
        None => Position::after_comma(0),
    }
}

/// The cut of this number; the last one if there are fewer.
fn cut_at(cuts: &[Position], i: usize) -> Position {
    match cuts.get(i) {
        Some(cut) => *cut,
        None => last_cut(cuts),
    }
}

/// The piece between two cuts.
fn read_piece<T: Part>(alloc: Global, text: &str, cuts: &[Position], i: usize) -> Option<Piece<T>>
    ensures { IfSome result (IsPiece T.stands text.now) }
{
    let from = cut_at(cuts, i);
    let to = cut_at(cuts, i.saturating_add(1));
    let parts = read_between(alloc, text, from, to)?;
    Some(Piece { from, to, parts })
}

/// The piece between each two cuts, read by a thread.
fn read_each<R: Threads + Sync, T: Part + Send>(
    rt: &R,
    alloc: Global,
    text: &str,
    cuts: &[Position],
) -> Option<Vec<Option<Piece<T>>>>
    ensures { IfSome result (λ ps. AllByRecursion (λ p. IfSome p (IsPiece T.stands text.now)) ps.items) }
{
    let count = cuts.len().saturating_sub(1);
    let read = |i|
        ensures { IfSome result (IsPiece T.stands text.entry.now) }
    { read_piece::<T>(alloc, text, cuts, i) };
    let pieces = map_indices(rt, alloc, count, &read).ok()?;
    Some(pieces)
}

/// The pieces as one run; `None` if they don't go from the first cut to the last.
fn joined<T: Part>(
    alloc: Global,
    text: &str,
    cuts: &[Position],
    pieces: Vec<Option<Piece<T>>>,
) -> Option<Run<T>>
    requires { AllByRecursion (λ p. IfSome p (IsPiece T.stands text.now)) pieces.items }
    ensures { IfSome result (IsRun T.stands text.now) }
{
    let mut all = Run::at(alloc, cut_at(cuts, 0));
    for piece in pieces {
        all.append(piece?)?;
    }
    if !all.to.is(last_cut(cuts)) {
        return None;
    }
    Some(all)
}

/// The run from the first cut of a text to the last; each piece between two cuts is read by a
/// thread.
pub fn read_pieces<R: Threads + Sync, T: Part + Send>(
    rt: &R,
    alloc: Global,
    text: &str,
    cuts: &[Position],
) -> Option<Run<T>>
    ensures { IfSome result (IsRun T.stands text.now) }
{
    let pieces = read_each::<R, T>(rt, alloc, text, cuts)?;
    joined(alloc, text, cuts, pieces)
}
