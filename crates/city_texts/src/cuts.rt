//! Guesses where a text can be cut into pieces. A wrong guess costs only time: pieces are taken
//! only if each ends just where the next one begins.

use crate::pieces::Pieces;
use city_reader::Position;
use memchr::{memchr, memmem, memrchr_iter};
use std::alloc::Global;

/// How many bytes are searched for a cut.
const WINDOW: usize = 131_072;

/// The bounds of a text's pieces, each right behind a comma.
#[derive(Drop)]
pub struct Cuts {
    /// Between objects.
    pub objects: Vec<Position>,
    /// Between vertices.
    pub vertices: Vec<Position>,
}

/// The form of both sides of a comma.
#[derive(Clone, Copy, Drop)]
struct Sides {
    /// The last byte of the left side.
    end: u8,
    /// The first byte of the right side.
    start: u8,
    /// The possible first names of the right side; empty if any will do.
    names: &'static [&'static [u8]],
    /// Whether the sides have texts in them.
    has_texts: bool,
}

/// Between members with objects as values.
const MEMBERS: Sides = Sides {
    end: b'}',
    start: b'"',
    names: &[],
    has_texts: true,
};

/// Between items, each an array of numbers.
const ITEMS: Sides = Sides {
    end: b']',
    start: b'[',
    names: &[],
    has_texts: false,
};

/// Between scripts: no command has one of these names first.
const SCRIPTS: Sides = Sides {
    end: b'}',
    start: b'{',
    names: &[b"\"name\"", b"\"commands\"", b"\"vertices\""],
    has_texts: true,
};

/// The part of a text to be cut.
#[derive(Clone, Copy, Drop)]
struct Stretch {
    start: usize,
    end: usize,
    /// How many fewer brackets are open at its end than between its parts.
    closed: i64,
}

/// The state of a walk over bytes.
#[derive(Drop)]
struct Walk {
    in_string: bool,
    /// How many more brackets are open than at its start.
    open: i64,
    /// The last byte other than a blank.
    last: u8,
}

impl Walk {
    fn new() -> Walk {
        Walk {
            in_string: false,
            open: 0,
            last: b' ',
        }
    }

    /// Passes a byte; returns whether it is a comma behind such an end.
    fn pass(&mut self, byte: u8, end: u8) -> bool {
        if byte == b'"' {
            self.in_string = !self.in_string;
        } else if !self.in_string {
            match byte {
                b'{' | b'[' => self.open = self.open.saturating_add(1),
                b'}' | b']' => self.open = self.open.saturating_sub(1),
                b',' => return self.last == end,
                _ => {}
            }
        }
        if byte > b' ' {
            self.last = byte;
        }
        false
    }
}

/// The bytes behind any blanks; `None` if there are only blanks.
fn after_blanks(bytes: &[u8]) -> Option<&[u8]> {
    let at = bytes.iter().position(|byte| *byte > b' ')?;
    bytes.get(at..)
}

/// The bytes behind any blanks and then `start`; `None` if another byte comes first.
fn behind(bytes: &[u8], start: u8) -> Option<&[u8]> {
    let (first, rest) = after_blanks(bytes)?.split_first()?;
    if *first == start { Some(rest) } else { None }
}

/// Whether the bytes begin with one of these names, but for blanks.
fn begins_with_any(bytes: &[u8], names: &[&[u8]]) -> bool {
    let Some(name) = after_blanks(bytes) else {
        return false;
    };
    names.iter().any(|known| name.starts_with(known))
}

/// Whether the comma at this index has such a right side.
fn is_followed(window: &[u8], comma: usize, sides: Sides) -> bool {
    let Some(after) = window.get(comma.saturating_add(1)..) else {
        return false;
    };
    match behind(after, sides.start) {
        Some(inner) => sides.names.is_empty() || begins_with_any(inner, sides.names),
        None => false,
    }
}

/// How many more brackets are open at the end of the bytes than at their start.
fn opened(window: &[u8]) -> i64 {
    let mut walk = Walk::new();
    for byte in window {
        walk.pass(*byte, b',');
    }
    walk.open
}

/// The first comma between such sides with so many brackets open.
fn first_at(window: &[u8], sides: Sides, open: i64) -> Option<usize> {
    let mut walk = Walk::new();
    for (i, byte) in window.iter().enumerate() {
        if walk.pass(*byte, sides.end) && walk.open == open && is_followed(window, i, sides) {
            return Some(i);
        }
    }
    None
}

/// The last comma between such sides with so many brackets open.
fn last_at(window: &[u8], sides: Sides, open: i64) -> Option<usize> {
    let mut walk = Walk::new();
    let mut found = None;
    for (i, byte) in window.iter().enumerate() {
        if walk.pass(*byte, sides.end) && walk.open == open && is_followed(window, i, sides) {
            found = Some(i);
        }
    }
    found
}

/// Of the commas between such sides, the first with the fewest brackets open.
fn first_outermost(window: &[u8], sides: Sides) -> Option<usize> {
    let mut walk = Walk::new();
    let mut found = None;
    let mut least = i64::MAX;
    for (i, byte) in window.iter().enumerate() {
        if walk.pass(*byte, sides.end) && walk.open < least && is_followed(window, i, sides) {
            found = Some(i);
            least = walk.open;
        }
    }
    found
}

/// The place behind the first name in the bytes. A quote with a colon behind it ends a name, for no text is escaped.
fn after_name(window: &[u8]) -> Option<usize> {
    let at = memmem::find(window, b"\":")?;
    Some(at.saturating_add(1))
}

/// An index surely outside of a string.
fn outside(window: &[u8], sides: Sides) -> Option<usize> {
    if sides.has_texts {
        after_name(window)
    } else {
        Some(0)
    }
}

/// The bytes from a place on, as many as are searched.
fn window_at(bytes: &[u8], stretch: Stretch, at: usize) -> Option<&[u8]> {
    bytes.get(at..stretch.end.min(at.saturating_add(WINDOW)))
}

/// The cut behind the first part.
fn first_cut(bytes: &[u8], stretch: Stretch, sides: Sides) -> Option<usize> {
    let window = window_at(bytes, stretch, stretch.start)?;
    let comma = first_at(window, sides, 0)?;
    Some(stretch.start.saturating_add(comma).saturating_add(1))
}

/// A cut soon behind a place.
fn next_cut(bytes: &[u8], stretch: Stretch, sides: Sides, near: usize) -> Option<usize> {
    let start = near.saturating_add(outside(window_at(bytes, stretch, near)?, sides)?);
    let window = window_at(bytes, stretch, start)?;
    let comma = if window.len() < WINDOW {
        first_at(window, sides, opened(window).saturating_add(stretch.closed))?
    } else {
        first_outermost(window, sides)?
    };
    Some(start.saturating_add(comma).saturating_add(1))
}

/// The cut before the last part.
fn last_cut(bytes: &[u8], stretch: Stretch, sides: Sides) -> Option<usize> {
    let near = stretch.start.max(stretch.end.saturating_sub(WINDOW));
    let start = near.saturating_add(outside(window_at(bytes, stretch, near)?, sides)?);
    let window = bytes.get(start..stretch.end)?;
    let open = opened(window).saturating_add(stretch.closed);
    let comma = last_at(window, sides, open)?;
    Some(start.saturating_add(comma).saturating_add(1))
}

/// Keeps a cut if it lies behind the others.
fn keep(cuts: &mut Vec<Position>, cut: Option<usize>) -> Option<()> {
    let Some(at) = cut else {
        return Some(());
    };
    if let Some(last) = cuts.last() {
        if last.at() >= at {
            return Some(());
        }
    }
    cuts.push(Position::after_comma(at)).ok()
}

/// The cuts of a stretch into so many pieces, but for the last cut; fewer if it is short or a cut
/// isn't found.
fn cuts_before(
    alloc: Global,
    bytes: &[u8],
    stretch: Stretch,
    sides: Sides,
    count: usize,
) -> Option<Vec<Position>> {
    let mut cuts = Vec::new(alloc);
    let step = stretch
        .end
        .saturating_sub(stretch.start)
        .checked_div(count)?;
    keep(&mut cuts, first_cut(bytes, stretch, sides))?;
    for i in 1..count {
        let near = stretch.start.saturating_add(step.saturating_mul(i));
        keep(&mut cuts, next_cut(bytes, stretch, sides, near))?;
    }
    Some(cuts)
}

/// The cuts of a stretch of a document. Empty if no last cut is found: the text behind
/// the last part may look like parts.
fn cuts_of(
    alloc: Global,
    bytes: &[u8],
    stretch: Stretch,
    sides: Sides,
    count: usize,
) -> Option<Vec<Position>> {
    let Some(last) = last_cut(bytes, stretch, sides) else {
        return Some(Vec::new(alloc));
    };
    let parts = Stretch {
        start: stretch.start,
        end: last,
        closed: 0,
    };
    let mut cuts = cuts_before(alloc, bytes, parts, sides, count)?;
    keep(&mut cuts, Some(last))?;
    Some(cuts)
}

/// The stretch of the member named at `name`; `other` is the place of the other member's name.
fn stretch_of(bytes: &[u8], name: usize, other: usize, bracket: u8) -> Option<Stretch> {
    let before = memchr(bracket, bytes.get(name..)?)?;
    let start = name.saturating_add(before).saturating_add(1);
    if name < other {
        Some(Stretch {
            start,
            end: other,
            closed: 1,
        })
    } else {
        Some(Stretch {
            start,
            end: bytes.len(),
            closed: 2,
        })
    }
}

/// Into how many pieces the bytes are cut; `None` if they are too short or have an escape.
fn count_of(bytes: &[u8], pieces: Pieces) -> Option<usize> {
    let most = bytes.len().checked_div(pieces.least);
    let count = pieces.count.min(most.unwrap_or(pieces.count));
    if count < 2 || memchr(b'\\', bytes).is_some() {
        return None;
    }
    Some(count)
}

/// The place of the last such name, with its quotes. It goes from quote to quote: behind the name of
/// the vertices there are many numbers, but few quotes.
fn last_place(bytes: &[u8], name: &[u8]) -> Option<usize> {
    memrchr_iter(b'"', bytes).find(|at| bytes.get(*at..).is_some_and(|rest| rest.starts_with(name)))
}

/// The cuts of a document; `None` if it is too short, has an escape or but one part, or doesn't
/// look like one.
pub fn cuts_of_document(alloc: Global, text: &str, pieces: Pieces) -> Option<Cuts> {
    let bytes = text.as_bytes();
    let count = count_of(bytes, pieces)?;
    let objects = memmem::find(bytes, b"\"CityObjects\"")?;
    let vertices = last_place(bytes, b"\"vertices\"")?;
    let of_objects = stretch_of(bytes, objects, vertices, b'{')?;
    let of_vertices = stretch_of(bytes, vertices, objects, b'[')?;
    let cuts = Cuts {
        objects: cuts_of(alloc, bytes, of_objects, MEMBERS, count)?,
        vertices: cuts_of(alloc, bytes, of_vertices, ITEMS, count)?,
    };
    if cuts.objects.len() < 2 && cuts.vertices.len() < 2 {
        return None;
    }
    Some(cuts)
}

/// The cuts of a text of scripts; `None` if it is too short, has an escape or less than three
/// scripts, or doesn't look like one.
pub fn cuts_of_scripts(alloc: Global, text: &str, pieces: Pieces) -> Option<Vec<Position>> {
    let bytes = text.as_bytes();
    let count = count_of(bytes, pieces)?;
    let before = memchr(b'[', bytes)?;
    let scripts = Stretch {
        start: before.saturating_add(1),
        end: bytes.len(),
        closed: 1,
    };
    let mut cuts = cuts_before(alloc, bytes, scripts, SCRIPTS, count)?;
    keep(&mut cuts, last_cut(bytes, scripts, SCRIPTS))?;
    if cuts.len() < 2 {
        return None;
    }
    Some(cuts)
}
