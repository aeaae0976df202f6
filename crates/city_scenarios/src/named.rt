//! The named texts of a file, and their pieces.
ghost use Rattle.std.specs.Prelude.{◌≡◌, nat_eq, None, Some, MatchOption};
ghost use Rattle.std.specs.Cmp.Lexicographic.{pointwise};
ghost use Rattle.city_scenarios.specs.NamedTexts.{text_at};

use crate::written::Written;
use city_model::OutOfMemory;
use std::alloc::Global;
use std::marker::Model;
use std::slice;

/// A text with a name. Contracts see both.
#[derive(Drop)]
pub struct Named<'a> {
    name: &'a str,
    text: Vec<u8>,
}

impl<'a> Model for Named<'a> {
    ghost use Rattle.city_scenarios.specs.NamedTexts.{NamedText};

    ghost Value = { NamedText };

    ghost view = { λ n. (n.name.now, n.text.items) };
}

impl<'a> Named<'a> {
    /// Whether it has this name.
    fn is_named(&self, name: &str) -> bool
        ensures { result ≡ pointwise nat_eq self.now.0 name.now }
    {
        self.name == name
    }

    /// Its text.
    fn text(&self) -> &[u8]
        ensures { result.now ≡ self.now.1 }
    {
        self.text.as_slice()
    }
}

/// The meaning of a line: the text of this name for `$NAME`, else the line itself.
pub fn meant<'t>(names: &'t [Named], line: &'t str) -> &'t [u8] {
    let Some(name) = line.strip_prefix("$") else {
        return line.as_bytes();
    };
    text_named(names, name).unwrap_or(line.as_bytes())
}

/// The text of this name, if there is one.
pub fn text_named<'t>(names: &'t [Named], name: &str) -> Option<&'t [u8]>
    ensures { MatchOption result (text_at names.now name.now ≡ None) (λ t. text_at names.now name.now ≡ Some t.now) }
{
    for named in names {
        if named.is_named(name) {
            return Some(named.text());
        }
    }
    None
}

/// The text of a name: the name stands in the first line, and each other line is a piece of the text.
pub fn name_text<'a>(
    alloc: Global,
    names: &[Named],
    lines: &'a str,
) -> Result<Named<'a>, OutOfMemory> {
    let (name, pieces) = lines.split_once("\n").unwrap_or((lines, ""));
    let mut text = Written::new(alloc);
    for piece in pieces.lines() {
        add_piece(names, piece, &mut text);
    }
    let text = text.whole()?;
    Ok(Named { name, text })
}

/// Adds a piece: `bytes 255 10` is these bytes, `repeat 128 [` or `repeat 100..228 [` is the rest of the line so often,
/// and any other line its meaning.
fn add_piece(names: &[Named], line: &str, text: &mut Written) {
    if let Some(numbers) = line.strip_prefix("bytes ") {
        return add_numbers(numbers, text);
    }
    match line.strip_prefix("repeat ") {
        Some(rest) => add_repeated(names, rest, text),
        None => text.add_bytes(meant(names, line)),
    }
}

/// Adds the bytes of these numbers.
fn add_numbers(numbers: &str, text: &mut Written) {
    for number in numbers.split_whitespace() {
        if let Ok(byte) = number.parse::<u8>() {
            text.add_bytes(slice::from_ref(&byte));
        }
    }
}

/// Adds the meaning of a line for each number of the range before it, with the number for each `%`. `128` is `0..128`.
fn add_repeated(names: &[Named], rest: &str, text: &mut Written) {
    let (range, line) = rest.split_once(" ").unwrap_or((rest, ""));
    let (start, end) = range.split_once("..").unwrap_or(("0", range));
    let piece = meant(names, line);
    let numbered = piece.contains(&b'%');
    for number in start.parse::<u64>().unwrap_or(0)..end.parse::<u64>().unwrap_or(0) {
        if numbered {
            add_numbered(piece, number, text);
        } else {
            text.add_bytes(piece);
        }
    }
}

/// Adds a piece with a number in the place of each `%`.
fn add_numbered(piece: &[u8], number: u64, text: &mut Written) {
    for byte in piece {
        if *byte == b'%' {
            text.show(&number);
        } else {
            text.add_bytes(slice::from_ref(byte));
        }
    }
}
