//! A text as a JSON text.
ghost use Rattle.std.specs.Prelude.{◌≡◌, ◌<◌, MatchOption, Some};
ghost use Rattle.std.specs.Char.{encode_utf8};
ghost use Rattle.std.specs.Fmt.{WritesOnOk};
ghost use Rattle.json.specs.Print.{escape, escape_letter, quoted};

use city_members::text::Text;
use std::fmt::{self, Display, Formatter, Write};

/// Shows a text as a JSON text: in quotes, with the shortest escapes.
#[derive(Clone, Copy)]
pub(super) struct Quoted<'a>(pub(super) &'a Text);

impl Display for Quoted<'_> {
    ghost output = { λ text. Some (quoted text.0.now) };

    fn fmt<W: Write>(&self, f: &mut Formatter<W>) -> fmt::Result {
        f.write_str("\"")?;
        for c in self.0.as_str().chars() {
            write_escaped(f, c)?;
        }
        f.write_str("\"")
    }
}

fn write_escaped<W: Write>(f: &mut Formatter<W>, c: char) -> fmt::Result
    ensures { WritesOnOk W.write_str_gives f.old result (escape (encode_utf8 c)) f.new }
{
    match letter(c) {
        Some(letter) => write!(f, "\\{letter}"),
        None if c < ' ' => write!(f, "\\u00{:02x}", c as u8),
        None => f.write_char(c),
    }
}

/// The letter of a character's short escape.
fn letter(c: char) -> Option<char>
    ensures { MatchOption result (escape_letter c ≡ 0) (λ letter.
        (letter ≡ escape_letter c) × (c < 128) × (0 < letter) × (letter < 128)) }
{
    match c {
        '"' | '\\' => Some(c),
        '\u{8}' => Some('b'),
        '\u{c}' => Some('f'),
        '\n' => Some('n'),
        '\r' => Some('r'),
        '\t' => Some('t'),
        _ => None,
    }
}
