//! A text as a JSON text, for messages and places.
use std::fmt::{self, Display, Formatter, Write};

/// Shows a text as a JSON text: in quotes, with all control characters escaped, so it can't steer a terminal.
#[derive(Clone, Copy)]
pub struct Quoted<'t>(pub &'t str);

impl Display for Quoted<'_> {
    fn fmt<W: Write>(&self, f: &mut Formatter<W>) -> fmt::Result {
        f.write_str("\"")?;
        for c in self.0.chars() {
            write_escaped(f, c)?;
        }
        f.write_str("\"")
    }
}

fn write_escaped<W: Write>(f: &mut Formatter<W>, c: char) -> fmt::Result {
    match c {
        '"' => f.write_str("\\\""),
        '\\' => f.write_str("\\\\"),
        '\n' => f.write_str("\\n"),
        '\r' => f.write_str("\\r"),
        '\t' => f.write_str("\\t"),
        '\0'..=' ' | '\u{7f}'..='\u{9f}' if c != ' ' => write!(f, "\\u{:04x}", u32::from(c)),
        _ => f.write_char(c),
    }
}
