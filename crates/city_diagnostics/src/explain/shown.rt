//! Words shown on a terminal.
use city_details::Quoted;
use city_model::OutOfMemory;
use std::alloc::Global;
use std::fmt::Write;

/// Adds words. A character that could steer a terminal is added by its number, as in a JSON text.
pub fn add_shown(lines: &mut String, words: &str) -> Result<(), OutOfMemory> {
    for c in words.chars() {
        if steers(c) {
            let number = u32::from(c);
            write!(lines, "\\u{number:04x}")?;
        } else {
            lines.push(c)?;
        }
    }
    Ok(())
}

/// The name of a file as it is shown: as it is if it is plain, else as a JSON text.
pub fn shown_name(alloc: Global, name: &str) -> Result<String, OutOfMemory> {
    let mut shown = String::new(alloc);
    if is_plain(name) {
        shown.push_str(name)?;
    } else {
        let name = Quoted(name);
        let quoted = format!(in alloc; "{name}")?;
        add_shown(&mut shown, quoted.as_str())?;
    }
    Ok(shown)
}

/// Whether a name has letters, digits and a few signs alone, so that no shell takes it apart.
fn is_plain(name: &str) -> bool {
    !name.is_empty() && name.as_bytes().iter().all(|byte| is_plain_byte(*byte))
}

fn is_plain_byte(byte: u8) -> bool {
    byte.is_ascii_alphanumeric()
        || matches!(
            byte,
            b'/' | b'.' | b'_' | b'-' | b'+' | b'=' | b',' | b':' | b'@'
        )
}

/// Whether a character is a control character, ends a line, or turns the direction of the text round it.
fn steers(c: char) -> bool {
    matches!(
        c,
        '\0'..='\u{1f}'
            | '\u{7f}'..='\u{9f}'
            | '\u{61c}'
            | '\u{200e}'..='\u{200f}'
            | '\u{2028}'..='\u{202e}'
            | '\u{2066}'..='\u{2069}'
            | '\u{feff}'
    )
}
