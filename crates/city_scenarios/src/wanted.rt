//! The answer that came, compared with the wanted one.
use crate::written::Written;

/// Most bytes of a line shown.
const SHOWN: usize = 2000;

/// Whether the two answers are equal. If not, the scenario's title and the first different line are told.
pub fn is_wanted(title: &str, wanted: &[u8], came: &[u8], told: &mut Written) -> bool {
    if wanted == came {
        return true;
    }
    let (number, start) = first_unlike(wanted, came);
    told.add_line(title);
    told.add("wanted in line ");
    told.show(&number);
    told.add(": ");
    add_line_at(wanted, start, told);
    told.add("\ncame: ");
    add_line_at(came, start, told);
    false
}

/// The number of the first different line, and its start.
fn first_unlike(wanted: &[u8], came: &[u8]) -> (u64, usize) {
    let (mut number, mut start) = (1u64, 0usize);
    for (place, (one, other)) in wanted.iter().zip(came).enumerate() {
        if *one != *other {
            break;
        }
        if *one == b'\n' {
            number = number.saturating_add(1);
            start = place.saturating_add(1);
        }
    }
    (number, start)
}

/// Adds the line that begins at `start`, with `?` for invalid UTF-8.
fn add_line_at(bytes: &[u8], start: usize, told: &mut Written) {
    let (_, rest) = bytes.split_at(start.min(bytes.len()));
    let (shown, _) = rest.split_at(rest.len().min(SHOWN));
    told.add(if shown.is_empty() { "no line" } else { "" });
    for chunk in shown.utf8_chunks() {
        if let Some((line, _)) = chunk.valid().split_once("\n") {
            return told.add(line);
        }
        told.add(chunk.valid());
        told.add(if chunk.invalid().is_empty() { "" } else { "?" });
    }
}
