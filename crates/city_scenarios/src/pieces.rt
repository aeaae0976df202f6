//! Texts read in pieces.
use crate::written::Written;
use city_doc::Pieces;

/// The most pieces of a text: each takes a thread.
const MOST: usize = 64;

/// The usual pieces of a text, if a scenario has none.
const USUAL: &str = "2x1 3x1 8x1";

/// From this length on, a text is read in pieces only if a scenario has them.
const LARGE: usize = 1_000_000;

/// The words for a text's pieces: a scenario's, or the usual ones.
pub fn words_of<'w>(said: &'w str, text: &[u8]) -> &'w str {
    if said.is_empty() && text.len() < LARGE {
        USUAL
    } else {
        said
    }
}

/// The pieces of a word: `4x100` is four of at least 100 bytes.
pub fn pieces_of(word: &str) -> Pieces {
    let (count, least) = word.split_once("x").unwrap_or((word, "1"));
    Pieces {
        count: count.parse::<usize>().unwrap_or(1).min(MOST),
        least: least.parse::<usize>().unwrap_or(1),
    }
}

/// Adds the answer to a text read in pieces, if it is another than at once.
pub fn add_in_pieces(word: &str, at_once: &Written, now: &Written, answer: &mut Written) {
    if now.as_slice() != at_once.as_slice() {
        answer.add("in pieces: ");
        answer.add_line(word);
        answer.add_written(now);
    }
}
