//! The verb `tokens`: whether a text is read from its tokens.
use crate::pieces::pieces_of;
use crate::written::Written;
use city_texts::{city_in_pieces, scripts_in_pieces, streamed_city, streamed_scripts};
use std::alloc::Global;
use std::thread::Threads;

/// Answers whether a text, a `document` or `scripts`, is `read` from its tokens or `left` to be read from its tree;
/// or, for a text in pieces, whether it is `read` in pieces or `left` to be read at once.
pub fn play_tokens<T: Threads + Sync>(
    rt: &T,
    alloc: Global,
    kind: &str,
    text: &[u8],
    answer: &mut Written,
) {
    let read = match kind.split_once(" ").unwrap_or((kind, "")) {
        ("document", "") => streamed_city(alloc, text).is_some(),
        ("scripts", "") => streamed_scripts(alloc, text).is_some(),
        ("document", word) => city_in_pieces(rt, alloc, text, pieces_of(word)).is_some(),
        ("scripts", word) => scripts_in_pieces(rt, alloc, text, pieces_of(word)).is_some(),
        _ => return answer.add_line("no such text"),
    };
    answer.add_line(if read { "read" } else { "left" });
}
