//! The verbs `prefixes` and `scriptprefixes`: each proper prefix of a text read.
use crate::document::play_document;
use crate::scripts::play_scripts;
use crate::written::Written;
use std::alloc::Global;
use std::thread::Threads;

/// Answers with the answers to all proper prefixes of a text of scripts or of a document, the empty one first. An
/// answer equal to the one before is left out.
pub fn play_prefixes<T: Threads + Sync>(
    rt: &T,
    alloc: Global,
    scripts: bool,
    text: &[u8],
    answer: &mut Written,
) {
    let mut last = Written::new(alloc);
    for length in 0..text.len() {
        let mut now = Written::new(alloc);
        play_prefix(rt, alloc, scripts, &text[..length], &mut now);
        answer.add_unlike(&mut last, now);
    }
}

fn play_prefix<T: Threads + Sync>(
    rt: &T,
    alloc: Global,
    scripts: bool,
    text: &[u8],
    answer: &mut Written,
) {
    if scripts {
        play_scripts(rt, alloc, "", text, answer);
    } else {
        play_document(rt, alloc, "", text, answer);
    }
}
