//! The scripts of a list of ends, played one at a time in the order of these ends.
use crate::board::turn;
use crate::runs::{Run, opened};
use city_desk::{Desk, ListShelf, Turn, output_bytes};
use city_doc::FIXED_SEED;
use city_model::end::{End, Outcome};
use std::alloc::Global;

/// Runs a script to its end. No script here takes more than 16 turns.
fn end(desk: &mut Desk<ListShelf>, script: usize) {
    for _ in 0..16 {
        if turn(desk, script) == Some(Turn::Ended) {
            return;
        }
    }
}

/// Runs the scripts of these ends again, in this order, except scripts out of memory.
fn end_each(desk: &mut Desk<ListShelf>, ends: &[End]) {
    for one in ends {
        if !matches!(one.outcome, Outcome::NoMemory(_)) {
            end(desk, one.script);
        }
    }
}

/// The output of the scripts of these ends, played in this way; None if memory ran out.
fn written_again(alloc: Global, run: &Run, ends: &[End]) -> Option<Vec<u8>> {
    let mut desk = opened(alloc, run)?;
    end_each(&mut desk, ends);
    let (city, ends, _shelf) = desk.close();
    for one in ends.as_slice() {
        if matches!(one.outcome, Outcome::NoMemory(_)) {
            return None;
        }
    }
    let (bytes, _) = output_bytes(alloc, FIXED_SEED, &city, ends.as_slice(), Vec::new(alloc)).ok()?;
    Some(bytes)
}

/// The lines of an output, without `since` and without scripts out of memory.
fn without_since(alloc: Global, bytes: &[u8]) -> Option<String> {
    let mut text = String::new(alloc);
    for line in str::from_utf8(bytes).ok()?.lines() {
        if !line.contains(r#""outcome":"nomemory""#) {
            let kept = match line.rsplit_once(r#","since":"#) {
                Some((kept, _)) => kept,
                None => line,
            };
            text.push_str(kept).ok()?;
            text.push_str("\n").ok()?;
        }
    }
    Some(text)
}

/// Whether the scripts of a run's ends, played in this way, give the same; None if memory ran out.
fn compared(alloc: Global, run: &Run, ends: &[End], bytes: &[u8]) -> Option<bool> {
    let again = written_again(alloc, run, ends)?;
    let wanted = without_since(alloc, again.as_slice())?;
    let found = without_since(alloc, bytes)?;
    Some(found.as_str() == wanted.as_str())
}

/// The same, with a second try if memory runs out.
pub fn is_replayed(alloc: Global, run: &Run, ends: &[End], bytes: &[u8]) -> bool {
    let first = compared(alloc, run, ends, bytes);
    first.or(compared(alloc, run, ends, bytes)) == Some(true)
}
