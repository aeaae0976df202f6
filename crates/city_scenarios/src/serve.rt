//! The verb `serve`: from a reader to a writer.
use crate::fault_lines::add_fault;
use crate::reader::{Giving, Reads};
use crate::writer::{Taking, Writes};
use crate::written::Written;
use city_model::OutOfMemory;
use city_serve::Device;
use city_serve::serve::serve;
use std::alloc::Global;
use std::sync::Wait;
use std::thread::Threads;

/// Serves the input through a reader and a writer with the habits of these words. Answers with the writer's bytes, and
/// the fault if any.
pub fn play_serve<T: Threads + Wait + Sync>(
    rt: &T,
    alloc: Global,
    words: &str,
    texts: &[&[u8]],
    answer: &mut Written,
) {
    match joined(alloc, texts) {
        Ok(input) if words.contains(" each") => {
            serve_each(rt, alloc, words, input.as_slice(), answer);
        }
        Ok(input) => serve_once(rt, alloc, words, input.as_slice(), answer),
        Err(OutOfMemory) => answer.run_out(),
    }
}

/// The texts with a newline between two.
pub fn joined(alloc: Global, texts: &[&[u8]]) -> Result<Vec<u8>, OutOfMemory> {
    let mut all = Written::new(alloc);
    for (number, text) in texts.iter().enumerate() {
        all.add(if number == 0 { "" } else { "\n" });
        all.add_bytes(text);
    }
    all.whole()
}

/// Serves the input, and adds the writer's bytes, and the line of the fault if any.
fn serve_once<T: Threads + Wait + Sync>(
    rt: &T,
    alloc: Global,
    words: &str,
    input: &[u8],
    answer: &mut Written,
) {
    let mut line = Written::new(alloc);
    let written = served(rt, alloc, words, None, input, &mut line);
    if !written.is_empty() {
        answer.add_lines(written.as_slice());
    }
    answer.add_written(&line);
}

/// Serves the input to a writer, with this room if any, and returns its bytes. Adds the line of the fault if any.
fn served<T: Threads + Wait + Sync>(
    rt: &T,
    alloc: Global,
    words: &str,
    room: Option<usize>,
    input: &[u8],
    line: &mut Written,
) -> Vec<u8> {
    let mut taking = Taking::new(alloc, Writes::told(words, room));
    serve_to(rt, alloc, words, &mut taking, input, line);
    taking.into_written()
}

/// Serves the input to a writer, and adds the line of the fault if any.
fn serve_to<T: Threads + Wait + Sync>(
    rt: &T,
    alloc: Global,
    words: &str,
    taking: &mut Taking,
    input: &[u8],
    line: &mut Written,
) {
    let mut reader = Device::new(Giving::new(Reads::told(words), input));
    let mut writer = Device::new(taking);
    if let Err(fault) = serve(rt, alloc, &mut reader, &mut writer, 1, 0) {
        add_fault(alloc, &fault, line);
    }
}

/// Serves to a writer with room for each number of bytes below the output's, and answers with the faults: once, if they
/// are equal and the writer always has the first bytes.
fn serve_each<T: Threads + Wait + Sync>(
    rt: &T,
    alloc: Global,
    words: &str,
    input: &[u8],
    answer: &mut Written,
) {
    let mut last = Written::new(alloc);
    let whole = served(
        rt,
        alloc,
        words,
        Some(usize::MAX),
        input,
        &mut Written::new(alloc),
    );
    for room in 0..whole.len() {
        let mut line = Written::new(alloc);
        let written = served(rt, alloc, words, Some(room), input, &mut line);
        if written.as_slice() != &whole.as_slice()[..room] {
            line.add("other bytes at ");
            line.show(&room);
            line.add("\n");
        }
        answer.add_unlike(&mut last, line);
    }
}
