//! The verb `document`: a document read and written, at once and in pieces.
use crate::fault_lines::end_fault;
use crate::pieces::{add_in_pieces, pieces_of, words_of};
use crate::written::Written;
use city_desk::RunFault;
use city_doc::{FIXED_SEED, ReadFault, append_city_by, read_city, read_city_by, write_city};
use city_members::copied::Copied;
use city_model::OutOfMemory;
use city_model::city::City;
use city_model::is_lawful::is_lawful;
use std::alloc::Global;
use std::thread::Threads;

/// Answers with the canonical text of a document, or its fault. Then it is read, and its city written, in each of these
/// pieces; a different answer follows.
pub fn play_document<T: Threads + Sync>(
    rt: &T,
    alloc: Global,
    pieces: &str,
    document: &[u8],
    answer: &mut Written,
) {
    let mut read = Written::new(alloc);
    add_read(alloc, read_city(alloc, document), &mut read);
    answer.add_written(&read);
    for word in words_of(pieces, document).split_whitespace() {
        let now = read_in_pieces(rt, alloc, word, document, answer);
        add_in_pieces(word, &read, &now, answer);
    }
}

/// The canonical text of a document read in these pieces, or its fault. Adds the city's text written in these pieces,
/// if it is another.
fn read_in_pieces<T: Threads + Sync>(
    rt: &T,
    alloc: Global,
    word: &str,
    document: &[u8],
    answer: &mut Written,
) -> Written {
    let city = read_city_by(rt, alloc, document, pieces_of(word));
    if let Ok(city) = &city {
        add_unlike(rt, alloc, word, city, answer);
    }
    let mut now = Written::new(alloc);
    add_read(alloc, city, &mut now);
    now
}

/// Adds the text of a city written in these pieces, if it differs from the text written at once.
fn add_unlike<T: Threads + Sync>(
    rt: &T,
    alloc: Global,
    word: &str,
    city: &City,
    answer: &mut Written,
) {
    let pieces = pieces_of(word);
    let written = append_city_by(rt, alloc, FIXED_SEED, Vec::new(alloc), city, pieces);
    let (Ok(text), Ok(written)) = (write_city(alloc, city), written) else {
        return answer.run_out();
    };
    if text.as_slice() != written.as_slice() {
        answer.add("written in pieces: ");
        answer.add_line(word);
        answer.add_lines(written.as_slice());
    }
}

/// Adds the canonical text of a city, or the fault.
fn add_read(alloc: Global, read: Result<City, ReadFault>, answer: &mut Written) {
    match read {
        Ok(city) => add_city(alloc, &city, answer),
        Err(fault) => add_read_fault(alloc, fault, answer),
    }
}

/// Adds the line of a document's fault, by the fault's own `Display`.
pub fn add_read_fault(alloc: Global, fault: ReadFault, answer: &mut Written) {
    answer.add("cityed: ");
    answer.show(&fault);
    end_fault(alloc, RunFault::from(fault), answer);
}

/// Adds the canonical text of a city, or a line if it isn't lawful or its copy has another text.
pub fn add_city(alloc: Global, city: &City, answer: &mut Written) {
    match is_lawful(alloc, city) {
        Ok(true) => add_text(alloc, city, answer),
        Ok(false) => answer.add_line("not lawful"),
        Err(OutOfMemory) => answer.run_out(),
    }
}

/// Adds the text of a city, if its copy has the same.
fn add_text(alloc: Global, city: &City, answer: &mut Written) {
    match write_city(alloc, city) {
        Ok(text) => add_copied(alloc, city, text.as_slice(), answer),
        Err(OutOfMemory) => answer.run_out(),
    }
}

/// Whether a copy of the city has its text.
fn is_copied(alloc: Global, city: &City, text: &[u8]) -> Result<bool, OutOfMemory> {
    let copy = city.copy(alloc)?;
    Ok(write_city(alloc, &copy)?.as_slice() == text)
}

/// Adds the text of a city, or a line if its copy has another.
fn add_copied(alloc: Global, city: &City, text: &[u8], answer: &mut Written) {
    match is_copied(alloc, city, text) {
        Ok(true) => answer.add_lines(text),
        Ok(false) => answer.add_line("another copy"),
        Err(OutOfMemory) => answer.run_out(),
    }
}
