//! The verb `scripts`: a text of scripts read, at once and in pieces.
use crate::fault_lines::end_fault;
use crate::pieces::{add_in_pieces, pieces_of, words_of};
use crate::written::Written;
use city_desk::RunFault;
use city_members::sequence::Sequence;
use city_model::script::Script;
use city_scripts::{ScriptFault, read_scripts, read_scripts_by};
use std::alloc::Global;
use std::thread::Threads;

/// Answers with a line for each script, its name and its number of commands, or with the fault of the text. Then the
/// text is read in each of these pieces; a different answer follows.
pub fn play_scripts<T: Threads + Sync>(
    rt: &T,
    alloc: Global,
    pieces: &str,
    text: &[u8],
    answer: &mut Written,
) {
    let mut read = Written::new(alloc);
    add_read(alloc, read_scripts(alloc, text), &mut read);
    answer.add_written(&read);
    for word in words_of(pieces, text).split_whitespace() {
        let mut now = Written::new(alloc);
        let scripts = read_scripts_by(rt, alloc, text, pieces_of(word));
        add_read(alloc, scripts, &mut now);
        add_in_pieces(word, &read, &now, answer);
    }
}

/// Adds a line for each script, or the fault.
fn add_read(alloc: Global, read: Result<Sequence<Script>, ScriptFault>, answer: &mut Written) {
    match read {
        Ok(scripts) => add_scripts(scripts.as_slice(), answer),
        Err(fault) => add_script_fault(alloc, fault, answer),
    }
}

/// Adds the line of a fault of scripts, by the fault's own `Display`.
pub fn add_script_fault(alloc: Global, fault: ScriptFault, answer: &mut Written) {
    answer.add("cityed: ");
    answer.show(&fault);
    end_fault(alloc, RunFault::from(fault), answer);
}

fn add_scripts(scripts: &[Script], answer: &mut Written) {
    for script in scripts {
        answer.add(script.name().as_str());
        answer.add(" ");
        answer.show(&script.commands().len());
        answer.add("\n");
    }
}
