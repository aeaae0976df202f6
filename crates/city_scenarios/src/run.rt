//! The verb `run`: a run by one worker.
use crate::fault_lines::add_run_fault;
use crate::served::add_served;
use crate::written::Written;
use city_desk::run_serial;
use city_serve::Options;
use std::alloc::Global;
use std::sync::Wait;
use std::thread::Threads;

/// Answers with the output of a run by one worker, or its fault. Then the same texts are served, without and with
/// `--decimals`; a different output follows.
pub fn play_run<T: Threads + Wait + Sync>(
    rt: &T,
    alloc: Global,
    document: &[u8],
    scripts: &[u8],
    answer: &mut Written,
) {
    let mut ran = Written::new(alloc);
    run_alone(alloc, document, scripts, &mut ran);
    answer.add_written(&ran);
    for (title, decimals) in [("served:", false), ("with --decimals:", true)] {
        let served = served(rt, alloc, decimals, document, scripts);
        if served.as_slice() != ran.as_slice() {
            answer.add_line(title);
            answer.add_written(&served);
        }
    }
}

/// The output of the texts, served by one worker, or the fault.
fn served<T: Threads + Wait + Sync>(
    rt: &T,
    alloc: Global,
    decimals: bool,
    document: &[u8],
    scripts: &[u8],
) -> Written {
    let options = Options {
        workers: 1,
        viewers: 0,
        decimals,
        explain: false,
    };
    let mut served = Written::new(alloc);
    add_served(rt, alloc, options, document, scripts, &mut served);
    served
}

/// Adds the output of a run by one worker, or its fault.
fn run_alone(alloc: Global, document: &[u8], scripts: &[u8], answer: &mut Written) {
    match run_serial(alloc, document, scripts) {
        Ok(output) => answer.add_lines(output.bytes.as_slice()),
        Err(fault) => add_run_fault(alloc, fault, answer),
    }
}
