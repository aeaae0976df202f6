//! The lines of faults.
use crate::written::Written;
use city_desk::RunFault;
use city_model::OutOfMemory;
use city_serve::ServeFault;
use city_serve::fault_line::fault_line;
use std::alloc::Global;

/// Adds the line of a fault.
pub fn add_fault(alloc: Global, fault: &ServeFault, answer: &mut Written) {
    match fault_line(alloc, fault) {
        Ok(line) => answer.add_line(line.as_str()),
        Err(OutOfMemory) => answer.run_out(),
    }
}

/// Adds the line of a run's fault, by the fault's own `Display`.
pub fn add_run_fault(alloc: Global, fault: RunFault, answer: &mut Written) {
    answer.add("cityed: ");
    answer.show(&fault);
    end_fault(alloc, fault, answer);
}

/// Ends the line of a fault shown by itself, and adds the program's line if it is another.
pub fn end_fault(alloc: Global, fault: RunFault, answer: &mut Written) {
    let fault = ServeFault::Run(fault);
    match fault_line(alloc, &fault) {
        Ok(line) => end_line(line.as_str(), answer),
        Err(OutOfMemory) => answer.run_out(),
    }
}

fn end_line(line: &str, answer: &mut Written) {
    if !answer.as_slice().ends_with(line.as_bytes()) {
        answer.add("\n");
        answer.add(line);
    }
    answer.add("\n");
}
