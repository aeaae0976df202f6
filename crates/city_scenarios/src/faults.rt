//! The verb `faults`: faults without a text that has them, by `Display`.
use crate::steps::TakesSteps;
use crate::written::Written;
use city_desk::RunFault;
use city_doc::ReadFault;
use city_scripts::ScriptFault;
use city_serve::ServeFault;
use std::alloc::Global;

/// Each step names a fault, and is answered by its `Display`.
#[derive(Clone, Copy)]
pub struct Faults;

impl TakesSteps for Faults {
    fn take_step(&mut self, _alloc: Global, step: &str, said: &mut Written) {
        match step {
            "ReadFault::OutOfMemory" => said.show(&ReadFault::OutOfMemory),
            "ScriptFault::OutOfMemory" => said.show(&ScriptFault::OutOfMemory),
            _ => show_fault(step, said),
        }
    }
}

/// Adds a fault of serving or of a run by its `Display`.
fn show_fault(step: &str, said: &mut Written) {
    let (kind, name) = step.split_once("::").unwrap_or((step, ""));
    match serve_fault(name) {
        Some(fault) => show_as(kind, &fault, said),
        None => said.add("no such fault"),
    }
}

fn show_as(kind: &str, fault: &ServeFault, said: &mut Written) {
    match fault {
        ServeFault::Run(fault) if kind == "RunFault" => said.show(fault),
        fault => said.show(fault),
    }
}

fn serve_fault(name: &str) -> Option<ServeFault> {
    match name {
        "Read" => Some(ServeFault::Read),
        "Write" => Some(ServeFault::Write),
        "InUse" => Some(ServeFault::InUse),
        "Changed" => Some(ServeFault::Changed),
        "OutOfMemory" => Some(ServeFault::Run(RunFault::OutOfMemory)),
        "NoPlace" => Some(ServeFault::Run(RunFault::NoPlace)),
        "Unfinished" => Some(ServeFault::Run(RunFault::Unfinished)),
        "Mixed" => Some(ServeFault::Run(RunFault::Mixed)),
        _ => None,
    }
}
