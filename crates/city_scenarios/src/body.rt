//! The verb `body`: faults of bodies.
use crate::scripts::add_script_fault;
use crate::written::Written;
use city_model::OutOfMemory;
use city_model::body_fault::body_fault;
use city_model::command::{Cause, Command};
use city_model::object::{Body, Geometry, Shell};
use city_model::script::Script;
use city_model::shape::Bounds;
use city_model::shells::shell_closed;
use city_scripts::read_scripts;
use std::alloc::Global;

/// Answers with the fault of each body in the puts of a text of scripts, and whether each of its shells is closed.
pub fn play_body(alloc: Global, scripts: &[u8], answer: &mut Written) {
    match read_scripts(alloc, scripts) {
        Ok(scripts) => add_scripts(alloc, scripts.as_slice(), answer),
        Err(fault) => add_script_fault(alloc, fault, answer),
    }
}

fn add_scripts(alloc: Global, scripts: &[Script], answer: &mut Written) {
    for script in scripts {
        add_bodies(alloc, script.commands(), answer);
    }
}

fn add_bodies(alloc: Global, commands: &[Command], answer: &mut Written) {
    for command in commands {
        if let Command::Put(id, body) = command {
            answer.add(id.as_str());
            answer.add(" ");
            add_cause(alloc, body.get(), answer);
            add_shells(alloc, body.get(), answer);
        }
    }
}

/// Adds the name of a body's fault, or `none`.
fn add_cause(alloc: Global, body: &Body, answer: &mut Written) {
    match body_fault(alloc, body) {
        Ok(cause) => answer.add_line(name_of(&cause)),
        Err(OutOfMemory) => answer.run_out(),
    }
}

fn name_of(cause: &Option<Cause>) -> &'static str {
    match cause {
        None => "none",
        Some(Cause::ShortRing) => "ShortRing",
        Some(Cause::SameTwice) => "SameTwice",
        Some(Cause::OpenShell) => "OpenShell",
        Some(_) => "another cause",
    }
}

fn add_shells(alloc: Global, body: &Body, answer: &mut Written) {
    for geometry in body.geometry.get().as_slice() {
        add_shells_of(alloc, geometry, answer);
    }
}

fn add_shells_of(alloc: Global, geometry: &Geometry, answer: &mut Written) {
    match geometry.shape.bounds() {
        Bounds::Surfaces(_) => {}
        Bounds::Shells(shells) => add_closed(alloc, shells.as_slice(), answer),
        Bounds::Solids(solids) => {
            for solid in solids.as_slice() {
                add_closed(alloc, solid.as_slice(), answer);
            }
        }
    }
}

fn add_closed(alloc: Global, shells: &[Shell], answer: &mut Written) {
    for shell in shells {
        match shell_closed(alloc, shell) {
            Ok(closed) => answer.add_line(if closed { "closed" } else { "open" }),
            Err(OutOfMemory) => answer.run_out(),
        }
    }
}
