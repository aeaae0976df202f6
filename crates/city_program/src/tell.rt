//! Tells what standard error gets: what viewers saw, a fault, or why a command line is refused.
ghost use Rattle.std.specs.Prelude.{◌≡◌, ◌++◌, ◌∷◌, [], ℕ, List, string_bytes, IfOk, IfErr, OnOk};
ghost use Rattle.city_serve.specs.FaultTexts.{fault_text};
ghost use Rattle.city_program.specs.SeenTexts.{seen_text};
ghost use Rattle.city_program.specs.declared.status.Status.{Status};
ghost use Rattle.city_program.specs.Programs.{IsLineTold, memory_line};
ghost use Rattle.city_program.specs.internal.Telling.{IsFaultText, IsSeenTold, IsToldAfter};

use crate::seen_line::seen_line;
use crate::status::Status;
use city_model::OutOfMemory;
use city_options::command_line::LineFault;
use city_serve::fault_line::fault_line;
use city_serve::serve::write_output;
use city_serve::{Device, ServeFault};
use std::alloc::Global;
use std::io::Write;

/// Told if memory runs out.
pub(crate) const MEMORY_LINE: &str = "cityed: out of memory\n";

/// Tells what each viewer saw, and the lines behind that. The output is written by then: if errors can't
/// be, the status is the run's.
pub(crate) fn tell_seen<E: Write>(
    alloc: Global,
    seen: &[Vec<u64>],
    behind: &str,
    status: Status,
    errors: &mut Device<E>,
) -> Status
    ensures { IsSeenTold status result (E.contents errors.old.0) (E.contents errors.new.0) errors.new.1
        seen.now behind.now }
{
    for (viewer, numbers) in seen.iter().enumerate() {
        let Ok(()) = tell_viewer(alloc, viewer, numbers.as_slice(), errors) else {
            return tell_memory(errors);
        };
    }
    tell_lines(errors, behind);
    status
}

/// Tells lines, if there are any.
fn tell_lines<E: Write>(errors: &mut Device<E>, lines: &str)
    ensures { IsToldAfter errors.old.1 (E.contents errors.old.0) (E.contents errors.new.0) errors.new.1 lines.now }
{
    if !lines.is_empty() {
        tell(errors, lines);
    }
}

/// Tells what a viewer saw. Out of memory, it tells nothing.
fn tell_viewer<E: Write>(
    alloc: Global,
    viewer: usize,
    seen: &[u64],
    errors: &mut Device<E>,
) -> Result<(), OutOfMemory>
    ensures told { OnOk result (IsToldAfter errors.old.1 (E.contents errors.old.0) (E.contents errors.new.0)
        errors.new.1 (seen_text viewer seen.now ++ 10 ∷ [])) }
    ensures kept { IfErr result (λ _. errors.new ≡ errors.old) }
{
    let mut line = seen_line(alloc, viewer, seen)?;
    line.push_str("\n")?;
    tell(errors, line.as_str());
    Ok(())
}

/// Tells why the command line is refused, or that memory ran out for it.
pub fn refuse_line<E: Write>(alloc: Global, fault: &LineFault, errors: &mut Device<E>) -> Status
    ensures { IsLineTold result fault.now (E.contents errors.old.0) (E.contents errors.new.0) errors.new.1 }
{
    match fault {
        LineFault::Refused(text) => {
            tell(errors, text.as_str());
            Status::Refused
        }
        LineFault::OutOfMemory => tell_memory(errors),
    }
}

/// Tells that memory ran out.
fn tell_memory<E: Write>(errors: &mut Device<E>) -> Status
    ensures status { result ≡ Status.Failed }
    ensures told { IsToldAfter errors.old.1 (E.contents errors.old.0) (E.contents errors.new.0) errors.new.1
        memory_line }
{
    tell(errors, MEMORY_LINE);
    Status::Failed
}

/// Tells a fault, with its explanation behind its line. If memory is short for that, tells that
/// memory ran out.
pub(crate) fn tell_fault<E: Write>(
    alloc: Global,
    fault: &ServeFault,
    behind: &str,
    errors: &mut Device<E>,
) -> Status
    ensures status { result ≡ Status.Failed }
    ensures told { (text : List ℕ) × IsFaultText fault.now behind.now text
        × IsToldAfter errors.old.1 (E.contents errors.old.0) (E.contents errors.new.0) errors.new.1 text }
{
    match ended_line(alloc, fault, behind) {
        Ok(line) => tell(errors, line.as_str()),
        Err(OutOfMemory) => tell(errors, MEMORY_LINE),
    }
    Status::Failed
}

/// The line to report a fault, its newline, and the lines behind it.
fn ended_line(alloc: Global, fault: &ServeFault, behind: &str) -> Result<String, OutOfMemory>
    ensures { IfOk result (λ s. string_bytes s ≡ (fault_text fault.now ++ 10 ∷ []) ++ behind.now) }
{
    let mut line = fault_line(alloc, fault)?;
    line.push_str("\n")?;
    line.push_str(behind)?;
    Ok(line)
}

/// Writes a text to errors. If that fails, only the status is left, and nobody is told.
pub(crate) fn tell<E: Write>(errors: &mut Device<E>, text: &str)
    ensures { IsToldAfter errors.old.1 (E.contents errors.old.0) (E.contents errors.new.0) errors.new.1 text.now }
{
    let _ = write_output(errors, text.as_bytes());
}
