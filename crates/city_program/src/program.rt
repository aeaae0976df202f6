//! Answers the words of a command line.
ghost use Rattle.std.specs.Prelude.{◌≡◌, [], ℕ, List, true, false, drop, map, string_bytes, option_map, IfOk, IfErr};
ghost use Rattle.city_options.specs.CommandLines.{HasOptions};
ghost use Rattle.city_program.specs.declared.status.Status.{Status};
ghost use Rattle.city_program.specs.Programs.{is_explained, IsUnanswered, IsUnansweredBy, IsToldFault};
ghost use Rattle.city_program.specs.Programs.{HasOutputAndScripts, NamesScripts, output_of, steps_inside};
ghost use Rattle.city_program.specs.Programs.{Ends, EndsAsked, tells_refused};
ghost use Rattle.city_program.specs.internal.Telling.{run_status, check_status, IsAnsweredAs, IsToldAfter};
ghost use Rattle.city_program.specs.internal.Telling.{is_check, is_withheld_at, tells_no_faults};
ghost use Rattle.city_serve.specs.Steps.{Step, Takes, under_lock};

use crate::check::check;
use crate::explain::{behind_line, refused_lines, tells_refused};
use crate::status::Status;
use crate::tell::{refuse_line, tell, tell_fault, tell_seen};
use city_crew::Gate;
use city_desk::RunFault;
use city_members::sequence::Sequence;
use city_model::city::City;
use city_model::end::End;
use city_options::command_line::{Asked, asked_by};
use city_serve::serve::{read_input, write_output};
use city_serve::serve_texts::serve_to;
use city_serve::{Delivered, Device, OutputFiles, ServeFault, Text, Texts};
use std::alloc::Global;
use std::io::{Read, Write};
use std::mem::forget;
use std::sync::Wait;
use std::thread::Threads;

/// Told on a terminal if a check finds no fault.
const NO_FAULTS: &str = "cityed: no faults\n";

/// Told if the output file is the scripts' file.
const SCRIPTS_NAMED: &str =
    "error: --output names SCRIPTS\n\nFor more information, try '--help'.\n";

/// Answers the words of a command line, the program's name first.
///
/// Output gets everything served, or the requested text; an output file is replaced whole, or stays
/// as it was. It is locked before any text is read, and unlocked at the end; a line whose output
/// file is the scripts' file is refused. Errors get a line for each viewer once the output is
/// written, on a terminal a line if a check finds no fault, or why there is no output. A failure to write errors changes no status. The memory of the
/// final city isn't given back: the process is taken to end.
pub fn run_program<
    T: Threads + Wait + Sync,
    G: Gate + Sync,
    F: OutputFiles,
    R: Read,
    W: Write,
    E: Write,
>(
    rt: &T,
    alloc: Global,
    gate: &G,
    seed: u64,
    files: &mut F,
    words: &[String],
    input: &mut Device<R>,
    output: &mut Device<W>,
    errors: &mut Device<E>,
    terminal: bool,
) -> Status
    requires { (input.old.1 ≡ false) × (output.old.1 ≡ false) }
    ensures { Ends terminal (drop 1 (map string_bytes words.now)) result
        (record {
          before = F.text files.old;
          after = F.text files.new;
          files_failed = F.have_failed files.new;
          begun = F.steps files.old;
          ended = F.steps files.new;
          input = R.remaining input.old.0;
          reader_failed = input.new.1;
          old = W.contents output.old.0;
          new = W.contents output.new.0;
          failed = output.new.1;
        })
        (E.contents errors.old.0) (E.contents errors.new.0) errors.new.1 }
{
    match asked_by(alloc, words) {
        Ok(asked) => run_asked(
            rt, alloc, gate, seed, files, &asked, input, output, errors, terminal,
        ),
        Err(fault) => refuse_line(alloc, &fault, errors),
    }
}

/// Answers a request, and tells what viewers saw, or why there is no answer.
fn run_asked<T: Threads + Wait + Sync, G: Gate + Sync, F: OutputFiles, R: Read, W: Write, E: Write>(
    rt: &T,
    alloc: Global,
    gate: &G,
    seed: u64,
    files: &mut F,
    asked: &Asked<'_>,
    input: &mut Device<R>,
    output: &mut Device<W>,
    errors: &mut Device<E>,
    terminal: bool,
) -> Status
    requires options { HasOptions asked.now }
    requires fresh { output.old.1 ≡ false }
    ensures named { NamesScripts asked.now → result ≡ Status.Refused }
    ensures ended { EndsAsked terminal asked.now result
        (record {
          before = F.text files.old;
          after = F.text files.new;
          files_failed = F.have_failed files.new;
          begun = F.steps files.old;
          ended = F.steps files.new;
          input = R.remaining input.old.0;
          reader_failed = input.new.1;
          old = W.contents output.old.0;
          new = W.contents output.new.0;
          failed = output.new.1;
        })
        (E.contents errors.old.0) (E.contents errors.new.0) errors.new.1 }
{
    if names_scripts(files, asked) {
        tell(errors, SCRIPTS_NAMED);
        return Status::Refused;
    }
    let mut texts = Texts::unread(alloc);
    texts.explained = tells_refused(terminal, asked);
    match answer(
        rt, alloc, gate, seed, files, &mut texts, asked, input, output,
    ) {
        Ok(answer) => {
            if tells_no_faults(terminal, asked, answer.status) {
                tell(errors, NO_FAULTS);
                return Status::Done;
            }
            let behind = refused_lines(alloc, terminal, asked, texts, answer.ends.as_slice());
            tell_seen(
                alloc,
                answer.seen.as_slice(),
                behind.as_str(),
                answer.status,
                errors,
            )
        }
        Err(fault) => tell_unanswered(
            alloc, terminal, fault, asked, texts, files, input, output, errors,
        ),
    }
}

/// Whether it is told that a check found no fault: on a terminal.
fn tells_no_faults(terminal: bool, asked: &Asked<'_>, status: Status) -> bool
    ensures { result ≡ tells_no_faults status asked.now terminal }
{
    match status {
        Status::Done => is_check(asked) && terminal,
        Status::Failed | Status::Faulty | Status::Refused | Status::Withheld => false,
    }
}

fn is_check(asked: &Asked<'_>) -> bool
    ensures { result ≡ is_check asked.now }
{
    match asked {
        Asked::Check(_, _, _) => true,
        Asked::Input(_, _) | Asked::Files(_, _, _, _) | Asked::Text(_) => false,
    }
}

/// Whether the output file of a run is the file of its scripts, by its name or behind it.
fn names_scripts<F: OutputFiles>(files: &F, asked: &Asked<'_>) -> bool
    ensures named { NamesScripts asked.now → result ≡ true }
    ensures has { result ≡ true → HasOutputAndScripts asked.now }
{
    match asked {
        Asked::Files(_, destination, _, scripts) => match destination.file {
            Some(file) => files.are_same(file, *scripts),
            None => false,
        },
        _ => false,
    }
}

/// Tells why a request isn't answered, with the explanation, if any.
fn tell_unanswered<F: OutputFiles, R: Read, W: Write, E: Write>(
    alloc: Global,
    terminal: bool,
    fault: ServeFault,
    asked: &Asked<'_>,
    texts: Texts,
    files: &F,
    input: &Device<R>,
    output: &Device<W>,
    errors: &mut Device<E>,
) -> Status
    ensures status { result ≡ Status.Failed }
    ensures told { (text : List ℕ) × IsToldFault (is_explained terminal asked.now) fault text
        × IsToldAfter errors.old.1 (E.contents errors.old.0) (E.contents errors.new.0) errors.new.1 text }
{
    let behind = behind_line(alloc, terminal, &fault, asked, &texts, files, input, output);
    tell_fault(alloc, &fault, behind.as_str(), errors)
}

/// The result of a request, once done.
#[derive(Drop)]
struct Answered {
    /// For each viewer, the numbers of the changes it saw.
    seen: Vec<Vec<u64>>,
    /// The ends of the scripts of a run, oldest first.
    ends: Sequence<End>,
    status: Status,
}

/// The answer of a check.
fn check_answer(alloc: Global, faulty: bool) -> Answered
    ensures seen { result.seen.items ≡ [] }
    ensures status { result.status ≡ check_status faulty }
{
    let status = if faulty { Status::Faulty } else { Status::Done };
    Answered {
        seen: Vec::new(alloc),
        ends: Sequence::new(alloc),
        status,
    }
}

/// The answer of a run, whose final city is left to the end of the process: to drop it object by
/// object would take time.
fn run_answer(delivered: Delivered, city: City) -> Answered
    ensures seen { result.seen ≡ delivered.seen }
    ensures status { result.status ≡ run_status delivered.withheld }
{
    forget(city);
    let status = if delivered.withheld {
        Status::Withheld
    } else {
        Status::Done
    };
    Answered {
        seen: delivered.seen,
        ends: delivered.ends,
        status,
    }
}

/// The output file of a run, and for how many seconds to wait for it.
fn file_to_lock<'a>(asked: &Asked<'a>) -> Option<(&'a str, usize)>
    ensures { option_map (λ to. to.0.now) result ≡ output_of asked.now }
{
    match asked {
        Asked::Input(_, to) | Asked::Files(_, to, _, _) => match to.file {
            Some(path) => Some((path, to.wait)),
            None => None,
        },
        Asked::Check(_, _, _) | Asked::Text(_) => None,
    }
}

/// Writes the answer to a request. The output file of a run is locked before any text is read, and
/// unlocked at the end.
fn answer<T: Threads + Wait + Sync, G: Gate + Sync, F: OutputFiles, R: Read, W: Write>(
    rt: &T,
    alloc: Global,
    gate: &G,
    seed: u64,
    files: &mut F,
    texts: &mut Texts,
    asked: &Asked<'_>,
    input: &mut Device<R>,
    output: &mut Device<W>,
) -> Result<Answered, ServeFault>
    requires options { HasOptions asked.now }
    requires fresh { output.old.1 ≡ false }
    ensures answered { IfOk result (λ a. IsAnsweredAs
        (record {
          before = F.text files.old;
          after = F.text files.new;
          files_failed = F.have_failed files.new;
          begun = F.steps files.old;
          ended = F.steps files.new;
          input = R.remaining input.old.0;
          reader_failed = input.new.1;
          old = W.contents output.old.0;
          new = W.contents output.new.0;
          failed = output.new.1;
        })
        asked.now a.seen.items a.status) }
    ensures steps { IfOk result (λ a. Takes (F.steps files.old) (F.steps files.new)
        (under_lock (output_of asked.now) (steps_inside asked.now (is_withheld_at a.status)))) }
    ensures fault { IfErr result (IsUnanswered
        (record {
          before = F.text files.old;
          after = F.text files.new;
          files_failed = F.have_failed files.new;
          begun = F.steps files.old;
          ended = F.steps files.new;
          input = R.remaining input.old.0;
          reader_failed = input.new.1;
          old = W.contents output.old.0;
          new = W.contents output.new.0;
          failed = output.new.1;
        })
        asked.now) }
{
    let Some((path, wait)) = file_to_lock(asked) else {
        return answer_inside(rt, alloc, gate, seed, files, texts, asked, input, output);
    };
    files.lock(path, wait)?;
    let answered = answer_inside(rt, alloc, gate, seed, files, texts, asked, input, output);
    files.unlock();
    answered
}

/// Writes the answer to a request, whose output file is locked. MODEL is read to its end before
/// SCRIPTS is opened.
fn answer_inside<T: Threads + Wait + Sync, G: Gate + Sync, F: OutputFiles, R: Read, W: Write>(
    rt: &T,
    alloc: Global,
    gate: &G,
    seed: u64,
    files: &mut F,
    texts: &mut Texts,
    asked: &Asked<'_>,
    input: &mut Device<R>,
    output: &mut Device<W>,
) -> Result<Answered, ServeFault>
    requires options { HasOptions asked.now }
    requires fresh { output.old.1 ≡ false }
    ensures answered { IfOk result (λ a. IsAnsweredAs
        (record {
          before = F.text files.old;
          after = F.text files.new;
          files_failed = F.have_failed files.new;
          begun = F.steps files.old;
          ended = F.steps files.new;
          input = R.remaining input.old.0;
          reader_failed = input.new.1;
          old = W.contents output.old.0;
          new = W.contents output.new.0;
          failed = output.new.1;
        })
        asked.now a.seen.items a.status) }
    ensures steps { IfOk result (λ a. Takes (F.steps files.old) (F.steps files.new)
        (steps_inside asked.now (is_withheld_at a.status))) }
    ensures fault { IfErr result (λ f. (steps : List Step) × IsUnansweredBy
        (record {
          before = F.text files.old;
          after = F.text files.new;
          files_failed = F.have_failed files.new;
          begun = F.steps files.old;
          ended = F.steps files.new;
          input = R.remaining input.old.0;
          reader_failed = input.new.1;
          old = W.contents output.old.0;
          new = W.contents output.new.0;
          failed = output.new.1;
        })
        asked.now f steps × Takes (F.steps files.old) (F.steps files.new) steps) }
{
    match asked {
        Asked::Text(text) => {
            if !write_output(output, text.as_bytes()) {
                return Err(ServeFault::Write);
            }
            Ok(Answered {
                seen: Vec::new(alloc),
                ends: Sequence::new(alloc),
                status: Status::Done,
            })
        }
        Asked::Check(options, model, scripts) => {
            let (decimals, scripts) = (options.decimals, *scripts);
            let faulty = check(alloc, files, texts, decimals, *model, scripts, output)?;
            Ok(check_answer(alloc, faulty))
        }
        Asked::Input(options, destination) => {
            let (document, scripts) = read_input(alloc, input)?;
            texts.document = Text::given(document);
            texts.scripts = Text::given(scripts);
            let (to, options) = (*destination, *options);
            let (delivered, city) = serve_to(
                rt, alloc, gate, seed, texts, files, to, output, options,
            )?;
            Ok(run_answer(delivered, city))
        }
        Asked::Files(options, destination, model, scripts) => {
            texts.document = Text::given(files.read(*model)?);
            texts.scripts = Text::given(files.read(*scripts)?);
            let (to, options) = (*destination, *options);
            let (delivered, city) = serve_to(
                rt, alloc, gate, seed, texts, files, to, output, options,
            )?;
            Ok(run_answer(delivered, city))
        }
    }
}
