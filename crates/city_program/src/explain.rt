//! Explains a fault behind its line: the file, the place in it, the mistake, and the repair. Explains refused scripts
//! behind a report.
ghost use Rattle.std.specs.Prelude.{◌≡◌, [], false, string_bytes};
ghost use Rattle.city_program.specs.Programs.{is_explained, tells_refused};

use city_desk::RunFault;
use city_diagnostics::{explain_document, explain_ends, explain_scripts, is_refused, shown_name};
use city_doc::ReadFault;
use city_model::OutOfMemory;
use city_model::end::End;
use city_options::command_line::Asked;
use city_scripts::{ScriptFault, read_scripts};
use city_serve::{Device, ServeFault, Text, TextFiles, Texts};
use std::alloc::Global;
use std::io;

/// What a person is told of an output file that another run holds.
const IN_USE: &str = "another run writes it; --wait SECONDS waits for that one";

/// What a person is told of an output file that isn't what was read.
const CHANGED: &str = "another program changed it since it was read; it is as that program left it";

/// What a person is told of a model on standard input that is no JSON: it may be one of several lines.
const ONE_LINE: &str =
    "on standard input the model has to be one line; as a file it may have several";

/// Where a text comes from, or goes to.
#[derive(Clone, Copy)]
enum Named<'a> {
    /// The file of this name.
    File(&'a str),
    /// A stream, in words.
    Stream(&'static str),
}

/// The lines behind a fault's line: none if it isn't explained, or memory is short for them.
pub(crate) fn behind_line<F: TextFiles, R, W>(
    alloc: Global,
    terminal: bool,
    fault: &ServeFault,
    asked: &Asked<'_>,
    texts: &Texts,
    files: &F,
    input: &Device<R>,
    output: &Device<W>,
) -> String
    ensures { is_explained terminal asked.now ≡ false → string_bytes result ≡ [] }
{
    if !is_explained(terminal, asked) {
        return String::new(alloc);
    }
    match explanation(alloc, fault, asked, texts, files, input, output) {
        Ok(lines) => lines,
        Err(OutOfMemory) => String::new(alloc),
    }
}

/// Whether a fault is explained: on a terminal, and on request.
fn is_explained(terminal: bool, asked: &Asked<'_>) -> bool
    ensures { result ≡ is_explained terminal asked.now }
{
    match asked {
        Asked::Input(options, _) | Asked::Files(options, _, _, _) | Asked::Check(options, _, _) => {
            terminal || options.explain
        }
        Asked::Text(_) => terminal,
    }
}

/// The lines of the scripts that a run refused: none if they aren't explained, or memory is short for them.
pub(crate) fn refused_lines(
    alloc: Global,
    terminal: bool,
    asked: &Asked<'_>,
    texts: Texts,
    ends: &[End],
) -> String
    ensures { tells_refused terminal asked.now ≡ false → string_bytes result ≡ [] }
{
    if !tells_refused(terminal, asked) {
        return String::new(alloc);
    }
    match refusals(alloc, texts, ends) {
        Ok(lines) => lines,
        Err(OutOfMemory) => String::new(alloc),
    }
}

/// Whether the scripts that a run refuses are explained: on a terminal, and on request.
pub(crate) fn tells_refused(terminal: bool, asked: &Asked<'_>) -> bool
    ensures { result ≡ tells_refused terminal asked.now }
{
    match asked {
        Asked::Input(options, _) | Asked::Files(options, _, _, _) => terminal || options.explain,
        Asked::Check(_, _, _) | Asked::Text(_) => false,
    }
}

/// The explanation of a fault of a request: indented lines, each with its newline. Empty for a
/// fault of neither a text nor a file.
///
/// The texts are as the fault left them, and so are the files and the streams.
fn explanation<F: TextFiles, R, W>(
    alloc: Global,
    fault: &ServeFault,
    asked: &Asked<'_>,
    texts: &Texts,
    files: &F,
    input: &Device<R>,
    output: &Device<W>,
) -> Result<String, OutOfMemory> {
    match fault {
        ServeFault::Read => unread(alloc, asked, texts, files.why(), input.failure()),
        ServeFault::Write => unwritten(alloc, asked, files.why(), output.failure()),
        ServeFault::Run(RunFault::Read(fault)) => document(alloc, asked, &texts.document, fault),
        ServeFault::Run(RunFault::Script(fault)) => scripts(alloc, asked, &texts.scripts, fault),
        ServeFault::InUse => told_of(alloc, asked, IN_USE),
        ServeFault::Changed => told_of(alloc, asked, CHANGED),
        ServeFault::Run(_) => Ok(String::new(alloc)),
    }
}

/// The explanation of each script that a run refused, in the order of the ends. Empty if there is none, or if the city
/// before the run isn't kept.
fn refusals(alloc: Global, texts: Texts, ends: &[End]) -> Result<String, OutOfMemory> {
    let Texts {
        scripts,
        before,
        ..
    } = texts;
    let Some(before) = before else {
        return Ok(String::new(alloc));
    };
    if !ends.iter().any(is_refused) {
        return Ok(String::new(alloc));
    }
    let Ok(read) = read_scripts(alloc, scripts.bytes.as_slice()) else {
        return Err(OutOfMemory);
    };
    explain_ends(alloc, before, read.as_slice(), ends)
}

/// The explanation of a fault of a document.
fn document(
    alloc: Global,
    asked: &Asked<'_>,
    text: &Text,
    fault: &ReadFault,
) -> Result<String, OutOfMemory> {
    let mut told = explain_document(alloc, text.bytes.as_slice(), text.is_given(), fault)?;
    if let (Asked::Input(..), ReadFault::NotJson) = (asked, fault) {
        push_line(&mut told, "note", ONE_LINE)?;
    }
    around(alloc, asked, model_name(asked), told.as_str())
}

/// The explanation of a fault of scripts.
fn scripts(
    alloc: Global,
    asked: &Asked<'_>,
    text: &Text,
    fault: &ScriptFault,
) -> Result<String, OutOfMemory> {
    let told = explain_scripts(alloc, text.bytes.as_slice(), text.is_given(), fault)?;
    around(alloc, asked, scripts_name(asked), told.as_str())
}

/// The explanation of a text's fault, between the line with the file and the command to tell all
/// faults.
fn around(
    alloc: Global,
    asked: &Asked<'_>,
    name: Named<'_>,
    told: &str,
) -> Result<String, OutOfMemory> {
    let mut lines = String::new(alloc);
    push_name(alloc, &mut lines, name)?;
    lines.push_str(told)?;
    match asked {
        Asked::Files(options, _, model, scripts) => {
            let model = shown_name(alloc, *model)?;
            let scripts = shown_name(alloc, *scripts)?;
            let decimals = options.decimals;
            push_command(&mut lines, "", decimals, model.as_str(), scripts.as_str())?;
        }
        Asked::Input(options, _) => {
            let words = "put the two texts into files, and run ";
            push_command(&mut lines, words, options.decimals, "MODEL", "SCRIPTS")?;
        }
        _ => {}
    }
    Ok(lines)
}

/// Adds the line with the command to tell all faults.
fn push_command(
    lines: &mut String,
    words: &str,
    decimals: bool,
    model: &str,
    scripts: &str,
) -> Result<(), OutOfMemory> {
    lines.push_str("  all faults: ")?;
    lines.push_str(words)?;
    lines.push_str("cityed --check ")?;
    if decimals {
        lines.push_str("--decimals ")?;
    }
    lines.push_str(model)?;
    lines.push_str(" ")?;
    lines.push_str(scripts)?;
    lines.push_str("\n")
}

/// The lines for an output file: its name, and what is told of it.
fn told_of(alloc: Global, asked: &Asked<'_>, told: &str) -> Result<String, OutOfMemory> {
    let mut lines = String::new(alloc);
    if let Some(path) = output_file(asked) {
        push_name(alloc, &mut lines, Named::File(path))?;
        push_line(&mut lines, "what", told)?;
    }
    Ok(lines)
}

/// The explanation of an unread text: which, and why. The model is read before the scripts.
fn unread(
    alloc: Global,
    asked: &Asked<'_>,
    texts: &Texts,
    file_error: Option<io::Error>,
    input_error: Option<io::Error>,
) -> Result<String, OutOfMemory> {
    match asked {
        Asked::Input(..) => device(alloc, Named::Stream("standard input"), input_error),
        _ if texts.document.is_unread() => device(alloc, model_name(asked), file_error),
        _ => device(alloc, scripts_name(asked), file_error),
    }
}

/// The explanation of unwritten output: standard output, or else the output file.
fn unwritten(
    alloc: Global,
    asked: &Asked<'_>,
    file_error: Option<io::Error>,
    output_error: Option<io::Error>,
) -> Result<String, OutOfMemory> {
    match output_file(asked) {
        Some(path) if output_error.is_none() => device(alloc, Named::File(path), file_error),
        _ => device(alloc, Named::Stream("standard output"), output_error),
    }
}

/// The lines for a failed file or stream: its name, and why, if known.
fn device(alloc: Global, name: Named<'_>, error: Option<io::Error>) -> Result<String, OutOfMemory> {
    let mut lines = String::new(alloc);
    push_name(alloc, &mut lines, name)?;
    if let Some(error) = error {
        let words = error.to_string(alloc)?;
        push_line(&mut lines, "what", words.as_str())?;
    }
    Ok(lines)
}

/// Adds the line with a name; that of a file is a JSON text unless it is plain.
fn push_name(alloc: Global, lines: &mut String, name: Named<'_>) -> Result<(), OutOfMemory> {
    match name {
        Named::Stream(words) => push_line(lines, "file", words),
        Named::File(path) => {
            let shown = shown_name(alloc, path)?;
            push_line(lines, "file", shown.as_str())
        }
    }
}

/// Adds an indented line: a word, and the text told of it.
fn push_line(lines: &mut String, word: &str, told: &str) -> Result<(), OutOfMemory> {
    lines.push_str("  ")?;
    lines.push_str(word)?;
    lines.push_str(": ")?;
    lines.push_str(told)?;
    lines.push_str("\n")
}

/// Where the model comes from.
fn model_name<'a>(asked: &Asked<'a>) -> Named<'a> {
    match asked {
        Asked::Files(_, _, model, _) | Asked::Check(_, model, _) => Named::File(*model),
        Asked::Input(..) | Asked::Text(_) => Named::Stream("standard input, its first line"),
    }
}

/// Where the scripts come from.
fn scripts_name<'a>(asked: &Asked<'a>) -> Named<'a> {
    match asked {
        Asked::Files(_, _, _, scripts) | Asked::Check(_, _, Some(scripts)) => Named::File(*scripts),
        Asked::Check(_, model, None) => Named::File(*model),
        Asked::Input(..) | Asked::Text(_) => Named::Stream("standard input, behind its first line"),
    }
}

/// The path of the output file, if there is one.
fn output_file<'a>(asked: &Asked<'a>) -> Option<&'a str> {
    match asked {
        Asked::Input(_, destination) | Asked::Files(_, destination, _, _) => destination.file,
        Asked::Check(..) | Asked::Text(_) => None,
    }
}
