//! The request by the options and names of a command line.
ghost use Rattle.std.specs.Prelude.{◌≤◌, ℕ, IfOk, MatchOption, MatchResult};
ghost use Rattle.clap.specs.Words.{found_of};
ghost use Rattle.city_options.specs.RunOptions.{AreWithin, Contradicts, IsConsistent};
ghost use Rattle.city_options.specs.CommandLines.{AnswersCheck, AnswersNames, AnswersOptions, AnswersRun};
ghost use Rattle.city_options.specs.CommandLines.{AreLineOptions, HasOptions, HasRunOption, IsCount};
ghost use Rattle.city_options.specs.CommandLines.{IsLineDestination, IsSameDestination, IsWait};
ghost use Rattle.city_options.specs.declared.options.Destination.{Destination};
ghost use Rattle.city_options.specs.declared.options.Options.{Options};
ghost use Rattle.city_options.specs.internal.GivenLine.{IsFound, line_of, names_of, text_of};

use crate::command_line::{
    ATOMIC, Asked, CHECK, DECIMALS, EXPLAIN, LineFault, MODEL, OUTPUT, REPORT_ONLY, SCRIPTS, WAIT,
    WATCH, WORKERS,
};
use crate::options::{Destination, MAX_WAIT, Options};
use city_board::MAX_VIEWERS;
use city_model::OutOfMemory;
use city_scheduler::MAX_WORKERS;
use clap::error::ErrorKind;
use clap::{ArgMatches, Command};
use std::alloc::Global;

/// The options and names of a command line.
#[derive(Clone, Copy)]
pub(crate) struct Given<'a> {
    pub workers: Option<&'a str>,
    pub watch: Option<&'a str>,
    pub output: Option<&'a str>,
    pub wait: Option<&'a str>,
    pub decimals: bool,
    pub atomic: bool,
    pub report_only: bool,
    pub check: bool,
    pub explain: bool,
    pub model: Option<&'a str>,
    pub scripts: Option<&'a str>,
}

/// The options and names that clap found.
pub(crate) fn given_in<'a>(matches: &ArgMatches<'a>) -> Given<'a>
    ensures { IsFound (found_of matches.now) result }
{
    Given {
        workers: matches.get_str(WORKERS),
        watch: matches.get_str(WATCH),
        output: matches.get_str(OUTPUT),
        wait: matches.get_str(WAIT),
        decimals: matches.get_flag(DECIMALS),
        atomic: matches.get_flag(ATOMIC),
        report_only: matches.get_flag(REPORT_ONLY),
        check: matches.get_flag(CHECK),
        explain: matches.get_flag(EXPLAIN),
        model: matches.get_str(MODEL),
        scripts: matches.get_str(SCRIPTS),
    }
}

/// The request by options and names.
pub(crate) fn by_given<'a>(
    alloc: Global,
    command: &mut Command<'a>,
    given: &Given<'a>,
) -> Result<Asked<'a>, LineFault>
    ensures answers { AnswersOptions (line_of given.now) result }
    ensures within { IfOk result HasOptions }
{
    if given.check {
        check_by(alloc, command, given)
    } else {
        run_by(alloc, command, given)
    }
}

/// The request for a check. Refuses an option for runs only, and a line without a model's name.
fn check_by<'a>(
    alloc: Global,
    command: &mut Command<'a>,
    given: &Given<'a>,
) -> Result<Asked<'a>, LineFault>
    ensures answers { AnswersCheck (line_of given.now) result }
    ensures within { IfOk result HasOptions }
{
    if let Some(message) = of_run(given) {
        return Err(mistake(alloc, command, ErrorKind::ArgumentConflict, message)?);
    }
    let Some(model) = given.model else {
        let kind = ErrorKind::MissingRequiredArgument;
        return Err(mistake(alloc, command, kind, "--check takes a MODEL")?);
    };
    let options = Options {
        workers: 1,
        viewers: 0,
        decimals: given.decimals,
        explain: given.explain,
    };
    Ok(Asked::Check(options, model, given.scripts))
}

/// The mistake in the first option for runs only, beside `--check`. `None` if there is none.
fn of_run(given: &Given<'_>) -> Option<&'static str>
    ensures { MatchOption result (¬ HasRunOption (line_of given.now)) (λ _. HasRunOption (line_of given.now)) }
{
    if given.workers.is_some() {
        Some("--check runs nothing, and takes no --workers")
    } else if given.watch.is_some() {
        Some("--check runs nothing, and takes no --watch")
    } else if given.output.is_some() {
        Some("--check writes no model, and takes no --output")
    } else if given.wait.is_some() {
        Some("--check writes no model, and takes no --wait")
    } else if given.atomic {
        Some("--check writes no model, and takes no --atomic")
    } else if given.report_only {
        Some("--check runs nothing, and takes no --report-only")
    } else {
        None
    }
}

/// The request for a run.
fn run_by<'a>(
    alloc: Global,
    command: &mut Command<'a>,
    given: &Given<'a>,
) -> Result<Asked<'a>, LineFault>
    ensures answers { AnswersRun (line_of given.now) result }
    ensures within { IfOk result HasOptions }
{
    let options = options_by(alloc, command, given)?;
    let destination = destination_by(alloc, command, given)?;
    by_names(alloc, command, options, destination, given)
}

/// The options of a run. Refuses a text if it is no number, or outside its option's range.
fn options_by<'a>(
    alloc: Global,
    command: &mut Command<'a>,
    given: &Given<'_>,
) -> Result<Options, LineFault>
    ensures { MatchResult result (λ options. AreLineOptions (line_of given.now) options × AreWithin options)
        (λ _. (options : Options) → ¬ AreLineOptions (line_of given.now) options) }
{
    let kind = ErrorKind::ValueValidation;
    let Some(workers) = count_by(given.workers, 1, MAX_WORKERS) else {
        return Err(mistake(
            alloc,
            command,
            kind,
            "--workers takes a number from 1 to 16",
        )?);
    };
    let Some(viewers) = count_by(given.watch, 0, MAX_VIEWERS) else {
        return Err(mistake(alloc, command, kind, "--watch takes a number from 0 to 4")?);
    };
    Ok(Options {
        workers,
        viewers,
        decimals: given.decimals,
        explain: given.explain,
    })
}

/// The destination of a run. Refuses a text that is no number of seconds, or outside the range, a
/// wait without a file, and beside `--report-only` an option for a model.
fn destination_by<'a>(
    alloc: Global,
    command: &mut Command<'a>,
    given: &Given<'a>,
) -> Result<Destination<'a>, LineFault>
    ensures { MatchResult result (λ to. IsLineDestination (line_of given.now) to × IsConsistent to)
        (λ _. (to : Destination) → ¬ IsLineDestination (line_of given.now) to) }
{
    if let Some(message) = of_model(given) {
        return Err(mistake(alloc, command, ErrorKind::ArgumentConflict, message)?);
    }
    let kind = ErrorKind::ValueValidation;
    let Some(wait) = seconds_by(given.wait) else {
        let message = "--wait takes a number of seconds from 1 to 86400";
        return Err(mistake(alloc, command, kind, message)?);
    };
    if given.wait.is_some() && given.output.is_none() {
        let kind = ErrorKind::MissingRequiredArgument;
        return Err(mistake(alloc, command, kind, "--wait takes an --output to wait for")?);
    }
    Ok(Destination {
        file: given.output,
        atomic: given.atomic,
        report_only: given.report_only,
        wait,
    })
}

/// The mistake in the first option for a model, beside `--report-only`. `None` if there is none.
fn of_model(given: &Given<'_>) -> Option<&'static str>
    ensures { MatchOption result
        (¬ Contradicts given.now.report_only (text_of given.now.output) given.now.atomic)
        (λ _. Contradicts given.now.report_only (text_of given.now.output) given.now.atomic) }
{
    if !given.report_only {
        return None;
    }
    if given.output.is_some() {
        return Some("--report-only writes no model, and takes no --output");
    }
    if given.atomic {
        return Some("--report-only writes no model, and takes no --atomic");
    }
    None
}

/// The number of seconds in a text, 1 to `MAX_WAIT`; 0 without a text. `None` if the text writes no
/// such number.
pub(crate) fn seconds_by(given: Option<&str>) -> Option<usize>
    ensures { MatchOption result ((n : ℕ) → ¬ IsWait (text_of given.entry) n) (IsWait (text_of given.entry)) }
{
    match given {
        None => Some(0),
        Some(_) => count_by(given, 1, MAX_WAIT),
    }
}

/// The number in an option's text, from `least` to `most`; `least` without a text. `None` if the
/// text writes no such number.
fn count_by(given: Option<&str>, least: usize, most: usize) -> Option<usize>
    requires { least ≤ most }
    ensures { MatchOption result ((n : ℕ) → ¬ IsCount least most (text_of given.entry) n)
        (λ n. IsCount least most (text_of given.entry) n × (least ≤ n) × (n ≤ most)) }
{
    let Some(text) = given else {
        return Some(least);
    };
    match text.parse::<usize>() {
        Ok(count) if least <= count && count <= most => Some(count),
        _ => None,
    }
}

/// The request by names of files. A model's without the scripts' is refused.
fn by_names<'a>(
    alloc: Global,
    command: &mut Command<'a>,
    options: Options,
    destination: Destination<'a>,
    given: &Given<'a>,
) -> Result<Asked<'a>, LineFault>
    ensures names { (to : Destination) → IsSameDestination destination.entry to
        → AnswersNames options to (names_of (text_of given.now.model) (text_of given.now.scripts)) result }
    ensures within { AreWithin options → IsConsistent destination.entry → IfOk result HasOptions }
{
    match (given.model, given.scripts) {
        (Some(model), Some(scripts)) => Ok(Asked::Files(options, destination, model, scripts)),
        (None, _) => Ok(Asked::Input(options, destination)),
        (Some(_), None) => {
            let kind = ErrorKind::MissingRequiredArgument;
            Err(mistake(alloc, command, kind, "a MODEL was given without SCRIPTS")?)
        }
    }
}

/// The refusal of options or names.
pub(crate) fn mistake<'a>(
    alloc: Global,
    command: &mut Command<'a>,
    kind: ErrorKind,
    message: &str,
) -> Result<LineFault, OutOfMemory> {
    let error = command.error(kind, message)?;
    Ok(LineFault::Refused(error.to_string(alloc)?))
}
