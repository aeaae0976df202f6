//! What a live command line asks for.
ghost use Rattle.std.specs.Prelude.{IfOk};
ghost use Rattle.city_options.specs.LiveLines.{HasWait};

use crate::command_line::{DECIMALS, LineFault, MODEL, OUTPUT, VERSION, WAIT, flag, value_option};
use crate::given::{mistake, seconds_by};
use city_model::OutOfMemory;
use clap::error::ErrorKind;
use clap::{Arg, ArgMatches, Command, Error};
use std::alloc::Global;

const LIVE: &str = "live";

const JOURNAL: &str = "journal";

const USAGE: &str =
    "cityed --live [--decimals] [--output FILE [--wait SECONDS]] [--journal FILE] MODEL";

const ABOUT: &str =
    "Holds a CityJSON 2.0 city model, and lets many hands edit it at once by lines of JSON.";

const DETAILS: &str = "\
Standard input gets requests, a line of JSON each, and standard output an answer line for each:
  {\"hand\": NAME, \"id\": ANY, \"script\": SCRIPT}   run a whole script
  {\"hand\": NAME, \"begin\": NAME}                 open a transaction of this hand
  {\"hand\": NAME, \"do\": COMMAND}                 do a command in it; \"vertices\": [..] beside it
  {\"hand\": NAME, \"commit\": true}                or \"abort\": end it
  {\"hand\": NAME, \"look\": ID}                    see an object as it is committed; [ID, ..] see several
  {\"hand\": NAME, \"ids\": true}                   or \"model\": see all ids and types, or the whole model
  {\"hand\": NAME, \"watch\": true}                 be told each change; false: no more
  {\"hand\": NAME, \"save\": true}                  write the model to FILE
  {\"hand\": NAME, \"made\": KEY}                   whether a commit with this key was made
  {\"hand\": NAME, \"bye\": true}                   abort what is open, and be forgotten
The id comes back with each answer. Who meets a lock waits if it is older, and dies otherwise.
A \"key\": TEXT beside a script or a commit keeps it from being done twice.

Without a journal a killed program loses what wasn't saved. With --journal each commit is on the
disk before it is told, and a start with the same journal goes on behind the last one.
At the end of the input what is open is aborted, and the model is saved if there is a FILE.

Status:
  0  the input has ended
  1  the model or the journal was refused, memory ran out, reading or writing failed, or a file is
     in use: see standard error
  2  the command line isn't understood: standard error says what is wrong";

/// A live session by the words of a command line.
#[derive(Clone, Copy)]
pub struct LiveLine<'a> {
    /// The path of the model.
    pub model: &'a str,
    /// The path of the file that a save writes, if there is one.
    pub output: Option<&'a str>,
    /// For how many seconds to wait for the files, if another run holds them. From 0 to `MAX_WAIT`.
    pub wait: usize,
    /// The path of the journal, if there is one.
    pub journal: Option<&'a str>,
    /// Whether numbers of any form are taken, and given back as they were written.
    pub decimals: bool,
}

/// What a live command line asks for.
#[derive(Drop)]
pub enum AskedLive<'a> {
    /// To hold a model.
    Session(LiveLine<'a>),
    /// To show a text on standard output: help, or the version.
    Text(String),
}

/// Whether the words of a command line, the program's name first, ask for a live session: one before a `--` is `--live`.
pub fn asks_for_live(words: &[String]) -> bool {
    for word in words.iter().skip(1) {
        match word.as_str() {
            "--live" => return true,
            "--" => return false,
            _ => {}
        }
    }
    false
}

/// The live session that a command line asks for. Its first word is the program's name.
///
/// Refused: a line without a MODEL, `--wait` without `--output`, a number of seconds that isn't 1 to `MAX_WAIT`, a second
/// name, and an option if it is unknown, comes twice or has no value.
pub fn live_by<'a>(alloc: Global, words: &'a [String]) -> Result<AskedLive<'a>, LineFault>
    ensures { IfOk result HasWait }
{
    let mut command = live_command(alloc)?;
    match command.try_get_matches_from_mut(words) {
        Ok(matches) => by_matches(alloc, &mut command, &matches),
        Err(error) => without_session(alloc, &error),
    }
}

/// The live command line.
fn live_command<'a>(alloc: Global) -> Result<Command<'a>, OutOfMemory> {
    let live = "Hold the MODEL, and answer requests until the input ends";
    let decimals = "Take numbers of any form, and give them back as they were written";
    let output = "Write the model to FILE at each save and at the end";
    let wait = "How long to wait where another run holds a file, 1 to 86400 [default: not at all]";
    let journal = "Note each commit in FILE before it is told, and start from what is noted there";
    let model = Arg::new(alloc, MODEL).help("A file with a CityJSON 2.0 document");
    Command::new(alloc, "cityed")
        .version(VERSION)
        .about(ABOUT)
        .override_usage(USAGE)
        .after_help(DETAILS)
        .arg(model)?
        .arg(flag(alloc, LIVE, live))?
        .arg(flag(alloc, DECIMALS, decimals))?
        .arg(value_option(alloc, OUTPUT, "FILE", output).short('o'))?
        .arg(value_option(alloc, WAIT, "SECONDS", wait))?
        .arg(value_option(alloc, JOURNAL, "FILE", journal))
}

/// The live session by what clap found.
fn by_matches<'a>(
    alloc: Global,
    command: &mut Command<'a>,
    matches: &ArgMatches<'a>,
) -> Result<AskedLive<'a>, LineFault>
    ensures { IfOk result HasWait }
{
    let (output, given) = (matches.get_str(OUTPUT), matches.get_str(WAIT));
    let Some(wait) = seconds_by(given) else {
        let message = "--wait takes a number of seconds from 1 to 86400";
        return Err(mistake(alloc, command, ErrorKind::ValueValidation, message)?);
    };
    if given.is_some() && output.is_none() {
        let message = "--wait takes an --output to wait for";
        return Err(mistake(alloc, command, ErrorKind::MissingRequiredArgument, message)?);
    }
    let Some(model) = matches.get_str(MODEL) else {
        let message = "--live takes a MODEL";
        return Err(mistake(alloc, command, ErrorKind::MissingRequiredArgument, message)?);
    };
    Ok(AskedLive::Session(LiveLine {
        model,
        output,
        wait,
        journal: matches.get_str(JOURNAL),
        decimals: matches.get_flag(DECIMALS),
    }))
}

/// What a line asks for that gives no session: help or the version. Any other is refused.
fn without_session<'a>(alloc: Global, error: &Error) -> Result<AskedLive<'a>, LineFault>
    ensures { IfOk result HasWait }
{
    match error.kind() {
        ErrorKind::OutOfMemory => Err(LineFault::OutOfMemory),
        ErrorKind::DisplayHelp | ErrorKind::DisplayVersion => {
            Ok(AskedLive::Text(error.to_string(alloc)?))
        }
        _ => Err(LineFault::Refused(error.to_string(alloc)?)),
    }
}
