//! A session from its start to the end of its input.
ghost use Rattle.std.specs.Prelude.{◌≡◌, ◌⊎◌, IfOk, OnOk, OnErr};
ghost use Rattle.std.specs.Io.KnownBytes.{Keeps};
ghost use Rattle.city_model.specs.CityMap.{object_at};
ghost use Rattle.city_model.specs.Relations.{IsLawful};
ghost use Rattle.city_server.specs.Lived.{AreAllAnswered, AreFirstAnswered, IsReady, IsSession};

use crate::awaited::Awaited;
use crate::fault::LiveFault;
use crate::journal_store::{JournalStore, Journals};
use crate::save::Unsaved;
use crate::server::Server;
use crate::start::{Started, start};
use crate::telling::Telling;
use city_lines::{LineScratch, append_ready};
use city_live::Hands;
use city_model::OutOfMemory;
use city_options::LiveLine;
use city_options::command_line::VERSION;
use city_serve::serve::write_output;
use city_serve::{Device, OutputFiles, ServeFault};
use std::alloc::Global;
use std::io::{Read, Write};
use std::time::Clock;

/// Holds a model until the input ends: answers its lines, and writes the answers.
///
/// What stands unread together is handled before the answers are written. A commit's line in the journal is on the disk
/// before an answer to it is written. At the end of the input what is open is given up, and the model is saved if there
/// is an output file, also if the input or the output failed. The journal is locked meanwhile. Errors are told if the
/// journal's last line was cut.
///
/// The output is a first line, and then the answers of the lines of the input, in their order. If the session ends
/// early, it is the first of that.
pub fn run_live<C: Clock, F: OutputFiles, K: Journals, R: Read, W: Write, E: Write>(
    clock: &C,
    alloc: Global,
    seed: u64,
    files: &mut F,
    journals: &mut K,
    line: &LiveLine<'_>,
    input: &mut Device<R>,
    output: &mut Device<W>,
    errors: &mut Device<E>,
) -> Result<(), LiveFault>
    ensures all { OnOk result (IsSession VERSION.now (λ first s. AreAllAnswered line.now.decimals first s
        (R.remaining input.old.0) (R.remaining input.new.0) (W.contents output.old.0) (W.contents output.new.0))) }
    ensures first { OnErr result (Keeps (W.contents output.old.0) (W.contents output.new.0)
        ⊎ IsSession VERSION.now (λ first s. AreFirstAnswered line.now.decimals first s
        (R.remaining input.old.0) (R.remaining input.new.0) (W.contents output.old.0) (W.contents output.new.0))) }
{
    let journal = match line.journal {
        None => None,
        Some(path) => match journals.lock(path, line.wait) {
            Ok(journal) => Some(journal),
            Err(fault) => return Err(LiveFault::JournalFile(fault)),
        },
    };
    let started = start(alloc, seed, files, journal, line)?;
    if let Some(lines) = started.cut {
        tell_cut(alloc, lines, errors)?;
    }
    let mut server = served(alloc, seed, started, line)?;
    let ended = server.run(clock, files, input, output);
    if let Some(mut journal) = server.hands.journal_mut().take_file() {
        journal.let_go();
    }
    ended
}

/// Tells that the last of so many lines of the journal was cut.
fn tell_cut<E: Write>(
    alloc: Global,
    lines: usize,
    errors: &mut Device<E>,
) -> Result<(), OutOfMemory> {
    let line = if lines < 1000 {
        format!(in alloc; "cityed: journal: the last line was cut, 1 of {lines} dropped\n")?
    } else {
        let (more, rest) = (lines / 1000, lines % 1000);
        format!(in alloc;
            "cityed: journal: the last line was cut, 1 of {more},{rest:03} dropped\n"
        )?
    };
    let _ = write_output(errors, line.as_bytes());
    Ok(())
}

/// The session of what was started with, and its first line.
fn served<'a, D: JournalStore + Drop>(
    alloc: Global,
    seed: u64,
    started: Started<D>,
    line: &LiveLine<'a>,
) -> Result<Server<'a, D>, OutOfMemory>
    requires { IsLawful (object_at started.city.1) }
    ensures { IfOk result (λ v. IsReady VERSION.now line.now.decimals started.city started.version v.hands v.told) }
{
    let objects = started.city.len() as u64;
    let answers = append_ready(VERSION, objects, started.version, Vec::new(alloc))?;
    let saved = if started.is_saved {
        Some(started.version)
    } else {
        None
    };
    let hands = Hands::new(alloc, started.city, started.version, started.journal);
    let told = Telling {
        alloc,
        seed,
        decimals: line.decimals,
        line: 0,
        answers,
    };
    Ok(Server {
        hands,
        told,
        output: line.output,
        awaited: Awaited::new(alloc),
        scratch: LineScratch::new(alloc),
        saved,
    })
}

impl<D: JournalStore + Drop> Server<'_, D> {
    /// Answers the lines of the input until it ends, and saves the model.
    fn run<C: Clock, F: OutputFiles, R: Read, W: Write>(
        &mut self,
        clock: &C,
        files: &mut F,
        input: &mut Device<R>,
        output: &mut Device<W>,
    ) -> Result<(), LiveFault>
        requires { self.old.told.line ≡ 0 }
        ensures all { OnOk result (AreAllAnswered self.old.told.decimals self.old.told.answers.items self.old.hands
            (R.remaining input.old.0) (R.remaining input.new.0) (W.contents output.old.0) (W.contents output.new.0)) }
        ensures first { OnErr result (AreFirstAnswered self.old.told.decimals self.old.told.answers.items self.old.hands
            (R.remaining input.old.0) (R.remaining input.new.0) (W.contents output.old.0) (W.contents output.new.0)) }
    {
        match self.serve(clock, files, input, output) {
            Ok(()) => self.end(files),
            Err(LiveFault::JournalFile(fault)) => Err(LiveFault::JournalFile(fault)),
            Err(fault) => {
                // (what came before is saved all the same)
                let _ = self.save_at_end(files);
                Err(fault)
            }
        }
    }

    /// Saves the model at the end of the input.
    fn end<F: OutputFiles>(&mut self, files: &mut F) -> Result<(), LiveFault> {
        match self.save_at_end(files) {
            Ok(()) => Ok(()),
            Err(Unsaved::NoMemory) => Err(LiveFault::from(OutOfMemory)),
            Err(Unsaved::CannotWrite) => Err(LiveFault::Serve(ServeFault::Write)),
        }
    }
}
