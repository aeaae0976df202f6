//! The lines of an input answered.
ghost use Rattle.std.specs.Prelude.{◌≡◌, ◌<◌, ◌++◌, ◌∷◌, [], ℕ, List, length, OnOk, OnErr};
ghost use Rattle.std.specs.Io.KnownBytes.{Consumes, IsAtEnd};
ghost use Rattle.city_journal.specs.Lines.{IsLine};
ghost use Rattle.city_server.specs.Lines.{HasBegun};
ghost use Rattle.city_serve.specs.ServedTexts.{AppendsSome};
ghost use Rattle.city_server.specs.Lived.{AreAllAnswered, AreFirstAnswered, last_line};
ghost use Rattle.city_server.specs.Sessions.{AddsAnswers, BreaksOff, Serves, ServesBytes, WritesOut};

use crate::fault::LiveFault;
use crate::input_lines::{BegunLine, CHUNK, first_line};
use crate::journal_store::JournalStore;
use crate::server::Server;
use crate::tell::write_synced;
use city_model::OutOfMemory;
use city_serve::{Device, OutputFiles, ServeFault};
use std::io::{Read, Write};
use std::mem::replace;
use std::time::Clock;

/// How many bytes of answers are written before more lines are handled.
const MOST_ANSWERS: usize = 1_048_576;

impl<D: JournalStore + Drop> Server<'_, D> {
    /// Answers the lines of the input until it ends, behind what is to be written already.
    pub(crate) fn serve<C: Clock, F: OutputFiles, R: Read, W: Write>(
        &mut self,
        clock: &C,
        files: &mut F,
        input: &mut Device<R>,
        output: &mut Device<W>,
    ) -> Result<(), LiveFault>
        requires { self.old.told.line ≡ 0 }
        ensures all { OnOk result (AreAllAnswered self.old.told.decimals self.old.told.answers.items self.old.hands
            (R.remaining input.old.0) (R.remaining input.new.0) (W.contents output.old.0) (W.contents output.new.0)) }
        ensures first { OnErr result (AreFirstAnswered self.old.told.decimals self.old.told.answers.items self.old.hands
            (R.remaining input.old.0) (R.remaining input.new.0) (W.contents output.old.0) (W.contents output.new.0)) }
    {
        let mut chunk = Vec::with_capacity(self.told.alloc, CHUNK)?;
        chunk.resize(CHUNK, 0)?;
        let mut begun = BegunLine::new(self.told.alloc);
        self.write_out(output)?;
        self.serve_chunks(
            clock,
            files,
            input,
            output,
            chunk.as_mut_slice(),
            &mut begun,
        )?;
        self.serve_last(files, &mut begun)?;
        self.write_out(output)?;
        self.hands.are_served();
        Ok(())
    }

    /// Answers all whole lines of the input.
    fn serve_chunks<C: Clock, F: OutputFiles, R: Read, W: Write>(
        &mut self,
        clock: &C,
        files: &mut F,
        input: &mut Device<R>,
        output: &mut Device<W>,
        chunk: &mut [u8],
        begun: &mut BegunLine,
    ) -> Result<(), LiveFault>
        requires room { 0 < length chunk.old }
        requires none { HasBegun begun.old.skip begun.old.kept.items [] }
        ensures ok { OnOk result ((bytes : List ℕ)
            × Consumes (R.remaining input.old.0) (R.remaining input.new.0) bytes × IsAtEnd (R.remaining input.new.0)
            × ServesBytes bytes [] begun.new.skip begun.new.kept.items self.old.hands self.new.hands self.old.told
            self.new.told (W.contents output.old.0) (W.contents output.new.0)) }
        ensures err { OnErr result ((bytes : List ℕ)
            × Consumes (R.remaining input.old.0) (R.remaining input.new.0) bytes
            × BreaksOff bytes self.old.hands self.old.told (W.contents output.old.0) (W.contents output.new.0)) }
    {
        for _ in 0..u64::MAX {
            let count = input.read_some(chunk)?;
            if count == 0 {
                return Ok(());
            }
            self.serve_read(clock, files, output, &chunk[..count], begun)?;
        }
        Err(LiveFault::Serve(ServeFault::Read))
    }

    /// Answers the whole lines of what was read at once, and writes the answers.
    fn serve_read<C: Clock, F: OutputFiles, W: Write>(
        &mut self,
        clock: &C,
        files: &mut F,
        output: &mut Device<W>,
        bytes: &[u8],
        begun: &mut BegunLine,
    ) -> Result<(), LiveFault>
        ensures ok { OnOk result ((start : List ℕ) → HasBegun begun.old.skip begun.old.kept.items start → IsLine start
            → ServesBytes (start ++ bytes.now) [] begun.new.skip begun.new.kept.items self.old.hands self.new.hands
            self.old.told self.new.told (W.contents output.old.0) (W.contents output.new.0)) }
        ensures err { OnErr result ((start : List ℕ) → HasBegun begun.old.skip begun.old.kept.items start → IsLine start
            → BreaksOff (start ++ bytes.now) self.old.hands self.old.told
            (W.contents output.old.0) (W.contents output.new.0)) }
    {
        self.set_time(clock);
        self.serve_chunk(files, output, bytes, begun)?;
        self.write_out(output)
    }

    /// Answers the whole lines of what was read.
    fn serve_chunk<F: OutputFiles, W: Write>(
        &mut self,
        files: &mut F,
        output: &mut Device<W>,
        bytes: &[u8],
        begun: &mut BegunLine,
    ) -> Result<(), LiveFault>
        ensures ok { OnOk result ((start : List ℕ) → HasBegun begun.old.skip begun.old.kept.items start → IsLine start
            → ServesBytes (start ++ bytes.now) [] begun.new.skip begun.new.kept.items self.old.hands self.new.hands
            self.old.told self.new.told (W.contents output.old.0) (W.contents output.new.0)) }
        ensures err { OnErr result ((start : List ℕ) → HasBegun begun.old.skip begun.old.kept.items start → IsLine start
            → BreaksOff (start ++ bytes.now) self.old.hands self.old.told
            (W.contents output.old.0) (W.contents output.new.0)) }
    {
        let mut rest = bytes;
        while let Some((line, more)) = first_line(rest) {
            self.serve_line(files, output, line, begun)?;
            rest = more;
        }
        begun.keep(rest);
        Ok(())
    }

    /// Answers a line that ends with these bytes, and writes the answers if they are many.
    fn serve_line<F: OutputFiles, W: Write>(
        &mut self,
        files: &mut F,
        output: &mut Device<W>,
        bytes: &[u8],
        begun: &mut BegunLine,
    ) -> Result<(), LiveFault>
        ensures ok { OnOk result ((start : List ℕ) → HasBegun begun.old.skip begun.old.kept.items start
            → Serves ((start ++ bytes.now) ∷ []) self.old.hands self.new.hands self.old.told self.new.told
            (W.contents output.old.0) (W.contents output.new.0)) }
        ensures err { OnErr result ((start : List ℕ) → HasBegun begun.old.skip begun.old.kept.items start
            → IsLine (start ++ bytes.now)
            → BreaksOff ((start ++ bytes.now) ++ 10 ∷ []) self.old.hands self.old.told
            (W.contents output.old.0) (W.contents output.new.0)) }
        ensures next { OnOk result (HasBegun begun.new.skip begun.new.kept.items []) }
    {
        self.end_line(files, bytes, begun)?;
        if self.told.answers.len() < MOST_ANSWERS {
            return Ok(());
        }
        self.write_out(output)
    }

    /// Handles a line that ends with these bytes.
    fn end_line<F: OutputFiles>(
        &mut self,
        files: &mut F,
        bytes: &[u8],
        begun: &mut BegunLine,
    ) -> Result<(), OutOfMemory>
        ensures answered { OnOk result ((start : List ℕ) → HasBegun begun.old.skip begun.old.kept.items start
            → AddsAnswers ((start ++ bytes.now) ∷ []) self.old.hands self.new.hands self.old.told self.new.told) }
        ensures next { HasBegun begun.new.skip begun.new.kept.items [] }
    {
        if begun.is_empty() {
            return self.handle(files, bytes);
        }
        begun.keep(bytes);
        self.handle_begun(files, begun)
    }

    /// Handles a line that was read whole.
    fn handle_begun<F: OutputFiles>(
        &mut self,
        files: &mut F,
        begun: &mut BegunLine,
    ) -> Result<(), OutOfMemory>
        ensures answered { OnOk result ((line : List ℕ) → HasBegun begun.old.skip begun.old.kept.items line
            → AddsAnswers (line ∷ []) self.old.hands self.new.hands self.old.told self.new.told) }
        ensures next { HasBegun begun.new.skip begun.new.kept.items [] }
    {
        match begun.take() {
            Ok(line) => self.handle(files, line.as_slice()),
            Err(why) => self.handle_skipped(why),
        }
    }

    /// Handles the last line, if it has no newline.
    fn serve_last<F: OutputFiles>(
        &mut self,
        files: &mut F,
        begun: &mut BegunLine,
    ) -> Result<(), OutOfMemory>
        ensures { OnOk result ((start : List ℕ) → HasBegun begun.old.skip begun.old.kept.items start
            → AddsAnswers (last_line start) self.old.hands self.new.hands self.old.told self.new.told) }
    {
        if begun.is_empty() {
            return Ok(());
        }
        self.handle_begun(files, begun)
    }

    /// Brings what was committed to the disk, and then writes the answers.
    fn write_out<W: Write>(&mut self, output: &mut Device<W>) -> Result<(), LiveFault>
        ensures ok { OnOk result (WritesOut self.old.told self.new.told
            (W.contents output.old.0) (W.contents output.new.0)) }
        ensures err { OnErr result (AppendsSome (W.contents output.old.0) (W.contents output.new.0)
            self.old.told.answers.items) }
        ensures hands { self.new.hands ≡ self.old.hands }
    {
        let answers = replace(&mut self.told.answers, Vec::new(self.told.alloc));
        write_synced(self.hands.journal_mut(), answers.as_slice(), output)
    }

    /// Sets the time of what is committed next, for people alone.
    fn set_time<C: Clock>(&mut self, clock: &C)
        ensures told { self.new.told ≡ self.old.told }
        ensures hands { self.new.hands ≡ self.old.hands }
    {
        if let Ok(time) = clock.since_1970() {
            self.hands.journal_mut().set_time(time.as_secs());
        }
    }
}
