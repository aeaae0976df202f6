//! Serves a document and its scripts from a reader to a writer.
ghost use Rattle.std.specs.Prelude.{◌≡◌, ◌≤◌, true, false, IfOk, IfErr, IfSome, OnOk, position, take};
ghost use Rattle.std.specs.Io.KnownBytes.{Appends};
ghost use Rattle.city_crew.specs.Limits.{max_workers, max_viewers};
ghost use Rattle.city_options.specs.RunOptions.{AreWithin};
ghost use Rattle.city_serve.specs.Served.{is_newline, max_input, read_of, document_part, scripts_part, IsDeviceFault};
ghost use Rattle.city_serve.specs.Served.{IsServed, IsServedBy, IsServeFault, IsServeFaultBy};
ghost use Rattle.city_serve.specs.Decimals.{written_by, faults_by};
ghost use Rattle.city_serve.specs.ServedTexts.{LosesAtMost, AppendsSome};

use crate::device::Device;
use crate::fault::ServeFault;
use crate::serve_texts::serve_owned;
use city_crew::{Gate, OpenGate};
use city_doc::{FIXED_SEED, MAX_TEXT};
use city_model::OutOfMemory;
use city_options::Options;
use memchr::memchr;
use std::alloc::Global;
use std::io::{Read, Write};
use std::sync::Wait;
use std::thread::Threads;

/// The most bytes read: two texts of the greatest length, the newline, and one more.
const MOST: usize = 2 * MAX_TEXT + 2;

/// How many bytes are asked for at a time.
const PIECE: usize = 64 * 1024;

/// Reads a document and, after the first newline, scripts; runs the scripts on the document; writes
/// the output.
///
/// Workers are 1 to `MAX_WORKERS`, viewers 0 to `MAX_VIEWERS`, and neither device has failed yet.
/// No more bytes are taken from the reader than 2 * `MAX_TEXT` + 2. Without a newline there are no
/// scripts. If the reader fails, or the run has no output, nothing is written; if the writer fails,
/// it has got the first bytes of the output. `Read` and `Write` come only if the reader or the
/// writer fails, and if either does there is no `Ok`. The answer has, for each viewer, the numbers
/// of the changes it saw.
pub fn serve<T: Threads + Wait + Sync, R: Read, W: Write>(
    rt: &T,
    alloc: Global,
    reader: &mut Device<R>,
    writer: &mut Device<W>,
    workers: usize,
    viewers: usize,
) -> Result<Vec<Vec<u64>>, ServeFault>
    requires workers { (1 ≤ workers) × (workers ≤ max_workers) }
    requires viewers { viewers ≤ max_viewers }
    requires fresh { (reader.old.1 ≡ false) × (writer.old.1 ≡ false) }
    ensures served { IfOk result (λ seen. IfSome (R.remaining reader.old.0) (λ input.
        IsServed input workers viewers seen.items (W.contents writer.old.0) (W.contents writer.new.0))) }
    ensures taken { LosesAtMost max_input (R.remaining reader.old.0) (R.remaining reader.new.0) }
    ensures unfailed { OnOk result ((reader.new.1 ≡ reader.old.1) × (writer.new.1 ≡ writer.old.1)) }
    ensures fault { IfErr result (IsServeFault (R.remaining reader.old.0) workers viewers reader.new.1
        (W.contents writer.old.0) (W.contents writer.new.0) writer.new.1) }
{
    let options = Options {
        workers,
        viewers,
        decimals: false,
        explain: false,
    };
    serve_input(rt, alloc, &OpenGate, FIXED_SEED, reader, writer, options)
}

/// As `serve`, with these options, and through a gate: a worker passes it between its turns, and
/// each viewer tells it what it saw. With `decimals` numbers of any form are taken, and given back
/// as they were written.
pub fn serve_input<T: Threads + Wait + Sync, G: Gate + Sync, R: Read, W: Write>(
    rt: &T,
    alloc: Global,
    gate: &G,
    seed: u64,
    reader: &mut Device<R>,
    writer: &mut Device<W>,
    options: Options,
) -> Result<Vec<Vec<u64>>, ServeFault>
    requires within { AreWithin options }
    requires fresh { (reader.old.1 ≡ false) × (writer.old.1 ≡ false) }
    ensures served { IfOk result (λ seen. IfSome (R.remaining reader.old.0) (λ input.
        IsServedBy (written_by options.decimals) input options.workers options.viewers seen.items
        (W.contents writer.old.0) (W.contents writer.new.0))) }
    ensures taken { LosesAtMost max_input (R.remaining reader.old.0) (R.remaining reader.new.0) }
    ensures unfailed { OnOk result ((reader.new.1 ≡ reader.old.1) × (writer.new.1 ≡ writer.old.1)) }
    ensures fault { IfErr result (IsServeFaultBy (written_by options.decimals) (faults_by options.decimals)
        (R.remaining reader.old.0) options.workers options.viewers reader.new.1
        (W.contents writer.old.0) (W.contents writer.new.0) writer.new.1) }
{
    let (document, scripts) = read_input(alloc, reader)?;
    serve_owned(rt, alloc, gate, seed, document, scripts, writer, options)
}

/// Reads a document and, after the first newline, scripts. No more bytes are taken from the reader than
/// 2 * `MAX_TEXT` + 2, and without a newline there are no scripts.
pub fn read_input<R: Read>(
    alloc: Global,
    reader: &mut Device<R>,
) -> Result<(Vec<u8>, Vec<u8>), ServeFault>
    ensures document { IfOk result (λ r. IfSome (R.remaining reader.old.0) (λ all.
        r.0.items ≡ document_part (read_of all))) }
    ensures scripts { IfOk result (λ r. IfSome (R.remaining reader.old.0) (λ all.
        r.1.items ≡ scripts_part (read_of all))) }
    ensures taken { LosesAtMost max_input (R.remaining reader.old.0) (R.remaining reader.new.0) }
    ensures unfailed { OnOk result (reader.new.1 ≡ reader.old.1) }
    ensures fault { IfErr result (IsDeviceFault reader.new.1) }
{
    let input = read_at_most(alloc, reader, MOST)?;
    Ok(split(alloc, input)?)
}

/// The bytes from a reader, up to so many. No more are taken from it.
pub(crate) fn read_at_most<R: Read>(
    alloc: Global,
    reader: &mut Device<R>,
    most: usize,
) -> Result<Vec<u8>, ServeFault>
    ensures input { IfOk result (λ v. IfSome (R.remaining reader.old.0)
        (λ all. v.items ≡ take most all)) }
    ensures taken { LosesAtMost most (R.remaining reader.old.0) (R.remaining reader.new.0) }
    ensures unfailed { OnOk result (reader.new.1 ≡ reader.old.1) }
    ensures fault { IfErr result (IsDeviceFault reader.new.1) }
{
    let mut input = Vec::new(alloc);
    let mut chunk = [0; PIECE];
    while input.len() < most {
        let room = chunk.len().min(most - input.len());
        let count = reader.read_some(&mut chunk[..room])?;
        if count == 0 {
            return Ok(input);
        }
        input.extend_from_slice(&chunk[..count])?;
    }
    Ok(input)
}

/// The document and the scripts of an input, each on its own.
fn split(alloc: Global, input: Vec<u8>) -> Result<(Vec<u8>, Vec<u8>), OutOfMemory>
    ensures document { IfOk result (λ r. r.0.items ≡ document_part input.items) }
    ensures scripts { IfOk result (λ r. r.1.items ≡ scripts_part input.items) }
{
    let (document, scripts) = cut(input.as_slice());
    let scripts = scripts.to_vec(alloc)?;
    let length = document.len();
    let mut document = input;
    document.truncate(length);
    Ok((document, scripts))
}

/// The document and the scripts of an input.
fn cut(input: &[u8]) -> (&[u8], &[u8])
    ensures document { result.0.now ≡ document_part input.now }
    ensures scripts { result.1.now ≡ scripts_part input.now }
{
    match first_newline(input) {
        Some(at) => (&input[..at], &input[at + 1..]),
        None => (input, &[]),
    }
}

/// The index of the first newline.
fn first_newline(bytes: &[u8]) -> Option<usize>
    ensures { result ≡ position is_newline bytes.now }
{
    memchr(b'\n', bytes)
}

/// Writes the bytes and flushes the writer, and says whether both succeeded.
pub fn write_output<W: Write>(writer: &mut Device<W>, bytes: &[u8]) -> bool
    ensures written { result ≡ true → Appends (W.contents writer.old.0) (W.contents writer.new.0) bytes.now }
    ensures cut_short { result ≡ false → AppendsSome (W.contents writer.old.0) (W.contents writer.new.0) bytes.now }
    ensures unfailed { result ≡ true → writer.new.1 ≡ writer.old.1 }
    ensures failed { result ≡ false → writer.new.1 ≡ true }
{
    let mut rest = bytes;
    while !rest.is_empty() {
        let Some(count) = writer.write_some(rest) else {
            return false;
        };
        rest = &rest[count..];
    }
    writer.flush()
}
