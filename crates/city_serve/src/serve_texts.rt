//! Serves a document and its scripts from two texts to a writer.
ghost use Rattle.std.specs.Prelude.{◌≡◌, ◌≤◌, ◌++◌, ◌∷◌, [], List, false, IfOk, IfErr, OnOk};
ghost use Rattle.city_crew.specs.Limits.{max_workers, max_viewers};
ghost use Rattle.city_options.specs.RunOptions.{AreWithin};
ghost use Rattle.city_writer.specs.document.Canonical.{city_text};
ghost use Rattle.city_serve.specs.ServedTexts.{AreServed, AreServedBy, IsTextsFault, IsTextsFaultBy};
ghost use Rattle.city_serve.specs.Decimals.{written_by, faults_by};
ghost use Rattle.city_options.specs.RunOptions.{file_of};
ghost use Rattle.city_serve.specs.Destinations.{IsDelivered, IsDeliveryFault, goes_nowhere};
ghost use Rattle.city_serve.specs.Steps.{Step, Takes, delivering};

use crate::deliver::{Delivered, deliver};
use crate::device::Device;
use crate::fault::ServeFault;
use crate::no_files::NoFiles;
use crate::output_files::OutputFiles;
use crate::run::run;
use crate::texts::Texts;
use city_crew::{Gate, OpenGate};
use city_doc::FIXED_SEED;
use city_model::city::City;
use city_options::{Destination, Options};
use std::alloc::Global;
use std::io::Write;
use std::sync::Wait;
use std::thread::Threads;

/// Runs the scripts of a text on a document, and writes the output.
///
/// Workers are 1 to `MAX_WORKERS`, viewers 0 to `MAX_VIEWERS`, and the writer hasn't failed yet, so
/// `Write` comes only if it fails now. One worker without viewers runs the scripts in their order. The document is judged before the scripts. If the run has no output,
/// nothing is written; if the writer fails, it has got the first bytes of the output. The answer
/// has, for each viewer, the numbers of the changes it saw.
pub fn serve_texts<R: Threads + Wait + Sync, W: Write>(
    rt: &R,
    alloc: Global,
    document: &[u8],
    scripts: &[u8],
    writer: &mut Device<W>,
    workers: usize,
    viewers: usize,
) -> Result<Vec<Vec<u64>>, ServeFault>
    requires workers { (1 ≤ workers) × (workers ≤ max_workers) }
    requires viewers { viewers ≤ max_viewers }
    requires fresh { writer.old.1 ≡ false }
    ensures served { IfOk result (λ seen. AreServed document.now scripts.now workers viewers seen.items
        (W.contents writer.old.0) (W.contents writer.new.0)) }
    ensures unfailed { OnOk result (writer.new.1 ≡ writer.old.1) }
    ensures fault { IfErr result (IsTextsFault document.now scripts.now workers viewers
        (W.contents writer.old.0) (W.contents writer.new.0) writer.new.1) }
{
    let (document, scripts) = (document.to_vec(alloc)?, scripts.to_vec(alloc)?);
    let options = Options {
        workers,
        viewers,
        decimals: false,
        explain: false,
    };
    serve_owned(
        rt, alloc, &OpenGate, FIXED_SEED, document, scripts, writer, options,
    )
}

/// As `serve_texts`, with texts of its own, with these options, and through a gate: a worker passes
/// it between its turns, and each viewer tells it what it saw.
///
/// One worker without viewers passes no gate. The texts are let go once they are read. With
/// `decimals` numbers of any form are taken, and given back as they were written.
pub fn serve_owned<R: Threads + Wait + Sync, G: Gate + Sync, W: Write>(
    rt: &R,
    alloc: Global,
    gate: &G,
    seed: u64,
    document: Vec<u8>,
    scripts: Vec<u8>,
    writer: &mut Device<W>,
    options: Options,
) -> Result<Vec<Vec<u64>>, ServeFault>
    requires within { AreWithin options }
    requires fresh { writer.old.1 ≡ false }
    ensures served { IfOk result (λ seen. AreServedBy (written_by options.decimals) document.items scripts.items
        options.workers options.viewers seen.items (W.contents writer.old.0) (W.contents writer.new.0)) }
    ensures unfailed { OnOk result (writer.new.1 ≡ writer.old.1) }
    ensures fault { IfErr result (IsTextsFaultBy (written_by options.decimals) (faults_by options.decimals)
        document.items scripts.items options.workers options.viewers
        (W.contents writer.old.0) (W.contents writer.new.0) writer.new.1) }
{
    let follows = Destination {
        file: None,
        atomic: false,
        report_only: false,
        wait: 0,
    };
    let (delivered, _city) = serve_to(
        rt,
        alloc,
        gate,
        seed,
        &mut Texts::given(document, scripts),
        &mut NoFiles,
        follows,
        writer,
        options,
    )?;
    Ok(delivered.seen)
}

/// As `serve_owned`, with the output to a destination: the report to the writer, and the model
/// behind it, to a file or nowhere. The file is replaced whole once the report is written, or stays
/// as it was. `Changed` if a text was read from the file and it has another by then. The caller locks
/// the file before it reads any text, and unlocks it.
///
/// The answer says whether the model was withheld: an atomic destination asks for that if a script
/// ended refused or out of memory. Beside it is the final city, which with `decimals` is encoded.
/// If the run succeeds the texts are gone; if it refuses one, the text is there as the run was given
/// it. Every served run goes this way.
pub fn serve_to<R: Threads + Wait + Sync, G: Gate + Sync, F: OutputFiles, W: Write>(
    rt: &R,
    alloc: Global,
    gate: &G,
    seed: u64,
    texts: &mut Texts,
    files: &mut F,
    destination: Destination<'_>,
    writer: &mut Device<W>,
    options: Options,
) -> Result<(Delivered, City), ServeFault>
    requires within { AreWithin options }
    requires fresh { writer.old.1 ≡ false }
    ensures delivered { IfOk result (λ d. (is : IsDelivered destination.entry options
        texts.old.document.bytes.items texts.old.scripts.bytes.items
        d.0.seen.items d.0.withheld (F.text files.old) (F.text files.new)
        (W.contents writer.old.0) (W.contents writer.new.0))
        × (options.decimals ≡ false → is.model ≡ city_text d.1 ++ 10 ∷ [])) }
    ensures unfailed { OnOk result (writer.new.1 ≡ writer.old.1) }
    ensures steps { IfOk result (λ d. Takes (F.steps files.old) (F.steps files.new)
        (delivering (file_of destination.entry) (goes_nowhere destination.entry d.0.withheld))) }
    ensures fault { IfErr result (λ f. (steps : List Step)
        × IsDeliveryFault destination.entry options
        texts.old.document.bytes.items texts.old.scripts.bytes.items
        (F.text files.old) (F.text files.new) (F.have_failed files.new)
        (W.contents writer.old.0) (W.contents writer.new.0) writer.new.1 steps f
        × Takes (F.steps files.old) (F.steps files.new) steps) }
{
    let (output, city) = run(rt, alloc, gate, seed, texts, options)?;
    let delivered = deliver(files, seed, destination, writer, output)?;
    Ok((delivered, city))
}
