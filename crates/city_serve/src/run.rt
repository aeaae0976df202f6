//! Runs a text of scripts with the requested workers, viewers and form of numbers.
ghost use Rattle.std.specs.Prelude.{◌≡◌, ◌++◌, ◌∷◌, [], ℕ, List, drop, false, length, IfOk, IfErr};
ghost use Rattle.city_model.specs.CityMap.{object_at};
ghost use Rattle.city_model.specs.Relations.{IsLawful};
ghost use Rattle.city_model.specs.SerialEnds.{commits_in};
ghost use Rattle.city_crew.specs.Seen.{AreSeen};
ghost use Rattle.city_scheduler.specs.InTurn.{AreInTurn};
ghost use Rattle.city_desk.specs.RunFaults.{IsRunFault, is_of_crew};
ghost use Rattle.city_desk.specs.TextRuns.{IsReadFrom, IsRun};
ghost use Rattle.city_options.specs.RunOptions.{AreWithin};
ghost use Rattle.city_serve.specs.ServedTexts.{IsFaultOfRun, WhereAlone};
ghost use Rattle.city_doc.specs.document.CanonicalTexts.{IsCanonicalText};
ghost use Rattle.city_writer.specs.Outputs.{IsJsonOutput};
ghost use Rattle.city_writer.specs.document.Canonical.{city_text};
ghost use Rattle.city_writer.specs.report.Reports.{report_text};
ghost use Rattle.city_serve.specs.Decimals.{written_by, faults_by};
ghost use Rattle.city_serve.specs.Destinations.{IsCutAt};

use crate::decimals::run_decimals;
use crate::texts::Texts;
use city_crew::{Gate, run_crew_read};
use city_desk::{Output, RunFault, read_texts_by, run_read};
use city_doc::pieces_for;
use city_members::sequence::Sequence;
use city_model::city::City;
use city_model::script::Script;
use city_options::Options;
use std::alloc::Global;
use std::sync::Wait;
use std::thread::Threads;

/// Runs the scripts on the document's city, through a gate, and gives the final city beside the
/// output. Every served run goes this way.
///
/// If it succeeds the texts are gone. If it refuses one, the text is there as the run was given it.
pub(crate) fn run<R: Threads + Wait + Sync, G: Gate + Sync>(
    rt: &R,
    alloc: Global,
    gate: &G,
    seed: u64,
    texts: &mut Texts,
    options: Options,
) -> Result<(Output, City), RunFault>
    requires { AreWithin options }
    ensures ran { IfOk result (λ r. written_by options.decimals
        texts.old.document.bytes.items texts.old.scripts.bytes.items r.0.ends r.0.bytes.items) }
    ensures in_turn { IfOk result (λ r. WhereAlone options.workers options.viewers (AreInTurn 0 r.0.ends)) }
    ensures seen { IfOk result (λ r. AreSeen options.viewers (commits_in r.0.ends) r.0.seen.items) }
    ensures cut { IfOk result (λ r. IsCutAt options.decimals r.0.ends r.0.bytes.items r.0.report) }
    ensures city { IfOk result (λ r. options.decimals ≡ false
        → drop r.0.report r.0.bytes.items ≡ city_text r.1 ++ 10 ∷ []) }
    ensures fault { IfErr result
        (faults_by options.decimals
        texts.old.document.bytes.items texts.old.scripts.bytes.items options.workers options.viewers) }
{
    if options.decimals {
        run_decimals(rt, alloc, gate, seed, texts, options)
    } else {
        run_whole(rt, alloc, gate, seed, texts, options)
    }
}

/// Runs scripts on a document's city, both of whole numbers, and gives the final city beside the
/// output. Lets the texts go once they are read: the output is written into the memory of the
/// document. Scripts that are to be explained stay, and a copy of the city. A large document is read by as many threads as run and look. One worker without
/// viewers needs no thread beside its own, and passes no gate.
pub(crate) fn run_whole<R: Threads + Wait + Sync, G: Gate + Sync>(
    rt: &R,
    alloc: Global,
    gate: &G,
    seed: u64,
    texts: &mut Texts,
    options: Options,
) -> Result<(Output, City), RunFault>
    requires { AreWithin options }
    ensures ran { IfOk result (λ r.
        IsRun texts.old.document.bytes.items texts.old.scripts.bytes.items r.0.ends r.0.bytes.items) }
    ensures in_turn { IfOk result (λ r. WhereAlone options.workers options.viewers (AreInTurn 0 r.0.ends)) }
    ensures seen { IfOk result (λ r. AreSeen options.viewers (commits_in r.0.ends) r.0.seen.items) }
    ensures cut { IfOk result (λ r. IsCutAt false r.0.ends r.0.bytes.items r.0.report) }
    ensures report { IfOk result (λ r. r.0.report ≡ length (report_text r.0.ends)) }
    ensures lines { IfOk result (λ r. IsJsonOutput r.0.report r.0.bytes.items) }
    ensures canonical { IfOk result (λ r. IsCanonicalText (city_text r.1) r.1) }
    ensures city { IfOk result (λ r. drop r.0.report r.0.bytes.items ≡ city_text r.1 ++ 10 ∷ []) }
    ensures fault { IfErr result (IsFaultOfRun
        texts.old.document.bytes.items texts.old.scripts.bytes.items options.workers options.viewers) }
{
    let (model, commands) = (
        texts.document.bytes.as_slice(),
        texts.scripts.bytes.as_slice(),
    );
    let pieces = pieces_for(options.workers + options.viewers);
    let (city, list) = read_texts_by(rt, alloc, model, commands, pieces)?;
    texts.keep(alloc, &city);
    let room = texts.take_memory(alloc);
    let (output, city) = run_read_texts(rt, alloc, gate, seed, city, list, room, options)?;
    Ok((output, city))
}

/// Runs scripts on a city, both already read, and returns the final city beside the output.
fn run_read_texts<R: Threads + Wait + Sync, G: Gate + Sync>(
    rt: &R,
    alloc: Global,
    gate: &G,
    seed: u64,
    city: City,
    scripts: Sequence<Script>,
    room: Vec<u8>,
    options: Options,
) -> Result<(Output, City), RunFault>
    requires lawful { IsLawful (object_at city.1) }
    requires within { AreWithin options }
    ensures ran { IfOk result (λ r. (document text : List ℕ) → IsReadFrom document text city scripts
        → IsRun document text r.0.ends r.0.bytes.items) }
    ensures in_turn { IfOk result (λ r. WhereAlone options.workers options.viewers (AreInTurn 0 r.0.ends)) }
    ensures seen { IfOk result (λ r. AreSeen options.viewers (commits_in r.0.ends) r.0.seen.items) }
    ensures cut { IfOk result (λ r. IsCutAt false r.0.ends r.0.bytes.items r.0.report) }
    ensures report { IfOk result (λ r. r.0.report ≡ length (report_text r.0.ends)) }
    ensures lines { IfOk result (λ r. IsJsonOutput r.0.report r.0.bytes.items) }
    ensures canonical { IfOk result (λ r. IsCanonicalText (city_text r.1) r.1) }
    ensures city { IfOk result (λ r. r.0.bytes.items ≡ report_text r.0.ends ++ city_text r.1 ++ 10 ∷ []) }
    ensures fault { IfErr result (λ f. (document text : List ℕ) → IsRunFault document text f) }
    ensures alone { IfErr result (λ f. WhereAlone options.workers options.viewers (is_of_crew f ≡ false)) }
{
    let (workers, viewers) = (options.workers, options.viewers);
    if workers == 1 && viewers == 0 {
        let ran = run_read(alloc, seed, city, scripts, room)?;
        Ok(ran)
    } else {
        let ran = run_crew_read(rt, alloc, seed, city, scripts, room, workers, viewers, gate)?;
        Ok(ran)
    }
}
