//! Runs the scripts of a text on the city of a document, with workers and viewers.
ghost use Rattle.std.specs.Prelude.{◌≡◌, ◌≤◌, ◌++◌, ◌∷◌, ℕ, List, [], length, IfOk, IfErr};
ghost use Rattle.city_model.specs.CityMap.{object_at};
ghost use Rattle.city_model.specs.Relations.{IsLawful};
ghost use Rattle.city_model.specs.SerialEnds.{commits_in};
ghost use Rattle.city_doc.specs.document.CanonicalTexts.{IsCanonicalText};
ghost use Rattle.city_writer.specs.Outputs.{IsJsonOutput};
ghost use Rattle.city_writer.specs.document.Canonical.{city_text};
ghost use Rattle.city_writer.specs.report.Reports.{report_text};
ghost use Rattle.city_desk.specs.RunFaults.{IsRunFault};
ghost use Rattle.city_desk.specs.TextRuns.{IsReadFrom, IsRun};
ghost use Rattle.city_crew.specs.Limits.{max_workers, max_viewers};
ghost use Rattle.city_crew.specs.Seen.{AreSeen};

use crate::crew_desk::CrewDesk;
use crate::fault::CrewFault;
use crate::gate::Gate;
use crate::ghosts::origin::Origin;
use crate::shared::Shared;
use crate::threads::run_threads;
use crate::watcher::{Watcher, last_looks};
use city_desk::{Output, RunFault, output_bytes_by, read_texts_by};
use city_doc::{FIXED_SEED, Pieces, pieces_for};
use city_members::sequence::Sequence;
use city_model::city::City;
use city_model::script::Script;
use city_scheduler::{Finished, Shelf};
use std::alloc::Global;
use std::marker::Brand;
use std::sync::Wait;
use std::thread::Threads;

/// Runs the scripts on the document's city with so many workers, while so many viewers look.
///
/// Workers are 1 to `MAX_WORKERS`, viewers 0 to `MAX_VIEWERS`. The document is judged before the
/// scripts. However the workers' turns interleave, the ends and the bytes are those of the scripts
/// run one at a time, each once, in the order of the ends. If a script runs out of memory, it ends
/// as `NoMemory` and changes nothing.
///
/// For each viewer, `seen` has the number of changes at its first look, then each larger number
/// seen. The last look comes after all workers have ended, and has all changes. So each number
/// counts the commits in some prefix of the ends.
///
/// Returns `OutOfMemory` also if a thread couldn't be made, `NoPlace` if a viewer's seat or look
/// was refused, `Unfinished` if a script hadn't ended when the workers had, and `Mixed` if a viewer
/// is missing then or didn't see exactly all commits at last.
pub fn run_crew<R: Threads + Wait + Sync, G: Gate + Sync>(
    rt: &R,
    alloc: Global,
    document: &[u8],
    scripts: &[u8],
    workers: usize,
    viewers: usize,
    gate: &G,
) -> Result<Output, RunFault>
    requires workers { (1 ≤ workers) × (workers ≤ max_workers) }
    requires viewers { viewers ≤ max_viewers }
    ensures ran { IfOk result (λ o. IsRun document.now scripts.now o.ends o.bytes.items) }
    ensures seen { IfOk result (λ o. AreSeen viewers (commits_in o.ends) o.seen.items) }
    ensures report { IfOk result (λ o. o.report ≡ length (report_text o.ends)) }
    ensures lines { IfOk result (λ o. IsJsonOutput o.report o.bytes.items) }
    ensures fault { IfErr result (λ f. IsRunFault document.now scripts.now f) }
{
    run_seeded(
        rt, alloc, FIXED_SEED, document, scripts, workers, viewers, gate,
    )
}

/// Like `run_crew`, with the points of the output hashed by the seed.
pub fn run_seeded<R: Threads + Wait + Sync, G: Gate + Sync>(
    rt: &R,
    alloc: Global,
    seed: u64,
    document: &[u8],
    scripts: &[u8],
    workers: usize,
    viewers: usize,
    gate: &G,
) -> Result<Output, RunFault>
    requires workers { (1 ≤ workers) × (workers ≤ max_workers) }
    requires viewers { viewers ≤ max_viewers }
    ensures ran { IfOk result (λ o. IsRun document.now scripts.now o.ends o.bytes.items) }
    ensures seen { IfOk result (λ o. AreSeen viewers (commits_in o.ends) o.seen.items) }
    ensures report { IfOk result (λ o. o.report ≡ length (report_text o.ends)) }
    ensures lines { IfOk result (λ o. IsJsonOutput o.report o.bytes.items) }
    ensures fault { IfErr result (λ f. IsRunFault document.now scripts.now f) }
{
    let pieces = pieces_for(workers + viewers);
    let (city, list) = read_texts_by(rt, alloc, document, scripts, pieces)?;
    let mut room = Vec::new(alloc);
    let _ = room.reserve_exact(document.len());
    let (output, _) = run_crew_read(rt, alloc, seed, city, list, room, workers, viewers, gate)?;
    Ok(output)
}

/// Runs scripts already read on a city already read, like `run_seeded`, and gives the final city
/// beside the output. The output takes the memory of `room`, such as that of the document's text.
/// Points are hashed by the seed.
pub fn run_crew_read<R: Threads + Wait + Sync, G: Gate + Sync>(
    rt: &R,
    alloc: Global,
    seed: u64,
    city: City,
    scripts: Sequence<Script>,
    room: Vec<u8>,
    workers: usize,
    viewers: usize,
    gate: &G,
) -> Result<(Output, City), RunFault>
    requires lawful { IsLawful (object_at city.1) }
    requires workers { (1 ≤ workers) × (workers ≤ max_workers) }
    requires viewers { viewers ≤ max_viewers }
    ensures ran { IfOk result (λ r. (document text : List ℕ) → IsReadFrom document text city scripts
        → IsRun document text r.0.ends r.0.bytes.items) }
    ensures seen { IfOk result (λ r. AreSeen viewers (commits_in r.0.ends) r.0.seen.items) }
    ensures city { IfOk result (λ r. r.0.bytes.items ≡ report_text r.0.ends ++ city_text r.1 ++ 10 ∷ []) }
    ensures report { IfOk result (λ r. r.0.report ≡ length (report_text r.0.ends)) }
    ensures lines { IfOk result (λ r. IsJsonOutput r.0.report r.0.bytes.items) }
    ensures canonical { IfOk result (λ r. IsCanonicalText (city_text r.1) r.1) }
    ensures fault { IfErr result (λ f. (document text : List ℕ) → IsRunFault document text f) }
{
    Ok(run::<R, G, Brand>(rt, alloc, seed, city, scripts, room, workers, viewers, gate)?)
}

/// The same, with a type for the opening city and scripts.
fn run<R: Threads + Wait + Sync, G: Gate + Sync, O: Origin + Send>(
    rt: &R,
    alloc: Global,
    seed: u64,
    city: City,
    scripts: Sequence<Script>,
    room: Vec<u8>,
    workers: usize,
    viewers: usize,
    gate: &G,
) -> Result<(Output, City), CrewFault>
    requires lawful { IsLawful (object_at city.1) }
    requires city { city ≡ O.city }
    requires scripts { scripts ≡ O.scripts }
    requires viewers { viewers ≤ max_viewers }
    ensures ran { IfOk result (λ r. (document text : List ℕ) → IsReadFrom document text O.city O.scripts
        → IsRun document text r.0.ends r.0.bytes.items) }
    ensures seen { IfOk result (λ r. AreSeen viewers (commits_in r.0.ends) r.0.seen.items) }
    ensures city { IfOk result (λ r. r.0.bytes.items ≡ report_text r.0.ends ++ city_text r.1 ++ 10 ∷ []) }
    ensures report { IfOk result (λ r. r.0.report ≡ length (report_text r.0.ends)) }
    ensures lines { IfOk result (λ r. IsJsonOutput r.0.report r.0.bytes.items) }
    ensures canonical { IfOk result (λ r. IsCanonicalText (city_text r.1) r.1) }
{
    let (desk, seated) = CrewDesk::<&R, O>::open(rt, alloc, city, scripts, workers, viewers)?;
    let watchers = Watcher::for_each(alloc, seated)?;
    let shared = Shared::new(alloc, desk, workers)?;
    let watchers = run_threads(rt, alloc, &shared, gate, workers, watchers)?;
    let finished = shared.into_dispatcher().finish()?;
    let pieces = pieces_for(workers.saturating_add(viewers));
    let (output, city) = gather(rt, alloc, seed, finished, watchers, viewers, room, pieces)?;
    Ok((output, city))
}

/// Shows the changes still unseen, has each viewer look once more, and writes the report and the
/// model.
fn gather<S: Shelf, Q: Threads + Wait + Sync>(
    rt: &Q,
    alloc: Global,
    seed: u64,
    finished: Finished<S>,
    watchers: Vec<Watcher>,
    viewers: usize,
    room: Vec<u8>,
    pieces: Pieces,
) -> Result<(Output, City), CrewFault>
    ensures ends { IfOk result (λ r. r.0.ends ≡ finished.ends) }
    ensures left { IfOk result (λ r. r.1 ≡ finished.city) }
    ensures seen { IfOk result (λ r. AreSeen viewers (commits_in r.0.ends) r.0.seen.items) }
    ensures city { IfOk result (λ r. r.0.bytes.items ≡ report_text r.0.ends ++ city_text r.1 ++ 10 ∷ []) }
    ensures report { IfOk result (λ r. r.0.report ≡ length (report_text r.0.ends)) }
    ensures lines { IfOk result (λ r. IsJsonOutput r.0.report r.0.bytes.items) }
    ensures canonical { IfOk result (λ r. IsCanonicalText (city_text r.1) r.1) }
{
    let Finished {
        city,
        ends,
        mut shelf,
    } = finished;
    shelf.show(rt)?;
    let seen = last_looks(alloc, watchers, viewers, ends.as_slice())?;
    let (bytes, report) = output_bytes_by(rt, alloc, seed, &city, ends.as_slice(), room, pieces)?;
    let output = Output {
        ends,
        bytes,
        report,
        seen,
    };
    Ok((output, city))
}
