//! Runs the scripts of a text on the city of a document, one after the other.
ghost use Rattle.std.specs.Prelude.{◌≡◌, ◌++◌, ◌∷◌, [], ℕ, List, length, IfOk, IfErr};
ghost use Rattle.city_model.specs.CityMap.{object_at};
ghost use Rattle.city_model.specs.Relations.{IsLawful};
ghost use Rattle.city_doc.specs.document.CanonicalTexts.{IsCanonicalText};
ghost use Rattle.city_writer.specs.Outputs.{IsJsonOutput};
ghost use Rattle.city_writer.specs.document.Canonical.{city_text};
ghost use Rattle.city_writer.specs.report.Reports.{report_text};
ghost use Rattle.city_scheduler.specs.InTurn.{AreInTurn};
ghost use Rattle.city_desk.specs.RunFaults.{IsSerialFault};
ghost use Rattle.city_desk.specs.SerialRuns.{IsSerialRun, IsDecided};
ghost use Rattle.city_desk.specs.TextRuns.{IsReadFrom, IsRun};

use crate::fault::RunFault;
use crate::output::{Output, output_bytes};
use crate::texts::read_texts;
use city_doc::FIXED_SEED;
use city_members::sequence::Sequence;
use city_model::OutOfMemory;
use city_model::city::City;
use city_model::script::Script;
use city_scheduler::run_each;
use std::alloc::Global;

/// Runs the scripts on the document's city, one after the other in their order.
///
/// The document is judged before the scripts. If a script runs out of memory, it ends as `NoMemory`
/// and changes nothing; running out of memory for a text, for the desk or for the output ends the
/// run. If no script ran out of memory, the two texts alone decide the ends and the bytes.
pub fn run_serial(alloc: Global, document: &[u8], scripts: &[u8]) -> Result<Output, RunFault>
    ensures ran { IfOk result (λ o. IsSerialRun document.now scripts.now o.ends o.bytes.items) }
    ensures decided { IfOk result (λ o. IsDecided document.now scripts.now o.ends o.bytes.items) }
    ensures seen { IfOk result (λ o. o.seen.items ≡ []) }
    ensures report { IfOk result (λ o. o.report ≡ length (report_text o.ends)) }
    ensures lines { IfOk result (λ o. IsJsonOutput o.report o.bytes.items) }
    ensures fault { IfErr result (λ f. IsSerialFault document.now scripts.now f) }
{
    let (output, _) = run_serial_to_city(alloc, document, scripts)?;
    Ok(output)
}

/// Runs the scripts like `run_serial`, and gives the final city beside the output.
pub fn run_serial_to_city(
    alloc: Global,
    document: &[u8],
    scripts: &[u8],
) -> Result<(Output, City), RunFault>
    ensures ran { IfOk result (λ r. IsSerialRun document.now scripts.now r.0.ends r.0.bytes.items) }
    ensures decided { IfOk result (λ r. IsDecided document.now scripts.now r.0.ends r.0.bytes.items) }
    ensures seen { IfOk result (λ r. r.0.seen.items ≡ []) }
    ensures city { IfOk result (λ r. r.0.bytes.items ≡ report_text r.0.ends ++ city_text r.1 ++ 10 ∷ []) }
    ensures report { IfOk result (λ r. r.0.report ≡ length (report_text r.0.ends)) }
    ensures lines { IfOk result (λ r. IsJsonOutput r.0.report r.0.bytes.items) }
    ensures canonical { IfOk result (λ r. IsCanonicalText (city_text r.1) r.1) }
    ensures fault { IfErr result (λ f. IsSerialFault document.now scripts.now f) }
{
    let (city, list) = read_texts(alloc, document, scripts)?;
    let mut room = Vec::new(alloc);
    let _ = room.reserve_exact(document.len());
    Ok(run_read(alloc, FIXED_SEED, city, list, room)?)
}

/// Runs scripts already read on a city already read, one after the other, and gives the final city
/// beside the output. The output takes the memory of `room`, such as that of the document's text.
/// Points are hashed by the seed.
pub fn run_read(
    alloc: Global,
    seed: u64,
    city: City,
    scripts: Sequence<Script>,
    room: Vec<u8>,
) -> Result<(Output, City), OutOfMemory>
    requires { IsLawful (object_at city.1) }
    ensures ran { IfOk result (λ r. (document text : List ℕ) → IsReadFrom document text city scripts
        → IsRun document text r.0.ends r.0.bytes.items) }
    ensures in_turn { IfOk result (λ r. AreInTurn 0 r.0.ends) }
    ensures seen { IfOk result (λ r. r.0.seen.items ≡ []) }
    ensures city { IfOk result (λ r. r.0.bytes.items ≡ report_text r.0.ends ++ city_text r.1 ++ 10 ∷ []) }
    ensures report { IfOk result (λ r. r.0.report ≡ length (report_text r.0.ends)) }
    ensures lines { IfOk result (λ r. IsJsonOutput r.0.report r.0.bytes.items) }
    ensures canonical { IfOk result (λ r. IsCanonicalText (city_text r.1) r.1) }
{
    let finished = run_each(alloc, city, scripts)?;
    let (bytes, report) = output_bytes(
        alloc,
        seed,
        &finished.city,
        finished.ends.as_slice(),
        room,
    )?;
    let output = Output {
        ends: finished.ends,
        bytes,
        report,
        seen: Vec::new(alloc),
    };
    Ok((output, finished.city))
}
