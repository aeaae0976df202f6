//! The output of a run.
ghost use Rattle.std.specs.Prelude.{◌≡◌, ◌++◌, ◌∷◌, [], length, IfOk};
ghost use Rattle.city_doc.specs.document.CanonicalTexts.{IsCanonicalText};
ghost use Rattle.city_writer.specs.Outputs.{IsJsonOutput};
ghost use Rattle.city_writer.specs.document.Canonical.{city_text};
ghost use Rattle.city_writer.specs.report.Reports.{report_text};

use city_doc::{Pieces, append_city, append_city_by, append_report, append_report_by};
use city_members::sequence::Sequence;
use city_model::OutOfMemory;
use city_model::city::City;
use city_model::end::End;
use std::alloc::Global;
use std::thread::Threads;

/// The output of a run.
#[derive(Drop)]
pub struct Output {
    /// The ends of the scripts, oldest first.
    pub ends: Sequence<End>,
    /// The report of the ends, then the model's text and a newline.
    pub bytes: Vec<u8>,
    /// The length of the report in bytes.
    pub report: usize,
    /// For each viewer, the numbers of edits seen.
    pub seen: Vec<Vec<u64>>,
}

/// The memory of a text, and the likely length of the text that takes its place: a newline may be
/// behind it.
fn emptied(text: Vec<u8>) -> (Vec<u8>, usize)
    ensures { result.0.items ≡ [] }
{
    let mut memory = text;
    let likely = memory.len() + 1;
    memory.clear();
    (memory, likely)
}

/// Writes the report of the ends, then the model's text and a newline. Returns the bytes and the
/// length of the report.
///
/// The bytes take the place of those of `room`, such as the text that the model was read from, and
/// its memory. If there is memory for as many bytes behind the report, it is reserved at once.
/// Points are hashed by the seed.
pub fn output_bytes(
    alloc: Global,
    seed: u64,
    city: &City,
    ends: &[End],
    room: Vec<u8>,
) -> Result<(Vec<u8>, usize), OutOfMemory>
    ensures bytes { IfOk result (λ r. r.0.items ≡ report_text ends.now ++ city_text city.now ++ 10 ∷ []) }
    ensures report { IfOk result (λ r. r.1 ≡ length (report_text ends.now)) }
    ensures lines { IfOk result (λ r. IsJsonOutput r.1 r.0.items) }
    ensures canonical { IfOk result (λ _. IsCanonicalText (city_text city.now) city.now) }
{
    let (empty, likely) = emptied(room);
    let mut report = append_report(alloc, seed, empty, ends)?;
    let length = report.len();
    let _ = report.reserve_exact(likely);
    let mut bytes = append_city(alloc, seed, report, city)?;
    bytes.push(b'\n')?;
    Ok((bytes, length))
}

/// Writes the same bytes as `output_bytes`, in pieces by several threads.
pub fn output_bytes_by<R: Threads + Sync>(
    rt: &R,
    alloc: Global,
    seed: u64,
    city: &City,
    ends: &[End],
    room: Vec<u8>,
    pieces: Pieces,
) -> Result<(Vec<u8>, usize), OutOfMemory>
    ensures bytes { IfOk result (λ r. r.0.items ≡ report_text ends.now ++ city_text city.now ++ 10 ∷ []) }
    ensures report { IfOk result (λ r. r.1 ≡ length (report_text ends.now)) }
    ensures lines { IfOk result (λ r. IsJsonOutput r.1 r.0.items) }
    ensures canonical { IfOk result (λ _. IsCanonicalText (city_text city.now) city.now) }
{
    let (empty, likely) = emptied(room);
    let mut report = append_report_by(rt, alloc, seed, empty, ends, pieces)?;
    let length = report.len();
    let _ = report.reserve_exact(likely);
    let mut bytes = append_city_by(rt, alloc, seed, report, city, pieces)?;
    bytes.push(b'\n')?;
    Ok((bytes, length))
}
