//! Writes the report of a run.
ghost use Rattle.std.specs.Prelude.{◌≡◌, ◌++◌, IfOk};
ghost use Rattle.city_writer.specs.report.JsonLines.{AreJsonLines};
ghost use Rattle.city_writer.specs.report.Reports.{end_line, report_text};

use crate::pool::FIXED_SEED;
use crate::report::end::write_end;
use city_model::OutOfMemory;
use city_model::end::End;
use json::Writer;
use std::alloc::Global;

/// The report with the line of one more end, with its newline.
fn with_line(alloc: Global, seed: u64, report: Vec<u8>, end: &End) -> Result<Vec<u8>, OutOfMemory>
    ensures text { IfOk result (λ b. b.items ≡ report.items ++ end_line end.now) }
    ensures lines { AreJsonLines report.items → IfOk result (λ b. AreJsonLines b.items) }
{
    let mut out = Writer::new(report);
    write_end(alloc, seed, end, &mut out)?;
    let mut report = out.into_inner();
    report.push(b'\n')?;
    Ok(report)
}

/// The report: a line of JSON for each end, each with a newline.
pub fn write_report(alloc: Global, ends: &[End]) -> Result<Vec<u8>, OutOfMemory>
    ensures text { IfOk result (λ b. b.items ≡ report_text ends.now) }
    ensures lines { IfOk result (λ b. AreJsonLines b.items) }
{
    seeded_report(alloc, FIXED_SEED, ends)
}

/// The report of `write_report`. The points of objects read are hashed by the seed.
pub(crate) fn seeded_report(alloc: Global, seed: u64, ends: &[End]) -> Result<Vec<u8>, OutOfMemory>
    ensures text { IfOk result (λ b. b.items ≡ report_text ends.now) }
    ensures lines { IfOk result (λ b. AreJsonLines b.items) }
{
    let report = append_report(alloc, seed, Vec::new(alloc), ends)?;
    Ok(report)
}

/// The bytes, and after them the report of `write_report`. If the bytes are lines of JSON, so are all.
/// The points of objects read are hashed by the seed.
#[tactic(auto, unfolding(crate::specs::report::Reports::report_text))]
pub fn append_report(
    alloc: Global,
    seed: u64,
    bytes: Vec<u8>,
    ends: &[End],
) -> Result<Vec<u8>, OutOfMemory>
    ensures text { IfOk result (λ b. b.items ≡ bytes.items ++ report_text ends.now) }
    ensures lines { AreJsonLines bytes.items → IfOk result (λ b. AreJsonLines b.items) }
{
    let mut report = bytes;
    for end in ends {
        report = with_line(alloc, seed, report, end)?;
    }
    Ok(report)
}
