//! Writes a report in pieces, by several workers.
ghost use Rattle.std.specs.Prelude.{◌≡◌, ◌++◌, ◌<◌, IfOk, IfSome, OnOk, is_some, true};
ghost use Rattle.std.specs.List.{list_all};
ghost use Rattle.city_writer.specs.internal.Pieces.{EachPiece, joined};
ghost use Rattle.city_writer.specs.internal.Reports.{IsReport};
ghost use Rattle.city_writer.specs.report.JsonLines.{AreJsonLines};
ghost use Rattle.city_writer.specs.report.Reports.{report_text};

use crate::report::write::seeded_report;
use city_model::OutOfMemory;
use city_model::end::End;
use std::alloc::Global;
use std::thread::{Threads, map_chunks};

/// The reports of the pieces, by a thread for each.
fn reports_of_pieces<R: Threads + Sync>(
    rt: &R,
    alloc: Global,
    seed: u64,
    ends: &[End],
    len: usize,
) -> Result<Vec<Option<Vec<u8>>>, OutOfMemory>
    requires { 0 < len }
    ensures { IfOk result (λ os. EachPiece len ends.now os.items (λ es report. IsReport es report.items)) }
{
    let report = move |_: usize, piece: &[End]| -> Option<Vec<u8>>
        ensures { IfSome result (λ report. IsReport piece.entry.now report.items) }
    { seeded_report(alloc, seed, piece).ok() };
    let reports = map_chunks(rt, alloc, ends, len, &report)?;
    Ok(reports)
}

/// The bytes, and after them the reports one after the other. A missing report means that memory ran out.
fn append_joined(bytes: Vec<u8>, reports: Vec<Option<Vec<u8>>>) -> Result<Vec<u8>, OutOfMemory>
    ensures text { IfOk result (λ b. b.items ≡ bytes.items ++ joined reports.items (λ report. report.items)) }
    ensures all { OnOk result (list_all is_some reports.items ≡ true) }
{
    let mut all = bytes;
    for report in reports {
        let Some(mut report) = report else {
            return Err(OutOfMemory);
        };
        all.append(&mut report)?;
    }
    Ok(all)
}

/// The bytes, and after them the report, as by `append_report`. Each thread writes `len` ends.
pub fn append_report_in_pieces<R: Threads + Sync>(
    rt: &R,
    alloc: Global,
    seed: u64,
    bytes: Vec<u8>,
    ends: &[End],
    len: usize,
) -> Result<Vec<u8>, OutOfMemory>
    requires { 0 < len }
    ensures text { IfOk result (λ b. b.items ≡ bytes.items ++ report_text ends.now) }
    ensures lines { AreJsonLines bytes.items → IfOk result (λ b. AreJsonLines b.items) }
{
    let reports = reports_of_pieces(rt, alloc, seed, ends, len)?;
    let report = append_joined(bytes, reports)?;
    Ok(report)
}
