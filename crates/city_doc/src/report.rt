//! Writes the report of a run, in pieces if it is long.
ghost use Rattle.std.specs.Prelude.{◌≡◌, ◌++◌, IfOk};
ghost use Rattle.city_writer.specs.report.JsonLines.{AreJsonLines};
ghost use Rattle.city_writer.specs.report.Reports.{report_text};

use crate::pieces::piece_len;
use city_model::OutOfMemory;
use city_model::end::End;
use city_texts::Pieces;
use city_writer::{append_report, append_report_in_pieces};
use std::alloc::Global;
use std::thread::Threads;

/// How many bytes of text an end counts as when a report is written in pieces.
const END_BYTES: usize = 128;

/// The bytes, and after them the report, as by `append_report`, written in pieces by so many threads. A report too
/// short for two pieces is written at once.
pub fn append_report_by<R: Threads + Sync>(
    rt: &R,
    alloc: Global,
    seed: u64,
    bytes: Vec<u8>,
    ends: &[End],
    pieces: Pieces,
) -> Result<Vec<u8>, OutOfMemory>
    ensures text { IfOk result (λ b. b.items ≡ bytes.items ++ report_text ends.now) }
    ensures lines { AreJsonLines bytes.items → IfOk result (λ b. AreJsonLines b.items) }
{
    let len = piece_len(ends.len(), END_BYTES, pieces);
    if ends.len() <= len {
        return append_report(alloc, seed, bytes, ends);
    }
    append_report_in_pieces(rt, alloc, seed, bytes, ends, len)
}
