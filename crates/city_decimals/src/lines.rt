//! Decodes printed lines: a report and a model.
ghost use Rattle.std.specs.Prelude.{◌≡◌, ◌++◌, ◌≤◌, ℕ, List, IfOk, length, take, drop};
ghost use Rattle.json.specs.Json.{Json};
ghost use Rattle.city_decimals.specs.Lines.{HasPrintedLines, IsDecodedLine, IsDecodedOutput, IsPrinted};
ghost use Rattle.city_decimals.specs.Lines.{IsPrintedModel};
ghost use Rattle.city_decimals.specs.internal.Newlines.{IsFirstNewline};
ghost use Rattle.city_decimals.specs.internal.Sections.{AreDecodedBehind};

use crate::OutOfMemory;
use crate::direction::Direction;
use crate::fault::DecimalsFault;
use crate::in_place::decode_in_place;
use crate::search::find_sections;
use crate::transcode::transcode_onto;
use json::Scratch;
use memchr::memchr;
use std::alloc::Global;

/// Decodes each line of an output, mostly in its own memory: a report, which is its first `report`
/// bytes, and a model in one line, with a framed transform if `is_framed`. Each line is the compact
/// text of a value. Returns the output and the number of bytes of its report.
///
/// The stack has to be enough for the nesting of the lines.
pub fn decode_lines(
    alloc: Global,
    output: Vec<u8>,
    report: usize,
    is_framed: bool,
) -> Result<(Vec<u8>, usize), OutOfMemory>
    requires within { report ≤ length output.items }
    requires lines { HasPrintedLines (take report output.items) }
    requires model { IsPrintedModel is_framed (drop report output.items) }
    ensures { IfOk result (λ r. IsDecodedOutput output.items report r.0.items r.1) }
{
    if let Some(frame) = find_sections(output.as_slice(), report, is_framed) {
        return Ok(decode_in_place(output, report, &frame));
    }
    let (lines, model) = output.as_slice().split_at(report);
    let mut out = Vec::with_capacity(alloc, output.len())?;
    out = append_decoded(alloc, lines, out)?;
    let decoded = out.len();
    out = append_decoded(alloc, model, out)?;
    Ok((out, decoded))
}

/// Appends the text to the buffer, each line decoded.
fn append_decoded(alloc: Global, text: &[u8], buffer: Vec<u8>) -> Result<Vec<u8>, OutOfMemory>
    requires { HasPrintedLines text.now }
    ensures { IfOk result (λ v. AreDecodedBehind buffer.items text.now v.items) }
{
    let mut scratch = Scratch::new(alloc);
    let mut out = buffer;
    let mut rest = text;
    while let Some(at) = first_newline(rest) {
        out = append_line(alloc, &rest[..at], &mut scratch, out)?;
        out.extend_from_slice(b"\n")?;
        rest = &rest[at + 1..];
    }
    Ok(out)
}

/// Appends the decoded line to the buffer.
fn append_line(
    alloc: Global,
    line: &[u8],
    scratch: &mut Scratch,
    out: Vec<u8>,
) -> Result<Vec<u8>, OutOfMemory>
    requires { (j : Json) × IsPrinted j line.now }
    ensures { IfOk result (λ v. (made : List ℕ) × IsDecodedLine line.now made × (v.items ≡ out.items ++ made)) }
{
    // No line nests deeper than it is long.
    match transcode_onto(alloc, Direction::Decode, line, line.len(), scratch, out) {
        Ok(decoded) => Ok(decoded),
        Err(DecimalsFault::OutOfMemory) => Err(OutOfMemory),
        Err(DecimalsFault::NotJson) => unreachable!(),
    }
}

/// The index of the first newline.
fn first_newline(bytes: &[u8]) -> Option<usize>
    ensures { IsFirstNewline bytes.now result }
{
    memchr(b'\n', bytes)
}
