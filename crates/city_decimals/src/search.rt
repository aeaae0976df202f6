//! Finds by searches what is decoded of printed texts: nearly all bytes are passed unread.
ghost use Rattle.std.specs.Prelude.{◌≡◌, ◌≤◌, true, length, take, drop, IfSome};
ghost use Rattle.json.specs.Print.{IsNumber};
ghost use Rattle.city_decimals.specs.Lines.{HasPrintedLines, IsPrintedModel};
ghost use Rattle.city_decimals.specs.internal.Found.{IsNumberAt};
ghost use Rattle.city_decimals.specs.internal.Needles.{Lacks, attributes_array};
ghost use Rattle.city_decimals.specs.internal.Sections.{AreSections, HasNumbersAlone, IsFrameOf};

use crate::compact::{FRAME_END, NUMBER_BEGIN, NUMBER_END};
use crate::copier::{begins_with, number_end};
use crate::needle::{find, lacks, only_place};
use crate::numbers::is_number;
use crate::text::text_of;

/// The tag as a name.
pub(crate) const TAG: &[u8] = b"\"#\":";

/// The name of the attributes, with an array, which may be a shield.
const ATTRIBUTES_ARRAY: &[u8] = b"\"attributes\":[";

/// The name of the transform, without and with the beginning of its frame.
const TRANSFORM: &[u8] = b"\"transform\":";

const FRAMED_TRANSFORM: &[u8] = b"\"transform\":{\"#\":";

/// The indices of `#` in the tag and in the name of the transform, of `b` in that of the attributes,
/// and of `c` in a frame's end: each is the rarest byte.
pub(crate) const RARE_IN_TAG: usize = 1;

const RARE_IN_TRANSFORM: usize = 14;

const RARE_IN_ATTRIBUTES: usize = 6;

const RARE_IN_FRAME_END: usize = 3;

/// What begins the frame of a transform in an output, and what ends it, as indices. Without a frame
/// all are the length of the output.
#[derive(Drop)]
pub(crate) struct FrameIndices {
    /// Where the frame begins, and the transform in it.
    pub(crate) begin: usize,
    pub(crate) inside: usize,
    /// Where the transform ends, and the frame.
    pub(crate) end: usize,
    pub(crate) behind: usize,
}

/// The frame of a printed output that can be decoded in its own memory; its report is the first
/// `report` bytes. `None` for a form not known here.
pub(crate) fn find_sections(output: &[u8], report: usize, is_framed: bool) -> Option<FrameIndices>
    requires within { report ≤ length output.now }
    requires lines { HasPrintedLines (take report output.now) }
    requires model { IsPrintedModel is_framed (drop report output.now) }
    ensures { IfSome result (AreSections report output.now) }
{
    if !lacks(output, ATTRIBUTES_ARRAY, RARE_IN_ATTRIBUTES) {
        return None;
    }
    let frame = find_frame(output, report, is_framed)?;
    if has_numbers_alone(&output[..report])
        && has_numbers_alone(&output[report..frame.begin])
        && has_numbers_alone(&output[frame.inside..frame.end])
        && has_numbers_alone(&output[frame.behind..])
    {
        Some(frame)
    } else {
        None
    }
}

/// The frame of the transform, if there has to be one.
fn find_frame(output: &[u8], report: usize, is_framed: bool) -> Option<FrameIndices>
    requires within { report ≤ length output.now }
    requires model { IsPrintedModel is_framed (drop report output.now) }
    requires plain { Lacks attributes_array (drop report output.now) }
    ensures { IfSome result (IsFrameOf report output.now) }
{
    if !is_framed {
        let len = output.len();
        return Some(FrameIndices {
            begin: len,
            inside: len,
            end: len,
            behind: len,
        });
    }
    let model = &output[report..];
    let at = only_place(model, FRAMED_TRANSFORM, RARE_IN_TRANSFORM)?;
    let rest = &model[at + FRAMED_TRANSFORM.len()..];
    let len = only_place(rest, FRAME_END, RARE_IN_FRAME_END)?;
    let inside = report + at + FRAMED_TRANSFORM.len();
    Some(FrameIndices {
        begin: report + at + TRANSFORM.len(),
        inside,
        end: inside + len,
        behind: inside + len + FRAME_END.len(),
    })
}

/// Whether the tag stands only in encoded numbers.
fn has_numbers_alone(text: &[u8]) -> bool
    ensures { result ≡ true → HasNumbersAlone text.now }
{
    let mut rest = text;
    while let Some(at) = find(rest, TAG, RARE_IN_TAG) {
        let Some(behind) = behind_number(rest, at) else {
            return false;
        };
        rest = behind;
    }
    true
}

/// What stands behind the encoded number with its tag at this index.
fn behind_number(text: &[u8], at: usize) -> Option<&[u8]>
    requires { at ≤ length text.now }
    ensures { IfSome result (λ r. IsNumberAt text.now at r.now) }
{
    if at == 0 {
        return None;
    }
    let encoded = &text[at - 1..];
    if !begins_with(encoded, NUMBER_BEGIN) {
        return None;
    }
    let inside = &encoded[NUMBER_BEGIN.len()..];
    let (number, end) = inside.split_at(number_end(inside));
    if !begins_with(end, NUMBER_END) || !is_number_text(number) {
        return None;
    }
    Some(&end[NUMBER_END.len()..])
}

/// Whether the bytes are a number of JSON.
fn is_number_text(bytes: &[u8]) -> bool
    ensures { result ≡ true → IsNumber bytes.now }
{
    match text_of(bytes) {
        Ok(text) => is_number(text),
        Err(_) => false,
    }
}
