//! Decodes an output in its own memory.
ghost use Rattle.std.specs.Prelude.{◌≡◌, ◌+◌, ◌≤◌, length, take, drop};
ghost use Rattle.city_decimals.specs.Lines.{IsDecodedOutput};
ghost use Rattle.city_decimals.specs.internal.Sections.{AreSections, HasNumbersAlone, IsDecodedTo, IsMoved};

use crate::compact::{NUMBER_BEGIN, NUMBER_END};
use crate::needle::{find, next_byte};
use crate::search::{FrameIndices, RARE_IN_TAG, TAG};

/// How many bytes move at once.
const BUFFER_SIZE: usize = 1024;

/// The decoded output, and the length of its report. `report` is that of the given one.
pub(crate) fn decode_in_place(
    output: Vec<u8>,
    report: usize,
    frame: &FrameIndices,
) -> (Vec<u8>, usize)
    requires { AreSections report output.items frame.now }
    ensures { IsDecodedOutput output.items report result.0.items result.1 }
{
    let mut output = output;
    let (lines, len) = decode_sections(output.as_mut_slice(), report, frame);
    output.truncate(len);
    (output, lines)
}

/// Decodes all sections to the front. Returns the length of the decoded report, and of all.
fn decode_sections(text: &mut [u8], report: usize, frame: &FrameIndices) -> (usize, usize)
    requires { AreSections report text.old frame.now }
    ensures within { result.1 ≤ length text.new }
    ensures decoded { IsDecodedOutput text.old report (take result.1 text.new) result.0 }
{
    let mut buffer = [0; BUFFER_SIZE];
    let len = text.len();
    let lines = decode_section(text, 0, 0, report, &mut buffer);
    let end = decode_section(text, report, lines, frame.begin - report, &mut buffer);
    let end = decode_section(
        text,
        frame.inside,
        end,
        frame.end - frame.inside,
        &mut buffer,
    );
    let end = decode_section(text, frame.behind, end, len - frame.behind, &mut buffer);
    (lines, end)
}

/// Decodes so many bytes to an index that isn't higher. Returns where they end. What stands behind
/// that, up to the old end, is lost.
fn decode_section(
    text: &mut [u8],
    from: usize,
    to: usize,
    count: usize,
    buffer: &mut [u8; BUFFER_SIZE],
) -> usize
    requires down { to ≤ from }
    requires within { from + count ≤ length text.old }
    requires numbers { HasNumbersAlone (take count (drop from text.old)) }
    ensures { IsDecodedTo text.old from to count text.new result }
{
    let mut at = from;
    let mut end = to;
    let mut left = count;
    while let Some(tag) = find(&text[at..at + left], TAG, RARE_IN_TAG) {
        let before = tag - 1;
        move_down(text, at, end, before, buffer);
        let number = at + before + NUMBER_BEGIN.len();
        let Some(len) = next_byte(&text[number..], b'"') else {
            unreachable!()
        };
        move_down(text, number, end + before, len, buffer);
        at = number + len + NUMBER_END.len();
        end += before + len;
        left -= before + NUMBER_BEGIN.len() + len + NUMBER_END.len();
    }
    move_down(text, at, end, left, buffer);
    end + left
}

/// Moves so many bytes to an index that isn't higher. What stood there is lost, and what stands
/// between both places.
fn move_down(text: &mut [u8], from: usize, to: usize, count: usize, buffer: &mut [u8; BUFFER_SIZE])
    requires down { to ≤ from }
    requires within { from + count ≤ length text.old }
    ensures { IsMoved text.old from to count text.new }
{
    if from == to {
        return;
    }
    let mut done = 0;
    while done < count {
        let size = (count - done).min(BUFFER_SIZE);
        buffer[..size].copy_from_slice(&text[from + done..from + done + size]);
        text[to + done..to + done + size].copy_from_slice(&buffer[..size]);
        done += size;
    }
}
