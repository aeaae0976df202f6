//! Encodes or decodes whole texts.
ghost use Rattle.std.specs.Prelude.{◌≡◌, ◌++◌, IfOk, IfErr, ℕ, List};
ghost use Rattle.std.specs.Str.{IsUtf8};
ghost use Rattle.city_decimals.specs.Texts.{IsFaultTo};
ghost use Rattle.city_decimals.specs.internal.Changes.{IsChanged};

mod attributes;
mod value;

use crate::compact::copy_compact;
use crate::direction::Direction;
use crate::fault::DecimalsFault;
use crate::text::{text_of, without_newline};
use json::{Reader, Scratch, Writer};
use std::alloc::Global;
use value::transcode_top;

/// Appends the changed text to the buffer. Arrays and objects of the text may nest `depth` deep.
pub(crate) fn transcode_onto(
    alloc: Global,
    way: Direction,
    bytes: &[u8],
    depth: usize,
    scratch: &mut Scratch,
    out: Vec<u8>,
) -> Result<Vec<u8>, DecimalsFault>
    ensures changed { IfOk result (λ v. (text : List ℕ)
        × IsChanged depth way bytes.now text × IsUtf8 text × (v.items ≡ out.items ++ text)) }
    ensures fault { IfErr result (λ f. IsFaultTo depth bytes.now f) }
{
    let text = text_of(bytes)?;
    let out = match copy_compact(way, without_newline(text), depth, out) {
        Ok(changed) => return Ok(changed),
        Err(out) => out,
    };
    let mut reader = Reader::new(text, scratch)?;
    let mut writer = Writer::new(out);
    transcode_top(alloc, way, &mut reader, depth, &mut writer)?;
    if reader.next().is_some() {
        return Err(DecimalsFault::NotJson);
    }
    Ok(writer.into_inner())
}
