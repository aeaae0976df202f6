//! Decodes an encoded text.
ghost use Rattle.std.specs.Prelude.{IfOk, IfErr};
ghost use Rattle.std.specs.Str.{IsUtf8};
ghost use Rattle.city_decimals.specs.Texts.{IsDecoded, IsDecimalsFault};

mod first;
mod inner;
mod member;
mod tree;

use crate::direction::Direction;
use crate::fault::DecimalsFault;
use crate::transcode::transcode_onto;
pub(crate) use first::decode_first_member;
use json::{MAX_DEPTH, Scratch};
pub(crate) use member::decode_member_tree;
use std::alloc::Global;
pub(crate) use tree::decode_tree;

/// Returns the text in one line, its numbers as before `encode`, without shields and frames.
pub fn decode(alloc: Global, bytes: &[u8]) -> Result<Vec<u8>, DecimalsFault>
    ensures decoded { IfOk result (λ out. IsDecoded bytes.now out.items) }
    ensures utf8 { IfOk result (λ out. IsUtf8 out.items) }
    ensures fault { IfErr result (λ f. IsDecimalsFault bytes.now f) }
{
    let mut scratch = Scratch::new(alloc);
    let out = Vec::with_capacity(alloc, bytes.len())?;
    transcode_onto(
        alloc,
        Direction::Decode,
        bytes,
        MAX_DEPTH,
        &mut scratch,
        out,
    )
}
