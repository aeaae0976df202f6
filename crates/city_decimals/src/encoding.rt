//! Encodes a text as one of whole numbers.
ghost use Rattle.std.specs.Prelude.{◌≡◌, ◌≤◌, true, IfOk, IfErr, ℕ, List, Some};
ghost use Rattle.std.specs.Str.{IsUtf8};
ghost use Rattle.json.specs.Json.{Json, document};
ghost use Rattle.json.specs.Tree.{depth};
ghost use Rattle.serde_json.specs.Data.{Data};
ghost use Rattle.serde_json.specs.Read.{read, max_depth};
ghost use Rattle.city_decimals.specs.Texts.{IsEncoded, IsDecoded, IsDecimalsFault};
ghost use Rattle.city_decimals.specs.Whole.{is_integral};

mod form;
mod member;
mod number;
mod tree;

use crate::direction::Direction;
use crate::fault::DecimalsFault;
use crate::transcode::transcode_onto;
use json::{MAX_DEPTH, Scratch};
pub(crate) use member::encode_member_tree;
pub(crate) use number::encode_number;
use std::alloc::Global;
pub(crate) use tree::encode_tree;

/// The bytes that a frame adds, and some more: a text of whole numbers grows by no others.
const FRAME_ROOM: usize = 64;

/// Returns the text in one line, each number other than an `i64` as a text under `#`. A text or an
/// array under `#` is shielded; under `attributes`, so are such a number and an array like its
/// shield. A `transform` at the top is framed.
pub fn encode(alloc: Global, bytes: &[u8]) -> Result<Vec<u8>, DecimalsFault>
    ensures encoded { IfOk result (λ out. IsEncoded bytes.now out.items) }

    // Decoded again it has the value of the text itself: not a digit is lost.
    ensures lossless { IfOk result (λ out. (back : List ℕ)
        → IsDecoded out.items back → document back ≡ document bytes.now) }

    // The editor finds only whole numbers in it.
    ensures whole { IfOk result (λ out. (d : Data)
        → read out.items ≡ Some d → is_integral d ≡ true) }

    // If it nests no deeper than the editor reads, it is read.
    ensures read { IfOk result (λ out. (c : Json) → document out.items ≡ Some c
        → depth c ≤ max_depth → (d : Data) × (read out.items ≡ Some d)) }
    ensures utf8 { IfOk result (λ out. IsUtf8 out.items) }
    ensures fault { IfErr result (λ f. IsDecimalsFault bytes.now f) }
{
    let mut scratch = Scratch::new(alloc);
    let out = Vec::with_capacity(alloc, bytes.len().saturating_add(FRAME_ROOM))?;
    transcode_onto(
        alloc,
        Direction::Encode,
        bytes,
        MAX_DEPTH,
        &mut scratch,
        out,
    )
}
