//! Writes a city.
ghost use Rattle.std.specs.Prelude.{◌≡◌, ◌≤◌, ◌++◌, ℕ, List, IfOk};
ghost use Rattle.json.specs.Lex.{tokens};
ghost use Rattle.serde_json.specs.Data.{depth};
ghost use Rattle.serde_json.specs.Read.{max_depth};
ghost use Rattle.city_model.specs.CityMap.{object_at, CityValue};
ghost use Rattle.city_model.specs.Relations.{IsLawful};
ghost use Rattle.city_doc.specs.document.Accepted.{IsAccepted};
ghost use Rattle.city_writer.specs.document.Canonical.{tree_of, city_text};
ghost use Rattle.city_doc.specs.document.CanonicalTexts.{IsCanonicalText};
ghost use Rattle.city_tokens.specs.document.Cities.{IsTextOfCity};
ghost use Rattle.city_writer.specs.document.Ranges.{IsInRange};
ghost use Rattle.city_writer.specs.report.JsonLines.{IsCompactJson};
ghost use Rattle.city_tokens.specs.tree.Texts.{IsReadable};
ghost use Rattle.city_writer.specs.tree.Tokens.{tokens_of};
ghost use Rattle.city_writer.specs.Pool.{pool_of};

use crate::pieces::piece_len;
use city_model::OutOfMemory;
use city_model::city::City;
use city_texts::Pieces;
use city_writer::{FIXED_SEED, append_in_pieces, append_text};
use std::alloc::Global;
use std::thread::Threads;

/// How many bytes of text an object counts as when a city is written in pieces.
const OBJECT_BYTES: usize = 1024;

/// The canonical text of a city, without a newline.
///
/// The text is JSON and stands for the same city, unless kept members nest so deep that the text has more
/// than the 127 levels of the reader. Those of a city read from a text don't. Any city read from the text is
/// written as the same bytes again. The text of a lawful city has no fault unless it is too long.
pub fn write_city(alloc: Global, city: &City) -> Result<Vec<u8>, OutOfMemory>
    ensures text { IfOk result (λ b. b.items ≡ city_text city.now) }
    ensures read_again { IfOk result (λ b. depth (tree_of city.now) ≤ max_depth
        → IsTextOfCity b.items city.now) }
    ensures canonical { IfOk result (λ b. depth (tree_of city.now) ≤ max_depth
        → (other : CityValue) → IsTextOfCity b.items other → city_text other ≡ b.items) }
    ensures accepted { IfOk result (λ b. depth (tree_of city.now) ≤ max_depth
        → IsReadable b.items → IsLawful (object_at city.now.1) → IsAccepted b.items) }
    ensures rewritten { IfOk result (λ b. (text : List ℕ) → IsTextOfCity text city.now
        → IsTextOfCity b.items city.now) }
    ensures tokens { IfOk result (λ b. tokens b.items ≡ tokens_of (tree_of city.now)) }
    ensures in_range { IfOk result (λ _. IsInRange (pool_of city.now) city.now.0) }
{
    let text = append_city(alloc, FIXED_SEED, Vec::new(alloc), city)?;
    Ok(text)
}

/// The bytes, and after them the canonical text of a city, without a newline.
///
/// The text is that of `write_city`, with the same promises. Points are hashed by the seed.
#[tactic(auto, using(crate::proofs::document::CanonicalCities::city_canonical))]
pub fn append_city(
    alloc: Global,
    seed: u64,
    bytes: Vec<u8>,
    city: &City,
) -> Result<Vec<u8>, OutOfMemory>
    ensures text { IfOk result (λ b. b.items ≡ bytes.items ++ city_text city.now) }
    ensures canonical { IfOk result (λ _. IsCanonicalText (city_text city.now) city.now) }
    ensures json { IfOk result (λ _. IsCompactJson (city_text city.now)) }
{
    let text = append_text(alloc, seed, bytes, city)?;
    Ok(text)
}

/// The bytes, and after them the canonical text of a city, without a newline.
///
/// The text is that of `append_city`, written in pieces by so many threads. A city too small for two pieces is written
/// at once.
#[tactic(auto, using(crate::proofs::document::CanonicalCities::city_canonical))]
pub fn append_city_by<R: Threads + Sync>(
    rt: &R,
    alloc: Global,
    seed: u64,
    bytes: Vec<u8>,
    city: &City,
    pieces: Pieces,
) -> Result<Vec<u8>, OutOfMemory>
    ensures text { IfOk result (λ b. b.items ≡ bytes.items ++ city_text city.now) }
    ensures canonical { IfOk result (λ _. IsCanonicalText (city_text city.now) city.now) }
    ensures json { IfOk result (λ _. IsCompactJson (city_text city.now)) }
{
    let len = piece_len(city.len(), OBJECT_BYTES, pieces);
    if city.len() <= len {
        return append_city(alloc, seed, bytes, city);
    }
    let text = append_in_pieces(rt, alloc, seed, bytes, city, len)?;
    Ok(text)
}
