//! Whole models.
ghost use Rattle.std.specs.Prelude.{◌≡◌, ◌++◌, [], ◌∷◌, decimal, IfOk, Some, codes};
ghost use Rattle.json.specs.Print.{print};
ghost use Rattle.json.specs.Token.{end_object, key, number};
ghost use Rattle.city_writer.specs.document.Canonical.{city_text};
ghost use Rattle.city_lines.specs.Answers.{line_front, model_text};

use crate::front::{begun, ended, write_number};
use city_live::Tag;
use city_model::OutOfMemory;
use city_model::city::City;
use city_writer::append_text;
use json::Writer;
use std::alloc::Global;

/// The bytes, and behind them the answer with a model whose text is written already, at this version.
pub fn append_model(
    hand: &str,
    tag: &Tag,
    version: u64,
    model: &[u8],
    bytes: Vec<u8>,
) -> Result<Vec<u8>, OutOfMemory>
    ensures { IfOk result (λ b. b.items ≡ bytes.items
        ++ model_text hand.now tag.now version model.now) }
{
    let mut bytes = before_model(hand, tag, bytes)?;
    bytes.extend_from_slice(model)?;
    let line = behind_model(version, bytes)?;
    Ok(line)
}

/// The same with the canonical text of a city. Points are hashed by the seed.
pub fn append_city(
    alloc: Global,
    seed: u64,
    hand: &str,
    tag: &Tag,
    version: u64,
    city: &City,
    bytes: Vec<u8>,
) -> Result<Vec<u8>, OutOfMemory>
    ensures { IfOk result (λ b. b.items ≡ bytes.items
        ++ model_text hand.now tag.now version (city_text city.now)) }
{
    let bytes = before_model(hand, tag, bytes)?;
    let bytes = append_text(alloc, seed, bytes, city)?;
    let line = behind_model(version, bytes)?;
    Ok(line)
}

/// The beginning of such an answer.
fn before_model(hand: &str, tag: &Tag, bytes: Vec<u8>) -> Result<Vec<u8>, OutOfMemory>
    ensures { IfOk result (λ b. b.items ≡ bytes.items
        ++ line_front (Some hand.now) tag.now (key (codes "model") ∷ [])) }
{
    let mut out = begun(Some(hand), tag, bytes)?;
    out.key("model")?;
    Ok(out.into_inner())
}

/// What follows the model.
fn behind_model(version: u64, bytes: Vec<u8>) -> Result<Vec<u8>, OutOfMemory>
    ensures { IfOk result (λ b. b.items ≡ bytes.items
        ++ (44 ∷ (print (key (codes "version") ∷ number (decimal version) ∷ end_object ∷ []) ++ 10 ∷ []))) }
{
    let mut bytes = bytes;
    bytes.push(b',')?;
    let mut out = Writer::new(bytes);
    write_number("version", version, &mut out)?;
    let line = ended(out)?;
    Ok(line)
}
