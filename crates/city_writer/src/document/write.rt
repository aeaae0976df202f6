//! Writes a city.
ghost use Rattle.std.specs.Prelude.{◌≡◌, ◌++◌, IfOk};
ghost use Rattle.city_writer.specs.document.Canonical.{city_text};
ghost use Rattle.city_writer.specs.document.Texts.{IsTextOf};
ghost use Rattle.city_writer.specs.report.JsonLines.{IsCompactJson};

use crate::document::text::write_members;
use city_model::OutOfMemory;
use city_model::city::City;
use json::Writer;
use std::alloc::Global;

/// The bytes, and after them the canonical text of a city, without a newline. Points are hashed by the seed.
pub fn append_text(
    alloc: Global,
    seed: u64,
    bytes: Vec<u8>,
    city: &City,
) -> Result<Vec<u8>, OutOfMemory>
    ensures text { IfOk result (λ b. b.items ≡ bytes.items ++ city_text city.now) }
    ensures written { IfOk result (λ _. IsTextOf (city_text city.now) city.now) }
    ensures json { IfOk result (λ _. IsCompactJson (city_text city.now)) }
{
    let mut out = Writer::new(bytes);
    write_members(alloc, seed, city, &mut out)?;
    let bytes = out.into_inner();
    Ok(bytes)
}
