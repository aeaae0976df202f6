//! The canonical form of a model.
ghost use Rattle.std.specs.Prelude.{◌≡◌, IfOk, IfErr};
ghost use Rattle.city_canonical.specs.Texts.{IsSameText, IsCanonicalOf, IsCanonicalFault};

use crate::fault::CanonicalFault;
use city_decimals::{decode, encode};
use city_doc::{read_city, write_city};
use std::alloc::Global;

/// Writes the canonical form of a model, in one line: the same model, its names in order, each
/// number exactly as written.
pub fn canonical(alloc: Global, bytes: &[u8]) -> Result<Vec<u8>, CanonicalFault>
    // The value is the text's, up to the changes of the canonical form.
    ensures same { IfOk result (λ out. IsSameText bytes.now out.items) }
    ensures canonical { IfOk result (λ out. IsCanonicalOf bytes.now out.items) }
    ensures fault { IfErr result (λ f. IsCanonicalFault bytes.now f) }
{
    let encoded = encode(alloc, bytes)?;
    let city = read_city(alloc, encoded.as_slice())?;
    let written = write_city(alloc, &city)?;
    let out = decode(alloc, written.as_slice())?;
    Ok(out)
}
