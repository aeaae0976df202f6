//! What is told of a refused command, as a JSON text.
ghost use Rattle.std.specs.Prelude.{IfOk, string_bytes};
ghost use Rattle.city_details.specs.Why.{IsWhy};

use crate::diagnostic::Diagnostic;
use crate::refusal::{Refusal, Sight, refusal_diagnostic};
use city_model::OutOfMemory;
use serde_json::Value;
use std::alloc::Global;

/// Returns what is told of a refused command: the compact text of a JSON object with `message` and `cure`, mostly with
/// `place`, and with the details of its cause.
pub fn why<S: Sight>(
    alloc: Global,
    refusal: Refusal<'_, '_>,
    sight: &S,
) -> Result<String, OutOfMemory>
    ensures { IfOk result (λ text. IsWhy (string_bytes text)) }
{
    let diagnostic = refusal_diagnostic(alloc, None, refusal, sight)?;
    let text = text_of(alloc, diagnostic)?;
    Ok(text)
}

/// The text of a diagnostic.
fn text_of(alloc: Global, diagnostic: Diagnostic) -> Result<String, OutOfMemory>
    ensures { IfOk result (λ text. IsWhy (string_bytes text)) }
{
    let placed = with_place(diagnostic)?;
    let details = placed.into_details()?;
    let text = Value::Object(details.into_members()).to_string(alloc)?;
    Ok(text)
}

/// The diagnostic, its place among the details if it has one.
fn with_place(diagnostic: Diagnostic) -> Result<Diagnostic, OutOfMemory> {
    let Diagnostic {
        place,
        message,
        cure,
        mut details,
    } = diagnostic;
    if !place.is_empty() {
        details.text("place", place.as_str())?;
    }
    Ok(Diagnostic {
        place,
        message,
        cure,
        details,
    })
}
