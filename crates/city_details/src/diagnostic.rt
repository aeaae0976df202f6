//! The diagnostic of one fault.
ghost use Rattle.std.specs.Prelude.{◌≡◌, IfOk, string_bytes};
ghost use Rattle.city_details.specs.Why.{words_or, worded};

use crate::details::Details;
use city_model::OutOfMemory;
use std::alloc::Global;

/// Told of a fault without a message, and without a cure.
const FAULT: &str = "It isn't as it should be.";

const CURE: &str = "Correct it, or leave it out.";

/// The place of a fault, a message, a cure, and further details.
#[derive(Drop)]
pub struct Diagnostic {
    /// In words such as `object "b12", geometry 0`; empty for a fault without a place.
    pub place: String,
    /// A sentence on the fault.
    pub message: String,
    /// A sentence on its repair.
    pub cure: &'static str,
    pub details: Details,
}

impl Diagnostic {
    /// An empty diagnostic.
    pub fn new(alloc: Global) -> Diagnostic {
        Diagnostic {
            place: String::new(alloc),
            message: String::new(alloc),
            cure: "",
            details: Details::new(alloc),
        }
    }

    /// The details, with the message and the cure over them. Neither is empty.
    pub fn into_details(self) -> Result<Details, OutOfMemory>
        ensures { IfOk result (λ details. details
            ≡ worded (string_bytes self.message) self.cure.now self.details) }
    {
        let Diagnostic {
            place: _,
            message,
            cure,
            mut details,
        } = self;
        details.text("message", words_or(FAULT, message.as_str()))?;
        details.text("cure", words_or(CURE, cure))?;
        Ok(details)
    }

    /// Returns the place, ready for narrower words: earlier words now end with a comma.
    pub(crate) fn narrowed(&mut self) -> Result<&mut String, OutOfMemory> {
        if !self.place.is_empty() {
            self.place.push_str(", ")?;
        }
        Ok(&mut self.place)
    }

    /// Sets the message and the cure.
    pub(crate) fn tell(&mut self, message: &str, cure: &'static str) -> Result<(), OutOfMemory> {
        self.told(cure).push_str(message)?;
        Ok(())
    }

    /// Sets the cure, and returns the message, ready for its words.
    pub(crate) fn told(&mut self, cure: &'static str) -> &mut String {
        self.cure = cure;
        &mut self.message
    }
}

/// These words, or others if there are none.
fn words_or<'w>(others: &'w str, words: &'w str) -> &'w str
    ensures { result.now ≡ words_or others.now words.now }
{
    if words.is_empty() { others } else { words }
}
