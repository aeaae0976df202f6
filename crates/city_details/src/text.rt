//! Diagnostics of texts in general.
mod expected;
pub mod form;
mod fraction;
mod numeral;

use crate::diagnostic::Diagnostic;
use crate::path::path_text;
use crate::text::expected::expected_in;
use crate::text::form::TextForm;
use crate::text::fraction::path_to_fraction;
use crate::text::numeral::numeral_at;
use crate::tree::tree_of;
use city_model::OutOfMemory;
use serde_json::{Error, Value};
use std::alloc::Global;
use std::fmt::Write;

const SPLIT: &str = "Split it into smaller texts.";

const REPAIR: &str = "Repair the text: JSON in UTF-8 that nests no deeper than 127.";

const RESTORE: &str =
    "Restore it, and name the output by --output: a redirect onto the model empties it first.";

const WITHOUT_MARK: &str = "Save it in UTF-8 without a byte order mark.";

const DECOMPRESS: &str = "Decompress it first, as gunzip does.";

/// What to do about a line of CityJSONSeq.
pub const COLLECT: &str = "Make one CityJSON document of the sequence, as `cjseq collect` does.";

const AS_UTF8: &str = "Save it in UTF-8.";

const DECIMALS: &str = "Give --decimals, which takes numbers of any form and keeps their digits.";

const NO_WHOLE: &str = "A number isn't a whole number of 64 bits.";

/// Longest number shown in a message.
const SHOWN: usize = 40;

/// A fault of a text without a tree of whole numbers.
#[derive(Clone, Copy, PartialEq, Eq)]
pub enum TextFault {
    TooLong,
    NotJson,
    NotWhole,
}

/// Returns the diagnostic of such a fault. An encoded text isn't the given one: its line and column aren't told.
pub fn text_diagnostic(
    alloc: Global,
    text: &[u8],
    is_given: bool,
    fault: TextFault,
) -> Result<Diagnostic, OutOfMemory> {
    let mut diagnostic = Diagnostic::new(alloc);
    match fault {
        TextFault::TooLong => {
            diagnostic.tell("The text has more than 67,108,864 bytes.", SPLIT)?;
        }
        TextFault::NotJson => match TextForm::of(alloc, text)? {
            Some(form) => tell_form(form, &mut diagnostic)?,
            None => tell_not_json(alloc, text, is_given, &mut diagnostic)?,
        },
        TextFault::NotWhole => tell_fraction(alloc, text, &mut diagnostic)?,
    }
    Ok(diagnostic)
}

/// Tells the form of a text in place of JSON.
fn tell_form(form: TextForm, diagnostic: &mut Diagnostic) -> Result<(), OutOfMemory> {
    diagnostic.details.text("form", form.name())?;
    let (message, cure) = match form {
        TextForm::Empty => ("The text is empty.", RESTORE),
        TextForm::ByteOrderMark => (
            "The text begins with a byte order mark, which isn't JSON.",
            WITHOUT_MARK,
        ),
        TextForm::Gzip => ("The text is compressed by gzip.", DECOMPRESS),
        TextForm::CityJsonSeq => (
            "The text is CityJSONSeq, which has a JSON text in each line.",
            COLLECT,
        ),
        TextForm::Utf16 => ("The text is in UTF-16, and JSON is read in UTF-8.", AS_UTF8),
    };
    diagnostic.tell(message, cure)
}

/// Says why a text isn't JSON, and the place of the first error.
fn tell_not_json(
    alloc: Global,
    text: &[u8],
    is_given: bool,
    diagnostic: &mut Diagnostic,
) -> Result<(), OutOfMemory> {
    match Value::from_slice(alloc, text) {
        Ok(_tree) => diagnostic.tell("The text isn't JSON.", REPAIR),
        Err(error) if error.is_memory() => Err(OutOfMemory),
        Err(error) => tell_error(alloc, text, &error, is_given, diagnostic),
    }
}

/// Tells an error of the reader of JSON.
fn tell_error(
    alloc: Global,
    text: &[u8],
    error: &Error,
    is_given: bool,
    diagnostic: &mut Diagnostic,
) -> Result<(), OutOfMemory> {
    if is_given {
        narrow_to_error(error, diagnostic)?;
    }
    let shown = error.to_string(alloc)?;
    let (reason, _) = shown
        .as_str()
        .split_once(" at line ")
        .unwrap_or((shown.as_str(), ""));
    if reason == "number out of range" {
        let message = "The text can't be read: a number in it is too large.";
        return tell_reason(reason, message, diagnostic);
    }
    if error.is_eof() {
        return tell_reason(
            reason,
            "The text isn't JSON: it ends too early.",
            diagnostic,
        );
    }
    match expected_in(alloc, text)? {
        None => tell_reason(reason, "The text isn't JSON.", diagnostic),
        Some(expected) => {
            let words = expected.words();
            diagnostic.details.text("reason", words)?;
            write!(diagnostic.told(REPAIR), "The text isn't JSON: {words}.")?;
            Ok(())
        }
    }
}

/// Tells an error in these words, with the reader's reason.
fn tell_reason(
    reason: &str,
    message: &str,
    diagnostic: &mut Diagnostic,
) -> Result<(), OutOfMemory> {
    diagnostic.details.text("reason", reason)?;
    diagnostic.tell(message, REPAIR)
}

/// Narrows the place to an error's line and column, if it has them.
fn narrow_to_error(error: &Error, diagnostic: &mut Diagnostic) -> Result<(), OutOfMemory> {
    let (line, column) = (error.line(), error.column());
    if line > 0 {
        diagnostic.details.number("line", line)?;
        diagnostic.details.number("column", column)?;
        write!(diagnostic.narrowed()?, "line {line}, column {column}")?;
    }
    Ok(())
}

/// Tells the first number outside the whole numbers of 64 bits, and its path.
fn tell_fraction(
    alloc: Global,
    text: &[u8],
    diagnostic: &mut Diagnostic,
) -> Result<(), OutOfMemory> {
    let tree = tree_of(alloc, text)?;
    let steps = path_to_fraction(alloc, &tree)?;
    let path = path_text(alloc, steps.as_slice())?;
    diagnostic.details.text("path", path.as_str())?;
    diagnostic.narrowed()?.push_str(path.as_str())?;
    match numeral_at(alloc, text, steps.as_slice())? {
        Some(value) => tell_numeral(value.as_str(), diagnostic),
        None => diagnostic.tell(NO_WHOLE, DECIMALS),
    }
}

/// Tells such a number, as written in the text.
fn tell_numeral(value: &str, diagnostic: &mut Diagnostic) -> Result<(), OutOfMemory> {
    diagnostic.details.text("value", value)?;
    if value.len() > SHOWN {
        return diagnostic.tell(NO_WHOLE, DECIMALS);
    }
    write!(
        diagnostic.told(DECIMALS),
        "The number {value} isn't a whole number of 64 bits."
    )?;
    Ok(())
}
