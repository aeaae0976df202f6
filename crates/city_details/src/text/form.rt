//! Forms of texts other than JSON.
use crate::tree::tree_of;
use city_model::OutOfMemory;
use serde_json::Value;
use std::alloc::Global;

/// The type of a line of CityJSONSeq.
pub const FEATURE: &str = "CityJSONFeature";

/// A form of text other than JSON, more telling than the place of the first error.
#[derive(Clone, Copy, PartialEq, Eq)]
pub enum TextForm {
    /// No byte but white space.
    Empty,
    /// Begins with the byte order mark of UTF-8.
    ByteOrderMark,
    Utf16,
    Gzip,
    /// One of its first two lines is a CityJSONFeature.
    CityJsonSeq,
}

impl TextForm {
    /// The form of a text that isn't JSON, if it has one of these. Fails only when out of memory.
    pub fn of(alloc: Global, text: &[u8]) -> Result<Option<TextForm>, OutOfMemory> {
        match TextForm::by_bytes(text) {
            None if is_sequence(alloc, text)? => Ok(Some(TextForm::CityJsonSeq)),
            form => Ok(form),
        }
    }

    fn by_bytes(text: &[u8]) -> Option<TextForm> {
        if text.iter().all(|byte| is_space(*byte)) {
            return Some(TextForm::Empty);
        }
        match text {
            [0xef, 0xbb, 0xbf, ..] => Some(TextForm::ByteOrderMark),
            [0x1f, 0x8b, ..] => Some(TextForm::Gzip),
            [0xfe, 0xff, ..] | [0xff, 0xfe, ..] => Some(TextForm::Utf16),
            [0, ..] | [_, 0, ..] => Some(TextForm::Utf16),
            _ => None,
        }
    }

    /// Its name in the line of a fault.
    pub fn name(self) -> &'static str {
        match self {
            TextForm::Empty => "empty",
            TextForm::ByteOrderMark => "byte order mark",
            TextForm::Utf16 => "UTF-16",
            TextForm::Gzip => "gzip",
            TextForm::CityJsonSeq => "CityJSONSeq",
        }
    }
}

fn is_space(byte: u8) -> bool {
    matches!(byte, b' ' | b'\t' | b'\n' | b'\r')
}

/// Whether one of the first two lines is a CityJSONFeature.
fn is_sequence(alloc: Global, text: &[u8]) -> Result<bool, OutOfMemory> {
    let (first, rest) = split_at_newline(text);
    let (second, _) = split_at_newline(rest);
    Ok(is_feature(alloc, second)? || is_feature(alloc, first)?)
}

/// What stands before the first newline, and what stands behind it.
fn split_at_newline(text: &[u8]) -> (&[u8], &[u8]) {
    match text.iter().position(|byte| *byte == b'\n') {
        Some(at) => (&text[..at], &text[at + 1..]),
        None => (text, &[]),
    }
}

fn is_feature(alloc: Global, text: &[u8]) -> Result<bool, OutOfMemory> {
    let tree = tree_of(alloc, text)?;
    Ok(tree.get("type").and_then(Value::as_str) == Some(FEATURE))
}
