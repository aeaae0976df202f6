//! Reads the tokens of a text.
ghost use Rattle.std.specs.Prelude.{◌≡◌, [], ◌∷◌, option_map, Some, IfSome, IsTrue, MatchOption};
ghost use Rattle.std.specs.Bool.{MatchBool};
ghost use Rattle.json.specs.Lex.{tokens};
ghost use Rattle.json.specs.Json.{after_end_array, read_key};
ghost use Rattle.json.specs.Reads.{token_of};
ghost use Rattle.city_reader.specs.Positions.{tokens_from};
ghost use Rattle.city_reader.specs.Taken.{IsWholeTaken};

use crate::plain::PlainReader;
use crate::position::Position;
use crate::whole::whole_of;
use json::{Scratch, Token};
use memchr::memchr;
use std::alloc::Global;
use std::marker::Model;

/// Who reads a text.
#[derive(Drop)]
enum Source<'t> {
    /// One without escapes.
    Plain(PlainReader<'t>),
    Escaped(json::Reader<'t>),
}

/// The next token of a text with escapes. Never inlined: that keeps the callers small.
#[inline(never)]
fn next_escaped<'t>(reader: &mut json::Reader<'t>) -> Option<Token<'t>>
    ensures { IfSome result (λ t. reader.old ≡ token_of t ∷ reader.new) }
{
    reader.next()
}

/// Takes the closing bracket of an array in a text with escapes, if it is next.
#[inline(never)]
fn take_end_array_escaped(reader: &mut json::Reader<'_>) -> bool
    ensures { MatchBool result (after_end_array reader.old ≡ Some reader.new) (reader.new ≡ reader.old) }
{
    reader.take_end_array()
}

/// Reads the tokens of a text, one after another, and gives up if anything is odd. Contracts see
/// the tokens still to come.
#[derive(Drop)]
pub struct Reader<'t> {
    source: Source<'t>,
}

impl<'t> Model for Reader<'t> {
    ghost use Rattle.std.specs.Prelude.{List};
    ghost use Rattle.json.specs.Token.{Token as SpecToken, tokens_code};

    ghost Value = { List SpecToken };

    ghost coded = { tokens_code };

    ghost use Rattle.city_reader.specs.Sources.{tokens_of};

    ghost view = { λ a. tokens_of a.source };
}

impl<'t> Reader<'t> {
    /// Reads this text from its beginning. Only a text with an escape takes memory, as much as the
    /// text, in `scratch`; `None` if that is refused.
    pub fn new(text: &'t str, scratch: &'t mut Scratch<Global>) -> Option<Reader<'t>>
        ensures { IfSome result (λ reader. reader ≡ tokens text.now) }
    {
        let source = if memchr(b'\\', text.as_bytes()).is_none() {
            Source::Plain(PlainReader::new(text))
        } else {
            Source::Escaped(json::Reader::new(text, scratch).ok()?)
        };
        Some(Reader { source })
    }

    /// Reads this text from its beginning, and gives up at an escape. Unlike `new`, it looks for none
    /// beforehand, and takes no memory.
    pub fn plain(text: &'t str) -> Reader<'t>
        ensures { result ≡ tokens text.now }
    {
        Reader {
            source: Source::Plain(PlainReader::new(text)),
        }
    }

    /// Reads this text on from a position, as far as it has no escape; `None` if the text has no
    /// such place.
    pub fn from(text: &'t str, position: Position) -> Option<Reader<'t>>
        ensures { IfSome result (λ reader. reader ≡ tokens_from position text.now) }
    {
        let reader = PlainReader::from(text, position)?;
        Some(Reader {
            source: Source::Plain(reader),
        })
    }

    /// Whether this reader stands at this position of this text.
    pub fn is_at(&self, text: &str, position: Position) -> bool
        ensures { IsTrue result → self.now ≡ tokens_from position text.now }
    {
        match &self.source {
            Source::Plain(reader) => reader.is_at(text, position),
            Source::Escaped(_) => false,
        }
    }

    /// Goes from one position of this text to another, if this reader stands at the first.
    pub fn pass(&mut self, text: &str, from: Position, to: Position) -> bool
        ensures { MatchBool result
            ((self.old ≡ tokens_from from text.now) × (self.new ≡ tokens_from to text.now)) (self.new ≡ self.old) }
    {
        match &mut self.source {
            Source::Plain(reader) => reader.pass(text, from, to),
            Source::Escaped(_) => false,
        }
    }

    /// The next token; `None` at the end, and if anything is odd.
    #[inline(always)]
    pub fn next(&mut self) -> Option<Token<'t>>
        ensures { IfSome result (λ t. self.old ≡ token_of t ∷ self.new) }
    {
        match &mut self.source {
            Source::Plain(reader) => reader.next(),
            Source::Escaped(reader) => next_escaped(reader),
        }
    }

    /// The next token's number, an `i64`; `None` if it is anything else.
    #[inline(always)]
    pub fn whole(&mut self) -> Option<i64>
        ensures { IfSome result (IsWholeTaken self.old self.new) }
    {
        match &mut self.source {
            Source::Plain(reader) => reader.whole(),
            Source::Escaped(reader) => match next_escaped(reader)? {
                Token::Number(text) => whole_of(text),
                _ => None,
            },
        }
    }

    /// Takes the next token, if it is a whole number of at most 18 digits. Returns `None` and takes
    /// nothing if it is anything else, if the text has escapes, or near the end of the text.
    #[inline(always)]
    pub fn take_whole(&mut self) -> Option<i64>
        ensures { MatchOption result (self.new ≡ self.old) (IsWholeTaken self.old self.new) }
    {
        match &mut self.source {
            Source::Plain(reader) => reader.take_whole(),
            Source::Escaped(_) => None,
        }
    }

    /// The key of the next member, or `Some(None)` at the closing brace of an object; `None` if
    /// anything else is next.
    #[inline(always)]
    pub fn next_key(&mut self) -> Option<Option<&'t str>>
        ensures { IfSome result
            (λ k. read_key self.old ≡ Some (option_map (λ s. s.now) k, self.new)) }
    {
        match self.next()? {
            Token::Key(key) => Some(Some(key)),
            Token::EndObject => Some(None),
            _ => None,
        }
    }

    /// Takes the closing bracket of an array, if it is next.
    #[inline(always)]
    pub fn take_end_array(&mut self) -> bool
        ensures { MatchBool result (after_end_array self.old ≡ Some self.new) (self.new ≡ self.old) }
    {
        match &mut self.source {
            Source::Plain(reader) => reader.take_end_array(),
            Source::Escaped(reader) => take_end_array_escaped(reader),
        }
    }

    /// Whether nothing but blanks is left.
    #[inline(always)]
    pub fn is_at_end(&mut self) -> bool
        ensures { IsTrue result → self.old ≡ [] }
    {
        match &mut self.source {
            Source::Plain(reader) => reader.is_at_end(),
            Source::Escaped(reader) => reader.next().is_none(),
        }
    }
}
