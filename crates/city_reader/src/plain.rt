//! Reads texts without escapes.
ghost use Rattle.std.specs.Prelude.{◌≡◌, ◌≢◌, ◌⊎◌, [], ◌∷◌, option_map, Some, true, IfSome, IsTrue, MatchOption};
ghost use Rattle.std.specs.Bool.{MatchBool};
ghost use Rattle.json.specs.Word.{head};
ghost use Rattle.json.specs.Lex.{after_value, between, lex, punctuate, tokens};
ghost use Rattle.json.specs.Json.{after_end_array, read_key};
ghost use Rattle.json.specs.Reads.{token_of};
ghost use Rattle.city_reader.specs.Plain.{tokens_at, begins_at, closes_at, Begins, Closes, IsNext};
ghost use Rattle.city_reader.specs.Positions.{tokens_from};
ghost use Rattle.city_reader.specs.Taken.{IsWholeTaken};

use crate::cursor::Cursor;
use crate::position::Position;
use crate::whole::whole_of;
use json::Token;
use std::marker::Model;

/// What may come next in the text.
#[derive(Clone, Copy, Drop)]
pub enum Place {
    AfterComma,
    Fresh,
    AfterValue,
}

impl Place {
    pub fn is(self, other: Place) -> bool
        ensures { IsTrue result → self ≡ other }
    {
        match self {
            Place::AfterComma => matches!(other, Place::AfterComma),
            Place::Fresh => matches!(other, Place::Fresh),
            Place::AfterValue => matches!(other, Place::AfterValue),
        }
    }

    #[inline(always)]
    fn may_close(self) -> bool
        ensures { result ≡ closes_at self }
    {
        matches!(self, Place::Fresh | Place::AfterValue)
    }

    #[inline(always)]
    fn may_begin(self) -> bool
        ensures { result ≡ begins_at self }
    {
        matches!(self, Place::Fresh | Place::AfterComma)
    }
}

/// Reads the usual forms of tokens. Contracts see the tokens still to come.
#[derive(Drop)]
pub struct PlainReader<'t> {
    cursor: Cursor<'t>,
    place: Place,
}

impl<'t> Model for PlainReader<'t> {
    ghost use Rattle.std.specs.Prelude.{List};
    ghost use Rattle.json.specs.Token.{Token as SpecToken, tokens_code};

    ghost Value = { List SpecToken };

    ghost coded = { tokens_code };

    ghost use Rattle.city_reader.specs.Plain.{tokens_at};

    ghost view = { λ a. tokens_at a.place a.cursor };
}

/// Passes a comma after a value, if there is one.
#[inline(always)]
fn after_value(cursor: &mut Cursor<'_>) -> Place
    ensures { tokens_at result cursor.new ≡ punctuate after_value (lex between cursor.old) }
{
    if cursor.peek() == b',' {
        cursor.skip();
        Place::AfterComma
    } else {
        Place::AfterValue
    }
}

/// The same, with the byte that is next.
#[inline(always)]
fn after_whole(cursor: &mut Cursor<'_>, next: u8) -> Place
    requires { head cursor.old ≡ next }
    ensures { tokens_at result cursor.new ≡ punctuate after_value (lex between cursor.old) }
{
    if next == b',' {
        cursor.skip();
        return Place::AfterComma;
    }
    if next == b']' {
        return Place::AfterValue;
    }
    after_value(cursor)
}

/// The key or the string at the next quote.
#[inline(always)]
fn text<'t>(cursor: &mut Cursor<'t>) -> Option<(Token<'t>, Place)>
    requires { head cursor.old ≡ 34 }
    ensures { IfSome result (λ r. Begins cursor.old (token_of r.0) r.1 cursor.new) }
{
    let text = cursor.string()?;
    match cursor.peek() {
        b':' => {
            cursor.skip();
            Some((Token::Key(text), Place::Fresh))
        }
        b',' => {
            cursor.skip();
            Some((Token::String(text), Place::AfterComma))
        }
        b']' | b'}' => Some((Token::String(text), Place::AfterValue)),
        _ => None,
    }
}

/// The next number or literal, beginning with this byte.
#[inline(always)]
fn word<'t>(cursor: &mut Cursor<'t>, first: u8) -> Option<Token<'t>>
    ensures { IfSome result (λ t. IsNext cursor.old (token_of t) cursor.new) }
{
    match first {
        b't' => {
            cursor.word(b"true")?;
            Some(Token::Bool(true))
        }
        b'f' => {
            cursor.word(b"false")?;
            Some(Token::Bool(false))
        }
        b'n' => {
            cursor.word(b"null")?;
            Some(Token::Null)
        }
        _ => {
            let number = cursor.number()?;
            Some(Token::Number(number))
        }
    }
}

/// The token beginning with this byte, at a place for a value or a key.
#[inline(always)]
fn begin<'t>(cursor: &mut Cursor<'t>, first: u8) -> Option<(Token<'t>, Place)>
    requires { head cursor.old ≡ first }
    ensures { IfSome result (λ r. Begins cursor.old (token_of r.0) r.1 cursor.new) }
{
    match first {
        b'"' => text(cursor),
        b'{' => {
            cursor.skip();
            Some((Token::BeginObject, Place::Fresh))
        }
        b'[' => {
            cursor.skip();
            Some((Token::BeginArray, Place::Fresh))
        }
        _ => {
            let token = word(cursor, first)?;
            Some((token, after_value(cursor)))
        }
    }
}

/// Passes a closing bracket or brace.
#[inline(always)]
fn close<'t>(cursor: &mut Cursor<'t>, first: u8) -> (Token<'t>, Place)
    requires { (head cursor.old ≡ first) × ((first ≡ 125) ⊎ (first ≡ 93)) }
    ensures { Closes cursor.old (token_of result.0) result.1 cursor.new }
{
    cursor.skip();
    let place = after_value(cursor);
    if first == b'}' {
        (Token::EndObject, place)
    } else {
        (Token::EndArray, place)
    }
}

/// The next token; `None` at the end, and if anything is odd.
#[inline(always)]
fn read<'t>(cursor: &mut Cursor<'t>, place: Place) -> Option<(Token<'t>, Place)>
    ensures { IfSome result
        (λ r. tokens_at place cursor.old ≡ token_of r.0 ∷ tokens_at r.1 cursor.new) }
{
    let first = cursor.peek();
    if (first == b'}') | (first == b']') {
        if !place.may_close() {
            return None;
        }
        return Some(close(cursor, first));
    }
    if !place.may_begin() {
        return None;
    }
    begin(cursor, first)
}

impl<'t> PlainReader<'t> {
    #[inline(always)]
    pub fn new(text: &'t str) -> PlainReader<'t>
        ensures { result ≡ tokens text.now }
    {
        PlainReader {
            cursor: Cursor::new(text),
            place: Place::Fresh,
        }
    }

    /// Reads a text on from a position; `None` if the text ends before it.
    pub fn from(text: &'t str, position: Position) -> Option<PlainReader<'t>>
        ensures { IfSome result (λ reader. reader ≡ tokens_from position text.now) }
    {
        let cursor = Cursor::from(text, position.at)?;
        Some(PlainReader {
            cursor,
            place: position.place,
        })
    }

    pub fn is_at(&self, text: &str, position: Position) -> bool
        ensures { IsTrue result → self.now ≡ tokens_from position text.now }
    {
        self.place.is(position.place) && self.cursor.is_at(text, position.at)
    }

    /// Goes from one position of this text to another, if it stands at the first.
    pub fn pass(&mut self, text: &str, from: Position, to: Position) -> bool
        ensures { MatchBool result
            ((self.old ≡ tokens_from from text.now) × (self.new ≡ tokens_from to text.now)) (self.new ≡ self.old) }
    {
        if !self.place.is(from.place) || !self.cursor.pass(text, from.at, to.at) {
            return false;
        }
        self.place = to.place;
        true
    }

    #[inline(always)]
    pub fn next(&mut self) -> Option<Token<'t>>
        ensures { IfSome result (λ t. self.old ≡ token_of t ∷ self.new) }
    {
        let (token, place) = read(&mut self.cursor, self.place)?;
        self.place = place;
        Some(token)
    }

    #[inline(always)]
    pub fn take_whole(&mut self) -> Option<i64>
        ensures { MatchOption result (self.new ≡ self.old) (IsWholeTaken self.old self.new) }
    {
        if !self.place.may_begin() {
            return None;
        }
        let _ = self.cursor.peek();
        let (n, next) = self.cursor.take_whole()?;
        self.place = after_whole(&mut self.cursor, next);
        Some(n)
    }

    #[inline(always)]
    pub fn whole(&mut self) -> Option<i64>
        ensures { IfSome result (IsWholeTaken self.old self.new) }
    {
        match self.take_whole() {
            Some(n) => Some(n),
            None => self.long_whole(),
        }
    }

    /// The same, with the digits first read as a text.
    #[cold]
    fn long_whole(&mut self) -> Option<i64>
        ensures { IfSome result (IsWholeTaken self.old self.new) }
    {
        match self.next()? {
            Token::Number(text) => whole_of(text),
            _ => None,
        }
    }

    #[inline(always)]
    pub fn take_end_array(&mut self) -> bool
        ensures { MatchBool result (after_end_array self.old ≡ Some self.new) (self.new ≡ self.old) }
    {
        if !self.place.may_close() {
            return false;
        }
        if self.cursor.peek() != b']' {
            return false;
        }
        self.cursor.skip();
        self.place = after_value(&mut self.cursor);
        true
    }

    #[inline(always)]
    pub fn is_at_end(&mut self) -> bool
        ensures { IsTrue result → self.old ≡ [] }
    {
        (self.cursor.peek() == b' ') & self.place.may_close()
    }
}
