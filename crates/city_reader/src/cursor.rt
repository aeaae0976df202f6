//! The rest of a text, and the lexemes at its front.
ghost use Rattle.std.specs.Prelude.{◌≡◌, ℕ, List, [], drop, IfSome, IsTrue, MatchOption};
ghost use Rattle.std.specs.Bool.{MatchBool};
ghost use Rattle.json.specs.Token.{number, string};
ghost use Rattle.json.specs.Word.{head};
ghost use Rattle.json.specs.Lex.{class, operator, operator_lexeme, token, between, lex};
ghost use Rattle.city_reader.specs.Cursor.{IsLexeme, IsPassed};
ghost use Rattle.city_reader.specs.Numbers.{IsWholeText};

use crate::numbers::{is_delimiter, whole_end};
use crate::scans::{blanks_end, byte_at, plain_end};
use crate::small::small_whole;
use std::marker::Model;

/// Whether two texts are the same. Texts are compared many bytes at a time, lists of bytes aren't.
fn are_same(left: &str, right: &str) -> bool
    ensures { IsTrue result → left.now ≡ right.now }
{
    left == right
}

/// Stands in a text. Contracts see the bytes left.
#[derive(Drop)]
pub struct Cursor<'t> {
    text: &'t str,
    at: usize,
}

impl<'t> Model for Cursor<'t> {
    ghost use Rattle.std.specs.Prelude.{ℕ, List};

    ghost Value = { List ℕ };

    ghost use Rattle.city_reader.specs.Cursor.{cursor_view, IsCursor};

    ghost view = { cursor_view };

    ghost invariant = { IsCursor };
}

impl<'t> Cursor<'t> {
    #[inline(always)]
    pub fn new(text: &'t str) -> Cursor<'t>
        ensures { result ≡ text.now }
    {
        Cursor { text, at: 0 }
    }

    /// Stands in a text at this byte; `None` if the text ends before it.
    pub fn from(text: &'t str, at: usize) -> Option<Cursor<'t>>
        ensures { IfSome result (λ cursor. cursor ≡ drop at text.now) }
    {
        if at > text.len() {
            return None;
        }
        Some(Cursor { text, at })
    }

    /// Whether it stands at this byte of this text. What is left of the texts is compared only if the
    /// bytes agree.
    pub fn is_at(&self, text: &str, at: usize) -> bool
        ensures { IsTrue result → self.now ≡ drop at text.now }
    {
        if self.at != at {
            return false;
        }
        match (self.text.get(at..), text.get(at..)) {
            (Some(left), Some(right)) => are_same(left, right),
            _ => false,
        }
    }

    /// Goes from one byte of this text to a later one, if it stands at the first.
    pub fn pass(&mut self, text: &str, from: usize, to: usize) -> bool
        ensures { MatchBool result ((self.old ≡ drop from text.now) × (self.new ≡ drop to text.now))
            (self.new ≡ self.old) }
    {
        if self.at != from || to < from || to > text.len() || !self.is_at(text, from) {
            return false;
        }
        self.at = to;
        true
    }

    /// Goes to the next lexeme, and returns its first byte, or a space at the end.
    #[inline(always)]
    pub fn peek(&mut self) -> u8
        ensures value { result ≡ head self.new }
        ensures same { lex between self.new ≡ lex between self.old }
        ensures end { result ≡ 32 → self.new ≡ [] }
    {
        let bytes = self.text.as_bytes();
        let byte = byte_at(bytes, self.at);
        if byte > b' ' {
            return byte;
        }
        self.at = blanks_end(bytes, self.at);
        byte_at(bytes, self.at)
    }

    /// Passes a bracket, a brace, a comma or a colon.
    #[inline(always)]
    pub fn skip(&mut self)
        requires { class (head self.old) ≡ operator }
        ensures { IsLexeme self.old (operator_lexeme (head self.old)) self.new }
    {
        self.at += 1;
    }

    /// The string at the next quote; `None` if it has an escape or is odd.
    #[inline(always)]
    pub fn string(&mut self) -> Option<&'t str>
        requires { head self.old ≡ 34 }
        ensures { IfSome result (λ s. IsLexeme self.old (token (string s.now)) self.new) }
    {
        let text = self.text;
        let start = self.at + 1;
        let stop = plain_end(text.as_bytes(), start);
        if byte_at(text.as_bytes(), stop) != b'"' {
            return None;
        }
        self.at = stop + 1;
        Some(&text[start..stop])
    }

    /// The text of the next whole number; `None` if anything else is next.
    #[inline(always)]
    pub fn number(&mut self) -> Option<&'t str>
        ensures { IfSome result (λ s. IsLexeme self.old (token (number s.now)) self.new) }
    {
        let text = self.text;
        let start = self.at;
        if byte_at(text.as_bytes(), start) > b'9' {
            return None;
        }
        let end = whole_end(text.as_bytes(), start)?;
        self.at = end;
        Some(&text[start..end])
    }

    /// Takes the next whole number, of at most 18 digits, and returns it with the byte behind it. If
    /// anything else is next, or the text is about to end, returns `None` and takes nothing.
    #[inline(always)]
    pub fn take_whole(&mut self) -> Option<(i64, u8)>
        ensures { MatchOption result (self.new ≡ self.old) (λ r. (s : List ℕ)
            × IsLexeme self.old (token (number s)) self.new × IsWholeText s r.0 × (r.1 ≡ head self.new)) }
    {
        let rest = &self.text.as_bytes()[self.at..];
        let (n, len, next) = small_whole(rest)?;
        self.at += len;
        Some((n, next))
    }

    /// Passes this word; `None` if another is next.
    #[inline(always)]
    pub fn word(&mut self, name: &[u8]) -> Option<()>
        ensures { IfSome result (λ _. IsPassed self.old name.now self.new) }
    {
        let rest = &self.text.as_bytes()[self.at..];
        if !rest.starts_with(name) || !is_delimiter(byte_at(rest, name.len())) {
            return None;
        }
        self.at += name.len();
        Some(())
    }
}
