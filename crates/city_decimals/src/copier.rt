//! Copies a compact text in pieces, except for bytes left out.
ghost use Rattle.std.specs.Prelude.{◌≡◌, ◌∷◌, ◌++◌, ◌+◌, ◌<◌, ◌≤◌, get_or, [], ℕ, List, true, false, length, take};
ghost use Rattle.std.specs.Prelude.{IfOk, IfErr, IfSome};
ghost use Rattle.std.specs.Bool.{OnTrue};
ghost use Rattle.std.specs.Str.{IsUtf8};
ghost use Rattle.memchr.specs.Find.{occurs_at};
ghost use Rattle.json.specs.Json.{Items};
ghost use Rattle.json.specs.Print.{IsNumber, escape};
ghost use Rattle.json.specs.Tree.{items_depth};
ghost use Rattle.city_decimals.specs.internal.Copies.{Moves, IsEscaped, IsPlainByte};
ghost use Rattle.city_decimals.specs.internal.Compact.{comma_if, IsKeyPassed};
ghost use Rattle.city_decimals.specs.internal.Passed.{AreSame, front_text, later_after};
ghost use Rattle.city_decimals.specs.internal.PlainNumbers.{IsPlain};

use crate::arrays::{comma_len, whole_items_len};
use crate::numbers::{is_number, plain_len};
use crate::text::is_text;
use city_reader::plain_end;
use std::marker::Model;

/// A text read in part, and the output for that part. Contracts see the old bytes of the buffer,
/// the output, and the text left to read.
#[derive(Drop)]
pub(crate) struct Copier<'a> {
    text: &'a str,
    at: usize,
    /// The start of the piece read and not yet written.
    start: usize,
    out: Vec<u8>,
    /// The old length of the buffer.
    base: usize,
}

impl<'a> Model for Copier<'a> {
    ghost use Rattle.std.specs.Prelude.{List, ℕ};

    ghost Value = { List ℕ × List ℕ × List ℕ };

    ghost use Rattle.city_decimals.specs.internal.Copies.{copier_view, IsCopier};

    ghost view = { copier_view };

    ghost invariant = { IsCopier };
}

impl<'a> Copier<'a> {
    /// A copier with nothing read. Output is appended to the buffer.
    pub(crate) fn new(text: &'a str, out: Vec<u8>) -> Copier<'a>
        ensures { result ≡ (out.items, [], text.now) }
    {
        let base = out.len();
        Copier {
            text,
            at: 0,
            start: 0,
            out,
            base,
        }
    }

    /// Returns the buffer with the output appended if the whole text was read, the output is text,
    /// and there is memory; else `Err` with the buffer as before.
    pub(crate) fn finish(self) -> Result<Vec<u8>, Vec<u8>>
        ensures ok { IfOk result (λ v. (self.entry.2 ≡ []) × IsUtf8 self.entry.1
            × (v.items ≡ self.entry.0 ++ self.entry.1)) }
        ensures err { IfErr result (λ v. v.items ≡ self.entry.0) }
    {
        let Copier {
            text,
            at,
            start,
            out,
            base,
        } = self;
        let mut out = out;
        if at < text.len()
            || out.extend_from_slice(&text.as_bytes()[start..at]).is_err()
            || !is_text(&out[base..])
        {
            out.truncate(base);
            return Err(out);
        }
        Ok(out)
    }

    /// The buffer as before.
    pub(crate) fn give_up(self) -> Vec<u8>
        ensures { result.items ≡ self.entry.0 }
    {
        let Copier { out, base, .. } = self;
        let mut out = out;
        out.truncate(base);
        out
    }

    /// The text left to read.
    #[inline(always)]
    pub(crate) fn rest(&self) -> &'a [u8]
        ensures { result.now ≡ self.now.2 }
    {
        &self.text.as_bytes()[self.at..]
    }

    /// The next byte, and 0 at the end.
    #[inline(always)]
    pub(crate) fn peek(&self) -> u8 {
        let bytes = self.text.as_bytes();
        if self.at < bytes.len() {
            bytes[self.at]
        } else {
            0
        }
    }

    /// Copies so many bytes.
    #[inline(always)]
    pub(crate) fn advance(&mut self, count: usize)
        requires { count ≤ length self.old.2 }
        ensures before { self.new.0 ≡ self.old.0 }
        ensures moves { Moves self.old self.new (take count self.old.2) (take count self.old.2) }
    {
        self.at += count;
    }

    /// Leaves so many bytes out.
    fn leave_out(&mut self, count: usize) -> Option<()>
        requires { count ≤ length self.old.2 }
        ensures before { self.new.0 ≡ self.old.0 }
        ensures moves { IfSome result (λ _. Moves self.old self.new (take count self.old.2) []) }
    {
        if self
            .out
            .extend_from_slice(&self.text.as_bytes()[self.start..self.at])
            .is_err()
        {
            return None;
        }
        self.at += count;
        self.start = self.at;
        Some(())
    }

    /// Copies this byte if it is next; returns whether it was.
    #[inline(always)]
    pub(crate) fn take(&mut self, byte: u8) -> bool
        ensures before { self.new.0 ≡ self.old.0 }
        ensures taken { result ≡ true → Moves self.old self.new (byte ∷ []) (byte ∷ []) }
        ensures kept { result ≡ false → self.new ≡ self.old }
    {
        let rest = self.rest();
        if rest.is_empty() || rest[0] != byte {
            return false;
        }
        self.advance(1);
        true
    }

    /// Copies these bytes if they are next.
    #[inline(always)]
    pub(crate) fn pass(&mut self, bytes: &[u8]) -> Option<()>
        ensures before { self.new.0 ≡ self.old.0 }
        ensures moves { IfSome result (λ _. Moves self.old self.new bytes.now bytes.now) }
    {
        if !begins_with(self.rest(), bytes) {
            return None;
        }
        self.advance(bytes.len());
        Some(())
    }

    /// Leaves these bytes out if they are next.
    pub(crate) fn skip(&mut self, bytes: &[u8]) -> Option<()>
        ensures before { self.new.0 ≡ self.old.0 }
        ensures moves { IfSome result (λ _. Moves self.old self.new bytes.now []) }
    {
        if !begins_with(self.rest(), bytes) {
            return None;
        }
        self.leave_out(bytes.len())
    }

    /// Copies the inside of a string, and the closing quote. Returns the inside as written.
    #[inline(always)]
    pub(crate) fn pass_inside(&mut self) -> Option<&'a [u8]>
        ensures before { self.new.0 ≡ self.old.0 }
        ensures moves { IfSome result (λ inside. (s : List ℕ) × (inside.now ≡ escape s)
            × Moves self.old self.new (escape s ++ 34 ∷ []) (escape s ++ 34 ∷ [])) }
    {
        let rest = self.rest();
        let end = string_end(rest)?;
        self.advance(end + 1);
        Some(&rest[..end])
    }

    /// Copies a comma if `later`.
    #[inline(always)]
    pub(crate) fn pass_comma(&mut self, later: bool) -> Option<()>
        ensures before { self.new.0 ≡ self.old.0 }
        ensures moves { IfSome result (λ _. Moves self.old self.new (comma_if later) (comma_if later)) }
    {
        if !later {
            return Some(());
        }
        if self.take(b',') { Some(()) } else { None }
    }

    /// Copies a comma if `later`, then a name with its colon. Returns the name as written.
    #[inline(always)]
    pub(crate) fn pass_key(&mut self, later: bool) -> Option<&'a [u8]>
        ensures before { self.new.0 ≡ self.old.0 }
        ensures moves { IfSome result (λ key. IsKeyPassed later key.now self.old self.new) }
    {
        self.pass_comma(later)?;
        if !self.take(b'"') {
            return None;
        }
        let key = self.pass_inside()?;
        if self.take(b':') { Some(key) } else { None }
    }

    /// Writes these bytes, and reads nothing.
    pub(crate) fn insert(&mut self, bytes: &[u8]) -> Option<()>
        ensures before { self.new.0 ≡ self.old.0 }
        ensures moves { IfSome result (λ _. Moves self.old self.new [] bytes.now) }
    {
        if self
            .out
            .extend_from_slice(&self.text.as_bytes()[self.start..self.at])
            .is_err()
        {
            return None;
        }
        self.start = self.at;
        if self.out.extend_from_slice(bytes).is_err() {
            return None;
        }
        Some(())
    }

    /// The text before the first byte that can't be in a number.
    pub(crate) fn next_number(&self) -> Option<&'a str>
        ensures within { IfSome result (λ s. length s.now ≤ length self.now.2) }
        ensures front { IfSome result (λ s. take (length s.now) self.now.2 ≡ s.now) }
        ensures plain { IfSome result (λ s. escape s.now ≡ s.now) }
    {
        let end = self.at + number_end(self.rest());
        self.text.get(self.at..end)
    }

    /// Copies a plain number if it is next; returns whether it was.
    #[inline(always)]
    pub(crate) fn take_plain(&mut self) -> bool
        ensures before { self.new.0 ≡ self.old.0 }
        ensures taken { result ≡ true → (s : List ℕ) × IsPlain s × Moves self.old self.new s s }
        ensures kept { result ≡ false → self.new ≡ self.old }
    {
        let len = plain_len(self.rest());
        if len == 0 {
            return false;
        }
        self.advance(len);
        true
    }

    /// Copies whole numbers and arrays of them, as far as there are such items; returns whether there
    /// are any, or `later`.
    #[inline(always)]
    pub(crate) fn pass_whole_items(&mut self, later: bool, depth: usize) -> bool
        ensures before { self.new.0 ≡ self.old.0 }
        ensures moves { (js : Items) × AreSame js × (items_depth js ≤ depth)
            × Moves self.old self.new (front_text later js) (front_text later js)
            × (result ≡ later_after later js) }
    {
        let rest = self.rest();
        if begins_other(rest, later) {
            return later;
        }
        let len = whole_items_len(rest, later, depth);
        self.advance(len);
        later || len > 0
    }

    /// Copies a number.
    #[inline(always)]
    pub(crate) fn pass_number(&mut self) -> Option<()>
        ensures before { self.new.0 ≡ self.old.0 }
        ensures moves { IfSome result (λ _. (s : List ℕ) × IsNumber s × (escape s ≡ s)
            × Moves self.old self.new s s) }
    {
        if self.take_plain() {
            return Some(());
        }
        self.pass_other_number()
    }

    /// Copies a number of any form.
    #[inline(never)]
    fn pass_other_number(&mut self) -> Option<()>
        ensures before { self.new.0 ≡ self.old.0 }
        ensures moves { IfSome result (λ _. (s : List ℕ) × IsNumber s × (escape s ≡ s)
            × Moves self.old self.new s s) }
    {
        let number = self.next_number()?;
        if !is_number(number) {
            return None;
        }
        self.advance(number.len());
        Some(())
    }
}

/// Whether the text begins with these bytes, which are few. For so few, calls of the comparison of
/// slices cost more than the loop.
#[inline(always)]
pub(crate) fn begins_with(text: &[u8], bytes: &[u8]) -> bool
    ensures len { OnTrue result (length bytes.now ≤ length text.now) }
    ensures value { OnTrue result (take (length bytes.now) text.now ≡ bytes.now) }
    ensures occurs { result ≡ occurs_at text.now bytes.now 0 }
{
    if text.len() < bytes.len() {
        return false;
    }
    let mut at = 0;
    while at < bytes.len() {
        if text[at] != bytes[at] {
            return false;
        }
        at += 1;
    }
    true
}

/// Whether the next item is a string or an object, or there is none.
#[inline(always)]
fn begins_other(text: &[u8], later: bool) -> bool {
    let first = comma_len(later);
    first >= text.len() || text[first] == b'"' || text[first] == b'{'
}

/// The end of the bytes that may be in a number.
pub(crate) fn number_end(text: &[u8]) -> usize
    ensures within { result ≤ length text.now }
    ensures plain { (i : ℕ) → i < result → IsPlainByte (get_or text.now i 0) }
{
    let mut at = 0;
    while at < text.len() && is_of_number(text[at]) {
        at += 1;
    }
    at
}

fn is_of_number(byte: u8) -> bool
    ensures { OnTrue result (IsPlainByte byte) }
{
    (byte >= b'0' && byte <= b'9') || is_mark(byte)
}

/// Whether this is a sign, a point or an exponent's letter.
#[inline(always)]
fn is_mark(byte: u8) -> bool
    ensures { OnTrue result (IsPlainByte byte) }
{
    byte == b'-' || byte == b'+' || byte == b'.' || byte == b'e' || byte == b'E'
}

/// The index of the closing quote of a string; the text begins with the inside. `None` if the inside has anything but
/// a writer's escapes of a quote, a backslash and a newline.
#[inline(always)]
fn string_end(text: &[u8]) -> Option<usize>
    ensures within { IfSome result (λ end. end + 1 ≤ length text.now) }
    ensures inside { IfSome result (λ end. (s : List ℕ) × (take end text.now ≡ escape s)
        × (take (end + 1) text.now ≡ escape s ++ 34 ∷ [])) }
{
    let mut at = plain_end(text, 0);
    while at < text.len() {
        if text[at] == b'"' {
            return Some(at);
        }
        if text[at] != b'\\' || at + 1 >= text.len() || !is_escaped(text[at + 1]) {
            return None;
        }
        at = plain_end(text, at + 2);
    }
    None
}

/// Whether a backslash and this byte are a writer's escape of a quote, a backslash or a newline.
fn is_escaped(byte: u8) -> bool
    ensures { OnTrue result (IsEscaped byte) }
{
    match byte {
        b'"' => true,
        b'\\' => true,
        b'n' => true,
        _ => false,
    }
}
