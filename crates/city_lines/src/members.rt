//! The members of a line.
ghost use Rattle.std.specs.Prelude.{◌≡◌, ◌≢◌, ◌++◌, [], ◌∷◌, IfOk, IsTrue, None, option_map};
ghost use Rattle.json.specs.Token.{end_object, key};
ghost use Rattle.json.specs.Reads.{token_of};
ghost use Rattle.city_lines.specs.Members.{IsObjectOf, IsText, requests};

use crate::fault::{LineFault, Wrong};
use crate::name::Name;
use crate::values::text_of;
use city_model::OutOfMemory;
use json::{Reader, Scratch, Token};
use std::alloc::Global;

/// How deep a member's value may nest.
const DEPTH: usize = 127;

/// A member: its name, and the JSON text of its value.
#[derive(Clone, Copy)]
pub struct Member<'t> {
    pub name: Name,
    pub text: &'t str,
}

/// The members of a line, in the order of the text and each name once, and the first fault among them. All that can be
/// read is here, so that a faulty line has its hand.
#[derive(Drop)]
pub struct Members<'t> {
    pub list: Vec<Member<'t>>,
    pub fault: Option<LineFault>,
}

impl<'t> Members<'t> {
    /// The JSON text of the member of this name.
    #[tactic(auto, using(crate::proofs::Found::found_here, crate::proofs::Found::passed_here))]
    pub fn find(&self, name: Name) -> Option<&'t str>
        ensures { IsText name self.now.list.items (option_map (λ t. t.now) result) }
    {
        for member in &self.list {
            if member.name.is(name) {
                return Some(member.text);
            }
        }
        None
    }

    /// The member that asks for something; `NoRequest` or `TwoRequests` if that isn't one.
    pub fn request(&self) -> Result<Member<'t>, LineFault>
        ensures { IfOk result (λ m. requests self.now.list.items ≡ m ∷ []) }
    {
        let mut found = None;
        for member in &self.list {
            if member.name.is_request() {
                if found.is_some() {
                    return Err(LineFault::TwoRequests);
                }
                found = Some(*member);
            }
        }
        found.ok_or(LineFault::NoRequest)
    }

    /// Notes a fault of a member, unless there is one already.
    fn blame(&mut self, alloc: Global, name: &str, wrong: Wrong) -> Result<(), OutOfMemory> {
        if self.fault.is_none() {
            let name = text_of(alloc, name)?;
            self.fault = Some(LineFault::BadMember(name, wrong));
        }
        Ok(())
    }

    /// Adds a member.
    fn add(&mut self, alloc: Global, key: &str, text: &'t str) -> Result<(), OutOfMemory> {
        let Some(name) = Name::of(key) else {
            return self.blame(alloc, key, Wrong::Unknown);
        };
        if self.find(name).is_some() {
            return self.blame(alloc, key, Wrong::Twice);
        }
        self.list.push(Member { name, text })?;
        Ok(())
    }

    /// No JSON from this byte on, whatever else is wrong.
    fn broken(self, at: usize) -> Members<'t>
        ensures { result.fault ≢ None }
    {
        let Members { list, fault: _ } = self;
        Members {
            list,
            fault: Some(LineFault::NotJson(at)),
        }
    }
}

/// The members of a line. Each value is read beside the line with the other memory.
pub fn members_of<'t>(
    alloc: Global,
    text: &'t str,
    scratch: &mut Scratch,
    other: &mut Scratch,
) -> Result<Members<'t>, OutOfMemory>
    ensures { IfOk result (λ ms. ms.fault ≡ None → IsObjectOf text.now ms.list.items) }
{
    let members = found_members(alloc, text, scratch)?;
    if members.fault.is_some() {
        return Ok(members);
    }
    if is_object_of(text, members.list.as_slice(), scratch, other)? {
        return Ok(members);
    }
    let members = members.broken(text.len());
    Ok(members)
}

/// The members of a line, found by their places.
fn found_members<'t>(
    alloc: Global,
    text: &'t str,
    scratch: &mut Scratch,
) -> Result<Members<'t>, OutOfMemory> {
    let mut members = Members {
        list: Vec::new(alloc),
        fault: None,
    };
    let mut reader = Reader::new(text, scratch)?;
    let Some(Token::BeginObject) = reader.next() else {
        return Ok(members.broken(reader.offset()));
    };
    // (each member has more than one byte)
    for _ in 0..=text.len() {
        match reader.next_key() {
            Err(_) => return Ok(members.broken(reader.offset())),
            Ok(None) => return Ok(ended(members, &mut reader)),
            Ok(Some(key)) => match value_of(text, &mut reader) {
                None => return Ok(members.broken(reader.offset())),
                Some(value) => members.add(alloc, key, value)?,
            },
        }
    }
    Ok(members.broken(text.len()))
}

/// The members, if nothing follows their object.
fn ended<'t>(members: Members<'t>, reader: &mut Reader<'_>) -> Members<'t> {
    if reader.next().is_some() {
        return members.broken(reader.offset());
    }
    members
}

/// The JSON text of the next value, which is passed.
fn value_of<'t>(text: &'t str, reader: &mut Reader<'_>) -> Option<&'t str> {
    let from = reader.offset();
    reader.skip_value(DEPTH).ok()?;
    let piece = text.get(from..reader.offset())?;
    let (begin, end) = inside(piece.as_bytes());
    piece.get(begin..end)
}

/// Where a piece of a text begins and ends without the blanks and commas round it.
fn inside(piece: &[u8]) -> (usize, usize) {
    let mut from = 0;
    while from < piece.len() && is_outside(piece[from]) {
        from += 1;
    }
    let mut to = piece.len();
    while from < to && is_outside(piece[to - 1]) {
        to -= 1;
    }
    (from, to)
}

fn is_outside(byte: u8) -> bool {
    matches!(byte, b' ' | b'\t' | b'\n' | b'\r' | b',' | b':')
}

/// Whether the text is an object of these members, token by token. So nothing depends on places.
fn is_object_of(
    text: &str,
    members: &[Member<'_>],
    scratch: &mut Scratch,
    other: &mut Scratch,
) -> Result<bool, OutOfMemory>
    ensures { IfOk result (λ is. IsTrue is → IsObjectOf text.now members.now) }
{
    let mut reader = Reader::new(text, scratch)?;
    let Some(Token::BeginObject) = reader.next() else {
        return Ok(false);
    };
    for member in members {
        let mut value = Reader::new(member.text, other)?;
        if !passes_key(&mut reader, member.name.as_str()) || !passes(&mut reader, &mut value) {
            return Ok(false);
        }
    }
    Ok(is_ended(&mut reader))
}

/// Passes the key of this name, if it is next.
fn passes_key(reader: &mut Reader<'_>, name: &str) -> bool
    ensures { IsTrue result → reader.old ≡ key name.now ∷ reader.new }
{
    match reader.next() {
        Some(Token::Key(key)) => key == name,
        _ => false,
    }
}

/// Passes all tokens of another reader, if they are next.
fn passes(reader: &mut Reader<'_>, value: &mut Reader<'_>) -> bool
    ensures { IsTrue result → reader.old ≡ value.old ++ reader.new }
{
    while let Some(token) = value.next() {
        match reader.next() {
            Some(other) => {
                if !is_same(token, other) {
                    return false;
                }
            }
            None => return false,
        }
    }
    true
}

/// Whether the closing brace alone is left.
fn is_ended(reader: &mut Reader<'_>) -> bool
    ensures { IsTrue result → reader.old ≡ end_object ∷ [] }
{
    match reader.next() {
        Some(Token::EndObject) => reader.next().is_none(),
        _ => false,
    }
}

fn is_same(token: Token<'_>, other: Token<'_>) -> bool
    ensures { IsTrue result → token_of token.entry ≡ token_of other.entry }
{
    match (token, other) {
        (Token::BeginObject, Token::BeginObject) => true,
        (Token::EndObject, Token::EndObject) => true,
        (Token::BeginArray, Token::BeginArray) => true,
        (Token::EndArray, Token::EndArray) => true,
        (Token::Key(a), Token::Key(b)) => a == b,
        (Token::String(a), Token::String(b)) => a == b,
        (Token::Number(a), Token::Number(b)) => a == b,
        (Token::Bool(a), Token::Bool(b)) => a == b,
        (Token::Null, Token::Null) => true,
        _ => false,
    }
}
