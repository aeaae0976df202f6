//! Reads a line.
ghost use Rattle.std.specs.Prelude.{◌≡◌, IfOk, Some, None};
ghost use Rattle.city_lines.specs.Members.{IsText};
ghost use Rattle.city_lines.specs.Requests.{IsRequest, IsOwnText, IsLineOf};
ghost use Rattle.city_lines.specs.declared.name.Name.TheVariants as names;

use crate::ask::{ask_of, needed_text, wrong};
use crate::fault::{LineError, LineFault, Wrong};
use crate::line::Line;
use crate::members::{Member, Members, members_of};
use crate::name::Name;
use crate::values::text_of;
use city_live::Tag;
use city_members::text::Text;
use city_model::OutOfMemory;
use json::Scratch;
use simdutf8::compat::from_utf8;
use std::alloc::Global;

/// The most bytes of a line.
pub const MAX_LINE: usize = 67_108_864;

/// The most bytes of a hand's name, and of a key.
pub const MAX_NAME: usize = 256;

/// The longest line whose memory is kept for the next one.
const MOST_KEPT: usize = 65_536;

/// The memory that reading a line needs. One is kept, and lent to each line: making one clears it.
#[derive(Drop)]
pub struct LineScratch {
    /// For the line, and for its values.
    line: Scratch,
    /// For a value that is read beside its line.
    value: Scratch,
}

impl LineScratch {
    /// Memory for lines. Doesn't allocate.
    pub fn new(alloc: Global) -> LineScratch {
        LineScratch {
            line: Scratch::new(alloc),
            value: Scratch::new(alloc),
        }
    }
}

/// The request of a line, without its newline. It allocates a few times the line's length at most.
pub fn read_line(alloc: Global, bytes: &[u8], scratch: &mut LineScratch) -> Result<Line, LineError>
    ensures { IfOk result (λ line. IsRequest bytes.now line) }
{
    if bytes.len() > MAX_LINE {
        return Err(LineError::unnamed(LineFault::TooLong));
    }
    let text = match from_utf8(bytes) {
        Ok(text) => text,
        Err(error) => return Err(LineError::unnamed(LineFault::NotJson(error.valid_up_to()))),
    };
    if bytes.len() > MOST_KEPT {
        let mut own = LineScratch::new(alloc);
        return read_text(alloc, text, &mut own);
    }
    read_text(alloc, text, scratch)
}

/// The request of a line's text.
fn read_text(alloc: Global, text: &str, scratch: &mut LineScratch) -> Result<Line, LineError>
    ensures { IfOk result (λ line. IsRequest text.now line) }
{
    match members_of(alloc, text, &mut scratch.line, &mut scratch.value) {
        Ok(members) => {
            let line = line_of(alloc, members, &mut scratch.line)?;
            Ok(line)
        }
        Err(_) => Err(LineError::unnamed(LineFault::NoMemory)),
    }
}

/// The request of these members.
fn line_of(alloc: Global, members: Members<'_>, scratch: &mut Scratch) -> Result<Line, LineError>
    ensures { IfOk result (λ line. (members.entry.fault ≡ None)
        × IsLineOf members.entry.list.items line) }
{
    let tag = match tag_of(alloc, &members) {
        Ok(tag) => tag,
        Err(_) => return Err(LineError::unnamed(LineFault::NoMemory)),
    };
    let hand = hand_of(alloc, &members, scratch);
    let Members { list, fault } = members;
    if let Some(fault) = fault {
        let hand = hand.ok();
        return Err(LineError { hand, tag, fault });
    }
    let members = Members { list, fault: None };
    match hand {
        Ok(hand) => {
            let line = asked_line(alloc, hand, tag, &members, scratch)?;
            Ok(line)
        }
        Err(fault) => Err(LineError {
            hand: None,
            tag,
            fault,
        }),
    }
}

/// The request of a hand.
fn asked_line(
    alloc: Global,
    hand: Text,
    tag: Tag,
    members: &Members<'_>,
    scratch: &mut Scratch,
) -> Result<Line, LineError>
    requires hand { IsOwnText names.Hand members.now.list.items (Some hand) }
    requires tag { IsText names.Id members.now.list.items tag }
    ensures { IfOk result (λ line. IsLineOf members.now.list.items line) }
{
    let key = match key_of(alloc, members, scratch) {
        Ok(key) => key,
        Err(fault) => {
            let hand = Some(hand);
            return Err(LineError { hand, tag, fault });
        }
    };
    match ask_of(alloc, members, scratch) {
        Ok(ask) => Ok(Line {
            hand,
            tag,
            key,
            ask,
        }),
        Err(fault) => {
            let hand = Some(hand);
            Err(LineError { hand, tag, fault })
        }
    }
}

/// The JSON text of the `id`, if there is one.
fn tag_of(alloc: Global, members: &Members<'_>) -> Result<Tag, OutOfMemory>
    ensures { IfOk result (λ tag. IsText names.Id members.now.list.items tag) }
{
    match members.find(Name::Id) {
        Some(text) => Ok(Some(text_of(alloc, text)?)),
        None => Ok(None),
    }
}

/// The hand.
fn hand_of(alloc: Global, members: &Members<'_>, scratch: &mut Scratch) -> Result<Text, LineFault>
    ensures { IfOk result (λ hand. IsOwnText names.Hand members.now.list.items (Some hand)) }
{
    match short_text(alloc, members, Name::Hand, scratch)? {
        Some(hand) => Ok(hand),
        None => Err(LineFault::NoHand),
    }
}

/// The key, if there is one.
fn key_of(
    alloc: Global,
    members: &Members<'_>,
    scratch: &mut Scratch,
) -> Result<Option<Text>, LineFault>
    ensures { IfOk result (λ key. IsOwnText names.Key members.now.list.items key) }
{
    short_text(alloc, members, Name::Key, scratch)
}

/// The text of a member, if it is there. It may have `MAX_NAME` bytes.
fn short_text(
    alloc: Global,
    members: &Members<'_>,
    name: Name,
    scratch: &mut Scratch,
) -> Result<Option<Text>, LineFault>
    ensures { IfOk result (λ found. IsOwnText name members.now.list.items found) }
{
    let Some(text) = members.find(name) else {
        return Ok(None);
    };
    let found = needed_text(alloc, Member { name, text }, scratch)?;
    if found.as_str().len() > MAX_NAME {
        return Err(wrong(alloc, name, Wrong::Form));
    }
    Ok(Some(found))
}
