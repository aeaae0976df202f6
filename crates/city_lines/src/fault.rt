//! Why a line isn't done.
use city_live::{Fault, Tag};
use city_members::text::Text;
use city_model::OutOfMemory;

/// What is wrong with a member of a line.
#[derive(Clone, Copy)]
pub enum Wrong {
    /// No request has a member of this name.
    Unknown,
    /// It stands twice.
    Twice,
    /// Its value has another form.
    Form,
    /// This request doesn't have it.
    Misplaced,
}

/// Why a line isn't done. It changes nothing.
#[derive(Drop)]
pub enum LineFault {
    /// It isn't one JSON object in UTF-8, or nests too deep; so many bytes of it were read.
    NotJson(usize),
    /// It has more bytes than `MAX_LINE`.
    TooLong,
    /// It has no `hand`.
    NoHand,
    /// It asks for nothing.
    NoRequest,
    /// It asks for two things.
    TwoRequests,
    /// The member of this name is wrong.
    BadMember(Text, Wrong),
    /// Its script or its command is refused. This is the line that `check_scripts` has for the first fault.
    Refused(Vec<u8>),
    /// Memory ran out before anything was done.
    NoMemory,
    /// The journal or the output couldn't be written.
    CannotWrite,
    /// A save without an output.
    NoOutput,
    /// The engine doesn't do it.
    Engine(Fault),
}

impl From<OutOfMemory> for LineFault {
    ghost use Rattle.std.specs.Prelude.{◌≡◌};
    ghost use Rattle.city_lines.specs.declared.fault.LineFault.{LineFault};

    ghost from_gives = { λ _ f. f ≡ LineFault.NoMemory };

    fn from(_: OutOfMemory) -> LineFault {
        LineFault::NoMemory
    }
}

/// A line that isn't done, with its hand and its `id` as far as they are known.
#[derive(Drop)]
pub struct LineError {
    pub hand: Option<Text>,
    pub tag: Tag,
    pub fault: LineFault,
}

impl LineError {
    /// A line of no known hand.
    pub fn unnamed(fault: LineFault) -> LineError {
        LineError {
            hand: None,
            tag: None,
            fault,
        }
    }
}
