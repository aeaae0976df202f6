//! The errors: their numbers, names and words.
ghost use Rattle.std.specs.Prelude.{◌≡◌};
ghost use Rattle.city_lines.specs.Told.{fault_words};

use crate::fault::{LineFault, Wrong};
use city_live::Fault;

/// What is told of an error. The numbers up to 11 are those of faults of documents and of scripts.
#[derive(Clone, Copy)]
pub struct Words {
    pub number: u64,
    pub name: &'static str,
    pub message: &'static str,
}

fn worded(number: u64, name: &'static str, message: &'static str) -> Words
    ensures name { result.name.now ≡ name.now }
    ensures message { result.message.now ≡ message.now }
    ensures number { result.number ≡ number }
{
    Words {
        number,
        name,
        message,
    }
}

/// What is told of a fault of a line. A refused script has words of its own; these stand in for them.
pub fn words_of(fault: &LineFault) -> Words {
    match fault {
        LineFault::NotJson(_) => worded(
            21,
            "NotJson",
            "The line isn't one JSON object in UTF-8 that nests no deeper than 127.",
        ),
        LineFault::TooLong => worded(22, "TooLong", "The line has more than 67,108,864 bytes."),
        LineFault::NoHand => worded(23, "NoHand", "The line has no hand."),
        LineFault::NoRequest => worded(24, "NoRequest", "The line asks for nothing."),
        LineFault::TwoRequests => worded(25, "TwoRequests", "The line asks for two things."),
        LineFault::BadMember(_, wrong) => worded(26, "BadMember", message_of(*wrong)),
        LineFault::Refused(_) => worded(27, "Refused", "The script or the command isn't read."),
        LineFault::NoMemory => engine_words(Fault::NoMemory),
        LineFault::CannotWrite => engine_words(Fault::CannotWrite),
        LineFault::NoOutput => worded(35, "NoOutput", "There is no output to save to."),
        LineFault::Engine(fault) => engine_words(*fault),
    }
}

/// What is wrong with a member.
fn message_of(wrong: Wrong) -> &'static str {
    match wrong {
        Wrong::Unknown => "No request has a member of this name.",
        Wrong::Twice => "The member stands twice.",
        Wrong::Form => "The member's value has another form than it should.",
        Wrong::Misplaced => "The member doesn't go with this request.",
    }
}

/// What is told of a request that the engine doesn't do.
pub fn engine_words(fault: Fault) -> Words
    ensures { (result.name.now, (result.message.now, result.number)) ≡ fault_words fault }
{
    match fault {
        Fault::Busy => worded(28, "Busy", "An earlier request of the hand still waits."),
        Fault::NotOpen => worded(29, "NotOpen", "The hand has no open transaction."),
        Fault::AlreadyOpen => worded(30, "AlreadyOpen", "The hand has an open transaction."),
        Fault::TooMany => worded(
            31,
            "TooMany",
            "The transaction has as many commands as it may; only a commit or an abort goes on.",
        ),
        Fault::TooManyHands => worded(
            32,
            "TooManyHands",
            "As many hands as there may be have a transaction or a watch.",
        ),
        Fault::NoMemory => worded(33, "NoMemory", "Memory ran out."),
        Fault::CannotWrite => worded(
            34,
            "CannotWrite",
            "The journal or the output can't be written.",
        ),
    }
}
