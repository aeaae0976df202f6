//! How a script ended.
use crate::command::{Cause, Reply};
use city_members::sequence::Sequence;
use city_members::text::Text;

/// How a script ended. A number is the place, from 0, of the command that ended it.
#[derive(Drop)]
pub enum Outcome {
    Committed,
    Aborted,
    /// A command was refused.
    Refused(usize, Cause),
    /// A command ran out of memory.
    NoMemory(usize),
}

/// The end of a script.
#[derive(Drop)]
pub struct End {
    /// The number of the script, from 0.
    pub script: usize,
    /// The script's name.
    pub name: Text,
    /// How many ends there were when the script began its last attempt.
    pub since: usize,
    /// The replies to the commands before the ending one.
    pub replies: Sequence<Reply>,
    pub outcome: Outcome,
}
