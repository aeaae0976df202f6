//! What a hand asks for.
use city_members::sequence::Sequence;
use city_members::text::{Id, Text};
use city_model::script::Script;

/// The id of a request, as the hand wrote it, if it has one. It comes back with each answer.
pub type Tag = Option<Text>;

/// What a hand asks for.
#[derive(Drop)]
pub enum Request {
    /// To run a whole script.
    Script(Script),
    /// To begin a transaction of this name. Its commands follow one by one.
    Begin(Text),
    /// To do the first command of this script in the open transaction; a `Commit` or an `Abort` ends it.
    Do(Script),
    /// To commit the open transaction.
    Commit,
    /// To abort the hand's work.
    Abort,
    /// To be told each change from now on.
    Watch,
    /// To be told no changes any more.
    Unwatch,
    /// To see these objects as they are committed.
    Look(Sequence<Id>),
    /// To see the model as it is committed.
    Model,
    /// To abort the hand's work, and to be forgotten.
    Bye,
}
