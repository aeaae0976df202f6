//! The commands of a work.
use city_members::sequence::Sequence;
use city_model::command::{Cause, Reply};
use city_model::script::Script;

/// The commands of a work.
#[derive(Drop)]
pub enum Task {
    /// A whole script, the replies to its commands so far, and why the next was refused, if it was.
    Script(Script, Sequence<Reply>, Option<Cause>),
    /// A transaction with commands one by one: a script for its next, the first of this.
    Single(Option<Script>),
}
