//! An event, for contracts only.
use crate::answer::{Answer, Name};
use crate::request::{Request, Tag};
use crate::work::Work;
use city_members::text::Text;
use city_model::script::Script;

/// An event, for contracts only. Numbers are stamps.
#[derive(Drop)]
pub enum Event {
    /// A request of the hand of this name comes.
    Comes(Text, Tag, Request),
    /// A script or a transaction of a hand is begun.
    Begins(u64, Work),
    /// The hand asks its transaction for the first command of this script.
    Asks(u64, Name, Tag, Script),
    /// The hand has a request for all of its script or transaction: to run, begin or end it.
    Requests(u64, Name, Tag),
    /// An answer, of a script or a transaction or of none, and whether it is told: memory may run out.
    Says(Option<u64>, Answer, bool),
}
