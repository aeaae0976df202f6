//! A line as a request.
use city_live::{Request, Tag};
use city_members::sequence::Sequence;
use city_members::text::{Id, Text};

/// What a line asks for.
#[derive(Drop)]
pub enum Ask {
    /// What the engine does.
    Engine(Request),
    /// One object as it is committed.
    LookAtOne(Id),
    /// Objects as they are committed. Their ids ascend in byte order, each once.
    LookAtEach(Sequence<Id>),
    /// The ids of all objects, with their types.
    Ids,
    /// The model as it is committed.
    Model,
    /// That the output has the model.
    Save,
    /// Whether a commit with this key was made.
    Made(Text),
}

/// A request.
#[derive(Drop)]
pub struct Line {
    /// Who asks.
    pub hand: Text,
    /// The JSON text of its `id`, as it was written.
    pub tag: Tag,
    /// The key of a script or a commit.
    pub key: Option<Text>,
    pub ask: Ask,
}
