//! The names of members.
ghost use Rattle.std.specs.Prelude.{◌≡◌, ◌≢◌, IfSome};
ghost use Rattle.std.specs.Bool.{MatchBool};
ghost use Rattle.city_lines.specs.Members.{name_text, is_request};

/// The name of a line's member.
#[derive(Clone, Copy, PartialEq, Eq)]
pub enum Name {
    Hand,
    Id,
    Key,
    Vertices,
    Script,
    Begin,
    Do,
    Commit,
    Abort,
    Watch,
    Look,
    Ids,
    Model,
    Save,
    Made,
    Bye,
}

impl Name {
    /// The name written so, if it is one.
    pub fn of(text: &str) -> Option<Name>
        ensures { IfSome result (λ name. name_text name ≡ text.now) }
    {
        match text {
            "hand" => Some(Name::Hand),
            "id" => Some(Name::Id),
            "key" => Some(Name::Key),
            "vertices" => Some(Name::Vertices),
            "script" => Some(Name::Script),
            "begin" => Some(Name::Begin),
            "do" => Some(Name::Do),
            "commit" => Some(Name::Commit),
            "abort" => Some(Name::Abort),
            "watch" => Some(Name::Watch),
            "look" => Some(Name::Look),
            "ids" => Some(Name::Ids),
            "model" => Some(Name::Model),
            "save" => Some(Name::Save),
            "made" => Some(Name::Made),
            "bye" => Some(Name::Bye),
            _ => None,
        }
    }

    /// How it is written.
    pub fn as_str(self) -> &'static str
        ensures { result.now ≡ name_text self }
    {
        match self {
            Name::Hand => "hand",
            Name::Id => "id",
            Name::Key => "key",
            Name::Vertices => "vertices",
            Name::Script => "script",
            Name::Begin => "begin",
            Name::Do => "do",
            Name::Commit => "commit",
            Name::Abort => "abort",
            Name::Watch => "watch",
            Name::Look => "look",
            Name::Ids => "ids",
            Name::Model => "model",
            Name::Save => "save",
            Name::Made => "made",
            Name::Bye => "bye",
        }
    }

    /// Whether it is this one.
    pub fn is(self, other: Name) -> bool
        ensures { MatchBool result (self ≡ other) (self ≢ other) }
    {
        self == other
    }

    /// Whether a member of this name asks for something.
    pub fn is_request(self) -> bool
        ensures { result ≡ is_request self }
    {
        !matches!(self, Name::Hand | Name::Id | Name::Key | Name::Vertices)
    }
}
