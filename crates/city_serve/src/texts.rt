//! The two texts at work, as long as they are needed.
ghost use Rattle.std.specs.Prelude.{◌≡◌, []};
ghost use Rattle.city_model.specs.CityMap.{object_at};
ghost use Rattle.city_model.specs.Relations.{IsLawful};
ghost use Rattle.city_serve.specs.declared.texts.Stage.{Stage};
ghost use Rattle.city_serve.specs.Stages.{is_unread, is_given};

use city_members::copied::Copied;
use city_model::city::City;
use city_session::Session;
use std::alloc::Global;
use std::mem::replace;

/// How far a text has come.
#[derive(Clone, Copy)]
pub enum Stage {
    /// It isn't there yet.
    Unread,
    /// It is as it was given.
    Given,
    /// Its numbers are encoded.
    Encoded,
}

/// A text, and how far it has come.
#[derive(Drop)]
pub struct Text {
    pub bytes: Vec<u8>,
    pub stage: Stage,
}

impl Text {
    /// A text not there yet.
    pub fn unread(alloc: Global) -> Text
        ensures bytes { result.bytes.items ≡ [] }
        ensures stage { result.stage ≡ Stage.Unread }
    {
        Text {
            bytes: Vec::new(alloc),
            stage: Stage::Unread,
        }
    }

    /// A text as it was given.
    pub fn given(bytes: Vec<u8>) -> Text
        ensures bytes { result.bytes ≡ bytes }
        ensures stage { result.stage ≡ Stage.Given }
    {
        Text {
            bytes,
            stage: Stage::Given,
        }
    }

    /// Whether it isn't there yet.
    pub fn is_unread(&self) -> bool
        ensures { result ≡ is_unread self.now.stage }
    {
        matches!(self.stage, Stage::Unread)
    }

    /// Whether it is as it was given.
    pub fn is_given(&self) -> bool
        ensures { result ≡ is_given self.now.stage }
    {
        matches!(self.stage, Stage::Given)
    }

    /// Gives its memory back. It has come as far as before.
    pub fn let_go(&mut self, alloc: Global)
        ensures bytes { self.new.bytes.items ≡ [] }
        ensures stage { self.new.stage ≡ self.old.stage }
    {
        self.bytes = Vec::new(alloc);
    }
}

/// A document and scripts, lent to a run or a check. It lets them go once it has read them. A
/// refused text stays, so its fault can be explained.
#[derive(Drop)]
pub struct Texts {
    pub document: Text,
    pub scripts: Text,
    /// Whether the scripts that are refused when they run will be explained: then the scripts stay, and the
    /// city is kept as it was.
    pub explained: bool,
    /// A session on the city as it was read, if that is kept and there was memory for it.
    pub before: Option<Session>,
}

impl Texts {
    /// Texts not there yet.
    pub fn unread(alloc: Global) -> Texts {
        Texts {
            document: Text::unread(alloc),
            scripts: Text::unread(alloc),
            explained: false,
            before: None,
        }
    }

    /// Texts as they were given.
    pub fn given(document: Vec<u8>, scripts: Vec<u8>) -> Texts
        ensures document { result.document.bytes ≡ document }
        ensures scripts { result.scripts.bytes ≡ scripts }
    {
        Texts {
            document: Text::given(document),
            scripts: Text::given(scripts),
            explained: false,
            before: None,
        }
    }

    /// Keeps a city as it is, to explain the scripts that it refuses. If memory is short for that, they
    /// aren't explained. The copy shares the objects' contents.
    pub(crate) fn keep(&mut self, alloc: Global, city: &City)
        requires { IsLawful (object_at city.now.1) }
        ensures document { self.new.document ≡ self.old.document }
        ensures scripts { self.new.scripts ≡ self.old.scripts }
    {
        if self.explained {
            if let Ok(copy) = city.copy(alloc) {
                self.before = Some(Session::open(alloc, copy));
            }
        }
    }

    /// Gives back the memory of the scripts, unless they are to stay, and hands over that of the document.
    pub(crate) fn take_memory(&mut self, alloc: Global) -> Vec<u8> {
        if !self.explained {
            self.scripts.let_go(alloc);
        }
        replace(&mut self.document.bytes, Vec::new(alloc))
    }
}
