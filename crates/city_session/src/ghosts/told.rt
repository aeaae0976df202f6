//! What a transaction was told, for contracts only.
ghost use Rattle.std.specs.Prelude.{◌≡◌, ◌++◌, ◌∷◌, []};

use crate::ghosts::no_rule::NoRule;
use city_model::command::{Command, Reply};
use logbook::{Opening as FirstEntries, Seen, Start};
use std::marker::Model;

/// The first entries of `Told::nothing`.
pub struct Nothing;

impl FirstEntries<(), (Command, Reply)> for Nothing {
    ghost use Rattle.std.specs.Prelude.{[]};

    ghost log = { λ count about. [] };
}

/// What was told, and one more reply.
#[derive(Clone, Copy)]
pub struct WithReply<'a> {
    told: &'a Told,
    command: &'a Command,
    reply: &'a Reply,
}

/// The first entries of `Told::with`.
pub struct OneMore;

impl<'a> FirstEntries<WithReply<'a>, (Command, Reply)> for OneMore {
    ghost use Rattle.std.specs.Prelude.{◌++◌, ◌∷◌, []};

    ghost log = { λ count with. with.told.now ++ (with.command.now, with.reply.now) ∷ [] };
}

/// Commands, each with its reply. It is zero-sized; contracts see them.
#[derive(Drop)]
pub struct Told {
    seen: Seen<(Command, Reply), u64, NoRule>,
}

impl Model for Told {
    ghost use Rattle.city_model.specs.Standing.{Answered};
    ghost use Rattle.std.specs.Prelude.{List};
    ghost use Rattle.std.specs.Coded.{codes};
    ghost use Rattle.city_members.specs.internal.DataCode.{coded_members};
    ghost use Rattle.city_txn.specs.internal.Codes.{coded_objects};

    ghost Value = { List Answered };

    ghost coded = { Prim.hlevel (codes, coded_members, coded_objects) };

    ghost view = { λ h. h.seen.log };
}

impl Told {
    /// Nothing.
    pub fn nothing() -> Told
        ensures { result ≡ [] }
    {
        let (seen, _pens) = Seen::open_row::<(), Nothing>(&(), Start::alone(), 0);
        Told { seen }
    }

    /// This, and one more reply.
    pub fn with(&self, command: &Command, reply: &Reply) -> Told
        ensures { result ≡ self.now ++ (command.now, reply.now) ∷ [] }
    {
        let with = WithReply {
            told: self,
            command,
            reply,
        };
        let (seen, _pens) = Seen::open_row::<WithReply<'_>, OneMore>(&with, Start::alone(), 0);
        Told { seen }
    }
}
