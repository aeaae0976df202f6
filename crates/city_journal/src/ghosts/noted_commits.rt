//! The commits noted so far, for contracts only.
ghost use Rattle.std.specs.Prelude.{◌≡◌, ◌++◌, ◌∷◌, []};
ghost use Rattle.city_live.specs.Entering.{noted_by};

use crate::ghosts::no_rule::NoRule;
use city_live::Entry;
use city_members::sequence::Sequence;
use city_members::text::Text;
use city_model::command::Command;
use logbook::{Opening as FirstEntries, Seen, Start};
use std::marker::Model;

/// A commit as it is noted, for contracts only.
#[derive(Drop)]
pub struct NotedCommit {
    by: Text,
    name: Text,
    version: u64,
    commands: Sequence<Command>,
}

impl Model for NotedCommit {
    ghost use Rattle.city_live.specs.Noting.{Noted};
    ghost use Rattle.city_journal.specs.internal.Journaled.{noted_code};

    ghost Value = { Noted };

    ghost coded = { noted_code };

    ghost view = { λ c. record { by = c.by; name = c.name; version = c.version; commands = c.commands } };
}

/// The first entries of `NotedCommits::none`.
pub struct NoCommits;

impl FirstEntries<(), NotedCommit> for NoCommits {
    ghost use Rattle.std.specs.Prelude.{[]};

    ghost log = { λ count about. [] };
}

/// Commits, and one more.
#[derive(Clone, Copy)]
pub struct WithCommit<'a> {
    commits: &'a NotedCommits,
    entry: &'a Entry<'a>,
}

/// The first entries of `NotedCommits::and`.
pub struct OneCommit;

impl<'a> FirstEntries<WithCommit<'a>, NotedCommit> for OneCommit {
    ghost use Rattle.std.specs.Prelude.{◌++◌, ◌∷◌, []};
    ghost use Rattle.city_live.specs.Entering.{noted_by};

    ghost log = { λ count with. with.commits.now ++ noted_by with.entry.now ∷ [] };
}

/// The commits noted so far, oldest first. It is zero-sized; contracts see them.
#[derive(Drop)]
pub struct NotedCommits {
    seen: Seen<NotedCommit, u64, NoRule>,
}

impl Model for NotedCommits {
    ghost use Rattle.std.specs.Prelude.{List};
    ghost use Rattle.std.specs.Coded.{coded_list};
    ghost use Rattle.city_live.specs.Noting.{Noted};
    ghost use Rattle.city_journal.specs.internal.Journaled.{noted_code};

    ghost Value = { List Noted };

    ghost coded = { coded_list noted_code };

    ghost view = { λ c. c.seen.log };
}

impl NotedCommits {
    /// None.
    pub fn none() -> NotedCommits
        ensures { result ≡ [] }
    {
        let (seen, _pens) = Seen::open_row::<(), NoCommits>(&(), Start::alone(), 0);
        NotedCommits { seen }
    }

    /// These, and one more.
    pub fn and(&self, entry: &Entry<'_>) -> NotedCommits
        ensures { result ≡ self.now ++ noted_by entry.now ∷ [] }
    {
        let with = WithCommit {
            commits: self,
            entry,
        };
        let (seen, _pens) = Seen::open_row::<WithCommit<'_>, OneCommit>(&with, Start::alone(), 0);
        NotedCommits { seen }
    }
}
