//! The steps taken on files, for contracts only.
ghost use Rattle.std.specs.Prelude.{◌≡◌, ◌++◌, ◌∷◌, []};

use city_members::text::Text;
use logbook::{Opening as FirstEntries, Rule, Seen, Start};

/// What a step does.
#[derive(Clone, Copy)]
pub enum Kind {
    Lock,
    Read,
    Create,
    Sync,
    LookAgain,
    Rename,
    SyncFolder,
    GiveUp,
    Unlock,
}

/// The rule of a record that never grows.
pub struct NoRule;

impl<E> Rule<E, u64> for NoRule {
    ghost use Rattle.std.specs.Prelude.{[]};
    ghost use base.Fml.{ftrue};

    ghost holds = { λ cells log. Unit {0} };

    ghost first = { [] };

    ghost hinted = { λ n log. Unit {0} };

    ghost shows = { λ log. [] };

    ghost keeps = { λ names log. ftrue };

    ghost moves = { λ ask before after answer. Unit {0} };
}

/// The first entries of `TakenSteps::none`.
pub struct NoSteps;

impl FirstEntries<(), (Kind, Text)> for NoSteps {
    ghost use Rattle.std.specs.Prelude.{[]};

    ghost log = { λ count about. [] };
}

/// Steps, and one more.
#[derive(Clone, Copy)]
pub struct WithStep<'a> {
    steps: &'a TakenSteps,
    kind: Kind,
    path: &'a str,
}

/// The first entries of `TakenSteps::with`.
pub struct OneMore;

impl<'a> FirstEntries<WithStep<'a>, (Kind, Text)> for OneMore {
    ghost use Rattle.std.specs.Prelude.{◌++◌, ◌∷◌, []};

    ghost log = { λ count with. with.steps.now.seen.log ++ (with.kind, with.path.now) ∷ [] };
}

/// The steps taken, each with a path, if it is taken for one. It is zero-sized; contracts see them.
#[derive(Drop)]
pub struct TakenSteps {
    seen: Seen<(Kind, Text), u64, NoRule>,
}

impl TakenSteps {
    /// None.
    pub fn none() -> TakenSteps
        ensures { result.seen.log ≡ [] }
    {
        let (seen, _pens) = Seen::open_row::<(), NoSteps>(&(), Start::alone(), 0);
        TakenSteps { seen }
    }

    /// These, and one more.
    pub fn with(&self, kind: Kind, path: &str) -> TakenSteps
        ensures { result.seen.log ≡ self.now.seen.log ++ (kind, path.now) ∷ [] }
    {
        let with = WithStep {
            steps: self,
            kind,
            path,
        };
        let (seen, _pens) = Seen::open_row::<WithStep<'_>, OneMore>(&with, Start::alone(), 0);
        TakenSteps { seen }
    }
}
