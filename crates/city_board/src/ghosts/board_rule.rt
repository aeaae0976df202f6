//! The rule of a board, over the knowledge of its poster and viewers.
use crate::history::History;
use crate::version::Version;
use atomic_table::{Join, Split};
use city_scheduler::OpeningCity;
use crossbeam_utils::rule::{Outcome, Protocol};

/// The knowledge of a viewer or the poster about its board. It exists for the proofs only.
pub struct Known {
    /// Whether a version was seen yet.
    pub met: bool,
    pub opening: OpeningCity,
    pub history: History,
}

/// No version is older than anybody's knowledge.
pub struct BoardRule;

impl Protocol<Version, Known> for BoardRule {
    ghost use Rattle.city_board.specs.internal.BoardRule.{MeetsRule, newcomer};

    ghost holds = { MeetsRule };

    ghost first = { newcomer };
}

/// Whoever publishes a version or begins to look at one has seen it.
pub struct SeesVersion;

impl Outcome<Version, Known> for SeesVersion {
    ghost use Rattle.city_board.specs.internal.BoardRule.{Sees};

    ghost then = { Sees };
}

/// Tells everything one knows.
pub struct TellsAll;

impl Split<Known> for TellsAll {
    ghost left = { λ known. known };

    ghost right = { λ known. known };
}

/// Replaces one's knowledge by what one is told.
pub struct BelievesAll;

impl Join<Known> for BelievesAll {
    ghost use Rattle.city_board.specs.internal.BoardRule.{newcomer};

    ghost both = { λ known told. told };

    ghost spent = { newcomer };
}
