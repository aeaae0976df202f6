//! A journal of commits, each noted before it is made.
ghost use Rattle.std.specs.Prelude.{◌≡◌, ◌++◌, ◌∷◌, List, [], Option, None, option_map, false, OnOk, OnErr};
ghost use Rattle.city_live.specs.Noting.{Noted};
ghost use Rattle.city_live.specs.Entering.{noted_by};

use city_members::text::Text;
use city_model::script::Script;

/// What a commit did, noted before it is made.
#[derive(Clone, Copy)]
pub struct Entry<'a> {
    /// Its hand.
    pub by: &'a Text,
    /// The name of its script or transaction.
    pub name: &'a Text,
    /// The version after it.
    pub version: u64,
    pub commands: Commands<'a>,
}

/// The commands of a commit.
#[derive(Clone, Copy)]
pub enum Commands<'a> {
    /// A whole script.
    Script(&'a Script),
    /// The first command of each of these, and then a commit.
    Each(&'a [Script]),
}

/// Why a commit isn't noted.
#[derive(Clone, Copy)]
pub enum Unwritten {
    OutOfMemory,
    CannotWrite,
}

/// A journal of commits.
///
/// It may stand for a list of the commits noted so far; then it keeps commands.
pub trait Journal: Drop {
    /// The commits noted so far, oldest first; `None` if contracts don't see them.
    ghost noted: { Self → Option (List Noted) };

    /// Whether transactions keep their commands for it. Doesn't allocate.
    fn is_kept(&self) -> bool
        ensures { result ≡ false → noted self.now ≡ None };

    /// Notes a commit that is about to be made. If it can't, the commit isn't made.
    fn append(&mut self, entry: &Entry<'_>) -> Result<(), Unwritten>
        ensures ok { OnOk result (noted self.new
            ≡ option_map (λ before. before ++ noted_by entry.now ∷ []) (noted self.old)) }
        ensures err { OnErr result (noted self.new ≡ noted self.old) };
}

/// No journal: it keeps nothing.
#[derive(Clone, Copy)]
pub struct NoJournal;

impl Journal for NoJournal {
    ghost use Rattle.std.specs.Prelude.{None};

    ghost noted = { λ j. None };

    fn is_kept(&self) -> bool {
        false
    }

    fn append(&mut self, _entry: &Entry<'_>) -> Result<(), Unwritten> {
        Ok(())
    }
}
