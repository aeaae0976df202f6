//! How far the scripts are.
ghost use Rattle.std.specs.Prelude.{◌≡◌, ◌<◌, ◌++◌, ◌∷◌, ℕ, [], length, true, false, IfOk, OnOk, MatchOption};
ghost use Rattle.std.specs.Prelude.{vec_len, vec_capacity};
ghost use Rattle.city_model.specs.Scripts.{AreScripts};
ghost use Rattle.city_scheduler.specs.declared.progress.Phase.{Phase};
ghost use Rattle.city_scheduler.specs.DeskState.{progress_to, ended_progress, phase_in, is_open_phase};
ghost use Rattle.city_scheduler.specs.Opening.{unbegun_each};
ghost use Rattle.city_scheduler.specs.internal.Ready.{is_unopened, IsYoungest};

use crate::replies::Replies;
use city_members::text::Text;
use city_model::OutOfMemory;
use city_model::end::{End, Outcome};
use city_model::script::Script;
use std::alloc::Global;
use std::mem;

/// The state of a script between its turns.
#[derive(Clone, Copy)]
pub enum Phase {
    /// It has never begun.
    NotBegun,
    /// It has a stamp and no open transaction: its last attempt died.
    Idle(u64),
    /// A transaction of this stamp is open; it began after so many ends.
    Open(u64, usize),
    /// It has ended.
    Ended,
}

/// How far a script is, and the replies in its open transaction.
#[derive(Drop)]
pub struct Progress {
    pub phase: Phase,
    pub replies: Replies,
}

impl Progress {
    /// Drops the replies and keeps the stamp. The room for replies stays.
    pub(crate) fn die(&mut self, stamp: u64)
        ensures { self.new ≡ progress_to (Phase.Idle stamp) [] self.old.replies.room }
    {
        self.replies.clear();
        self.phase = Phase::Idle(stamp);
    }

    /// Ends script n: its name and its replies go into its end. Doesn't allocate.
    pub(crate) fn record_end(
        &mut self,
        alloc: Global,
        ends: &mut Vec<End>,
        name: &mut Text,
        n: usize,
        since: usize,
        outcome: Outcome,
    )
        requires { vec_len ends.old < vec_capacity ends.old }
        ensures ends { ends.new.items ≡ ends.old.items ++ (record { script = n; name = name.old; since = since; replies = self.old.replies.list; outcome = outcome }) ∷ [] }
        ensures room { vec_capacity ends.new ≡ vec_capacity ends.old }
        ensures progress { self.new ≡ ended_progress }
    {
        let replies = mem::replace(&mut self.replies, Replies::none(alloc)).into_sequence();
        let name = mem::replace(name, Text::new(String::new(alloc)));
        self.phase = Phase::Ended;
        ends.push_reserved(End {
            script: n,
            name,
            since,
            replies,
            outcome,
        });
    }
}

/// The progress of each script, none begun, with room for its replies.
pub fn unbegun_each(alloc: Global, scripts: &[Script]) -> Result<Vec<Progress>, OutOfMemory>
    ensures progress { IfOk result (λ progress. progress.items ≡ unbegun_each scripts.now) }
    ensures scripted { OnOk result (AreScripts scripts.now) }
{
    let mut progress = Vec::with_capacity(alloc, scripts.len())?;
    for script in scripts {
        let replies = Replies::with_room(alloc, script.commands().len())?;
        progress.push(Progress {
            phase: Phase::NotBegun,
            replies,
        })?;
    }
    Ok(progress)
}

/// A script neither ended nor with an open transaction, if there is one.
pub fn unopened(progress: &[Progress]) -> Option<usize>
    ensures { MatchOption result ((k : ℕ) → is_unopened (phase_in progress.now k) ≡ false)
        (λ n. (n < length progress.now) × (is_unopened (phase_in progress.now n) ≡ true)) }
{
    for (n, script) in progress.iter().enumerate() {
        match script.phase {
            Phase::NotBegun | Phase::Idle(_) => return Some(n),
            Phase::Open(_, _) | Phase::Ended => {}
        }
    }
    None
}

/// The script with the youngest open transaction, if any is open.
pub fn youngest(progress: &[Progress]) -> Option<usize>
    ensures { MatchOption result ((k : ℕ) → is_open_phase (phase_in progress.now k) ≡ false)
        (λ n. (n < length progress.now) × IsYoungest progress.now n) }
{
    let mut found = None;
    let mut youngest = 0;
    for (n, script) in progress.iter().enumerate() {
        if let Phase::Open(stamp, _) = script.phase {
            if found.is_none() || youngest <= stamp {
                found = Some(n);
                youngest = stamp;
            }
        }
    }
    found
}
