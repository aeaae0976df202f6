//! The viewers of a run, each on a thread of its own.
ghost use Rattle.std.specs.Prelude.{◌≡◌, ◌≤◌, ◌<◌, All, length, IfNone, IfOk};
ghost use Rattle.city_model.specs.SerialEnds.{commits_in};
ghost use Rattle.city_crew.specs.Rising.{Rises, last_of};
ghost use Rattle.city_crew.specs.Seen.{AreSeen};

use crate::fault::CrewFault;
use crate::gate::Gate;
use crate::seen_edits::SeenEdits;
use city_board::Viewer;
use city_model::OutOfMemory;
use city_model::end::{End, Outcome};
use std::alloc::Global;
use std::sync::Wait;
use std::sync::atomic::{AtomicBool, Ordering};
use std::thread;

/// Looks again and again from its own thread.
///
/// The threads of a run know no more of their viewers. So the proof that a viewer may cross threads
/// is apart from theirs.
pub trait Watch: Drop {
    /// Looks until the workers have ended, or a look is refused.
    fn watch<R: Wait, G: Gate>(self, rt: &R, gate: &G, over: &AtomicBool) -> Self;
}

/// A viewer, and what it has seen.
#[derive(Drop)]
pub struct Watcher {
    number: usize,
    viewer: Viewer,
    seen: SeenEdits,
    fault: Option<CrewFault>,
}

impl Watcher {
    /// A watcher for each viewer, in their order.
    pub fn for_each(alloc: Global, viewers: Vec<Viewer>) -> Result<Vec<Watcher>, OutOfMemory> {
        let mut watchers = Vec::new(alloc);
        for viewer in viewers {
            let number = watchers.len();
            watchers.push(Watcher {
                number,
                viewer,
                seen: SeenEdits::new(alloc),
                fault: None,
            })?;
        }
        Ok(watchers)
    }

    /// Looks once, and returns the number of changes; `None` if the look was refused.
    fn look_once(self) -> (Watcher, Option<u64>)
        ensures { IfNone result.0.fault (0 < length result.0.seen) }
    {
        match self.viewer.look() {
            Err(viewer) => {
                let fault = Some(CrewFault::NoPlace);
                (
                    Watcher {
                        viewer,
                        fault,
                        ..self
                    },
                    None,
                )
            }
            Ok(look) => {
                let edits = look.edits();
                let viewer = look.leave();
                let mut watcher = Watcher { viewer, ..self };
                if watcher.seen.keep(edits).is_err() {
                    watcher.fault = Some(CrewFault::OutOfMemory);
                }
                (watcher, Some(edits))
            }
        }
    }

    /// Looks once more, after so many commits, and returns the numbers seen.
    ///
    /// Returns `Mixed` if it saw fewer or more changes at last.
    fn last_look(self, commits: u64) -> Result<Vec<u64>, CrewFault>
        ensures looked { IfOk result (λ seen. 0 < length seen.items) }
        ensures rising { IfOk result (λ seen. Rises seen.items) }
        ensures at_last { IfOk result (λ seen. last_of seen.items ≡ commits) }
    {
        let (watcher, _) = self.look_once();
        if let Some(fault) = watcher.fault {
            return Err(fault);
        }
        if watcher.seen.last() != commits {
            return Err(CrewFault::Mixed);
        }
        Ok(watcher.seen.into_vec())
    }
}

impl Watch for Watcher {
    fn watch<R: Wait, G: Gate>(self, rt: &R, gate: &G, over: &AtomicBool) -> Watcher {
        let mut watcher = self;
        for _ in rt.forever() {
            let (next, edits) = watcher.look_once();
            watcher = next;
            let Some(edits) = edits else {
                break;
            };
            gate.saw(watcher.number, edits);
            if over.load(Ordering::SeqCst) {
                break;
            }
            thread::yield_now();
        }
        watcher
    }
}

/// Has each watcher look once more, after these ends, and returns the numbers seen by each.
///
/// Returns `Mixed` if there aren't `count` watchers, or if one saw fewer or more changes at last
/// than there were commits.
pub fn last_looks(
    alloc: Global,
    watchers: Vec<Watcher>,
    count: usize,
    ends: &[End],
) -> Result<Vec<Vec<u64>>, CrewFault>
    ensures { IfOk result (λ seen. AreSeen count (commits_in ends.now) seen.items) }
{
    let commits = count_commits(ends);
    let mut seen = Vec::new(alloc);
    for watcher in watchers {
        let numbers = watcher.last_look(commits)?;
        if seen.push(numbers).is_err() {
            return Err(CrewFault::OutOfMemory);
        }
    }
    if seen.len() != count {
        return Err(CrewFault::Mixed);
    }
    Ok(seen)
}

/// The number of commits among the ends.
fn count_commits(ends: &[End]) -> u64
    ensures { result ≡ commits_in ends.now }
{
    let mut commits = 0;
    for end in ends {
        if matches!(end.outcome, Outcome::Committed) {
            commits += 1;
        }
    }
    commits
}
