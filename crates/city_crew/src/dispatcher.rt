//! Hands out scripts under the lock of a run.
use city_scheduler::Turn;
use std::sync::Wait;

/// Hands scripts to free workers, takes their turns, and knows which worker sleeps with which
/// script.
///
/// The threads of a run know no more of what is under their lock. So the proof that it may cross
/// threads is apart from theirs.
pub trait Dispatcher: Drop {
    /// The next script to work on.
    fn take(&mut self) -> Option<usize>;

    /// Takes the next turn of a script; `AlreadyEnded` if there is no such script.
    fn turn(&mut self, script: usize) -> Turn;

    /// The number of turns that ended or killed a script.
    fn wakeups(&self) -> u64;

    /// Whether no other script under way began before this one.
    fn is_oldest(&self, script: usize) -> bool;

    /// Whether a script is short enough to run beside others.
    fn is_short(&self, script: usize) -> bool;

    /// Notes the worker as asleep with a script without replies.
    fn sleep(&mut self, worker: usize, script: usize);

    /// Whether the worker's script is the oldest.
    fn may_wake(&self, worker: usize) -> bool;

    /// Notes the worker as awake; returns the script it slept with last.
    fn wake(&mut self, worker: usize) -> Option<usize>;

    /// The worker sleeping with the oldest script.
    fn sleeper_with_oldest(&self) -> Option<usize>;

    /// If a worker sleeps with the oldest script, gives it this one instead and returns the oldest.
    fn exchange(&mut self, script: usize) -> Option<usize>;

    /// Whether viewers look on.
    fn has_viewers(&self) -> bool;

    /// Shows the change of the last script to end, if it was committed. If that is refused, a
    /// later one shows it.
    fn show_commit<R: Wait>(&mut self, rt: &R);
}
