//! How a run is done, and where its output goes.

/// The workers and viewers of a run, its form of numbers, and how its faults are told.
#[derive(Clone, Copy)]
pub struct Options {
    /// From 1 to `MAX_WORKERS`.
    pub workers: usize,
    /// From 0 to `MAX_VIEWERS`.
    pub viewers: usize,
    /// Whether numbers of any form are taken, and given back as they were written.
    pub decimals: bool,
    /// Whether a fault is told with its place and the repair.
    pub explain: bool,
}

/// The most seconds that a run waits for its output file: a day.
pub const MAX_WAIT: usize = 86_400;

/// Where the output of a run goes, and how much of it does.
#[derive(Clone, Copy)]
pub struct Destination<'a> {
    /// The path of the model's output file. Without one the model follows the report.
    pub file: Option<&'a str>,
    /// Whether the model goes there only if no script ended refused or out of memory.
    pub atomic: bool,
    /// Whether the report alone is written, and the model nowhere.
    pub report_only: bool,
    /// For how many seconds to wait for the file, if another run holds it. From 0 to `MAX_WAIT`.
    pub wait: usize,
}
