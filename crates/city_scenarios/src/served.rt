//! Texts served as the program serves them, for the verbs `run`, `crew`, `decimals` and `texts`.
ghost use Rattle.city_options.specs.RunOptions.{AreWithin};

use crate::fault_lines::add_fault;
use crate::written::Written;
use city_crew::OpenGate;
use city_doc::FIXED_SEED;
use city_serve::serve_texts::{serve_owned, serve_texts};
use city_serve::{Device, Options, ServeFault};
use std::alloc::Global;
use std::sync::Wait;
use std::thread::Threads;

/// Serves copies of the two texts, and adds the bytes written, or the fault.
pub fn add_served<T: Threads + Wait + Sync>(
    rt: &T,
    alloc: Global,
    options: Options,
    document: &[u8],
    scripts: &[u8],
    answer: &mut Written,
)
    requires { AreWithin options }
{
    let mut written = Vec::new(alloc);
    let served = serve_copies(rt, alloc, options, document, scripts, &mut written);
    add_output(alloc, served, written.as_slice(), options.viewers, answer);
}

fn serve_copies<T: Threads + Wait + Sync>(
    rt: &T,
    alloc: Global,
    options: Options,
    document: &[u8],
    scripts: &[u8],
    written: &mut Vec<u8>,
) -> Result<Vec<Vec<u64>>, ServeFault>
    requires { AreWithin options }
{
    let (document, scripts) = (document.to_vec(alloc)?, scripts.to_vec(alloc)?);
    let mut writer = Device::new(written);
    serve_owned(
        rt,
        alloc,
        &OpenGate,
        FIXED_SEED,
        document,
        scripts,
        &mut writer,
        options,
    )
}

/// The same for two lent texts of whole numbers.
pub fn add_lent<T: Threads + Wait + Sync>(
    rt: &T,
    alloc: Global,
    options: Options,
    document: &[u8],
    scripts: &[u8],
    answer: &mut Written,
)
    requires { AreWithin options }
{
    let mut written = Vec::new(alloc);
    let (workers, viewers) = (options.workers, options.viewers);
    let mut writer = Device::new(&mut written);
    let served = serve_texts(rt, alloc, document, scripts, &mut writer, workers, viewers);
    drop(writer);
    add_output(alloc, served, written.as_slice(), viewers, answer);
}

/// Adds the bytes written, if each viewer saw all commits in the end.
fn add_output(
    alloc: Global,
    served: Result<Vec<Vec<u64>>, ServeFault>,
    written: &[u8],
    viewers: usize,
    answer: &mut Written,
) {
    match served {
        Ok(seen) if seen.len() == viewers && all_saw(seen.as_slice(), commits(written)) => {
            answer.add_lines(written)
        }
        Ok(seen) => {
            answer.add("seen: ");
            answer.show_debug(&seen);
            answer.add("\n");
        }
        Err(fault) => add_fault(alloc, &fault, answer),
    }
}

/// The number of commits in the report.
fn commits(written: &[u8]) -> u64 {
    let mut commits = 0u64;
    for line in str::from_utf8(written).unwrap_or("").lines() {
        if line.contains(r#""outcome":"committed""#) {
            commits = commits.saturating_add(1);
        }
    }
    commits
}

/// Whether each viewer's numbers rise, up to the number of commits.
pub fn all_saw(seen: &[Vec<u64>], commits: u64) -> bool {
    for numbers in seen {
        if !saw_all(numbers.as_slice(), commits) {
            return false;
        }
    }
    true
}

fn saw_all(numbers: &[u64], commits: u64) -> bool {
    let mut next = 0u64;
    for number in numbers {
        if *number < next {
            return false;
        }
        next = number.saturating_add(1);
    }
    next == commits.saturating_add(1)
}
