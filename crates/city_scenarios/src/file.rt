//! A file of scenarios.
use crate::named::{Named, meant, name_text};
use crate::play::play;
use crate::scenario::{Scenario, scenario_of};
use crate::wanted::is_wanted;
use crate::written::Written;
use city_model::OutOfMemory;
use std::alloc::Global;
use std::fs;
use std::sync::Wait;
use std::thread::Threads;

/// Plays the scenarios of a file, and prints the result. Returns whether all answers were right. `threads` is the
/// runtime again: only `main` knows that it has threads.
pub fn play_file<T: Threads + Wait + Sync>(rt: &HostRuntime, threads: &T, name: &str) -> bool {
    let Ok(text) = fs::read_to_string(rt, name) else {
        return fails(rt, name, "not read");
    };
    let mut told = Written::new(rt.alloc());
    match play_text(threads, rt.alloc(), text.as_str(), &mut told) {
        Ok(Some(count)) => println!(rt; "{name}: {count} played").is_ok(),
        Ok(None) => fails(rt, name, str::from_utf8(told.as_slice()).unwrap_or("")),
        Err(OutOfMemory) => fails(rt, name, "out of memory"),
    }
}

/// Prints the failure of a file.
fn fails(rt: &HostRuntime, name: &str, told: &str) -> bool {
    let _ = println!(rt; "{name}: {told}");
    false
}

/// Plays the scenarios of a text, and returns their number. If one fails, it is told, and the result is None.
fn play_text<T: Threads + Wait + Sync>(
    rt: &T,
    alloc: Global,
    text: &str,
    told: &mut Written,
) -> Result<Option<u64>, OutOfMemory> {
    let mut names = Vec::new(alloc);
    play_parts(rt, alloc, &mut names, text, told)
}

/// Plays the parts of a text, with an empty line between two: comments, named texts, and scenarios.
fn play_parts<'a, T: Threads + Wait + Sync>(
    rt: &T,
    alloc: Global,
    names: &mut Vec<Named<'a>>,
    text: &'a str,
    told: &mut Written,
) -> Result<Option<u64>, OutOfMemory> {
    let mut count = 0u64;
    for part in text.split("\n\n") {
        let part = part.trim();
        if let Some(lines) = part.strip_prefix("let ") {
            let named = name_text(alloc, names.as_slice(), lines)?;
            names.push(named)?;
        } else if !part.is_empty() && !part.starts_with("#") {
            if !play_part(rt, alloc, names.as_slice(), part, told)? {
                return Ok(None);
            }
            count = count.saturating_add(1);
        }
    }
    Ok(Some(count))
}

/// Plays a scenario. Returns whether its answer is right; if not, the difference is told.
fn play_part<T: Threads + Wait + Sync>(
    rt: &T,
    alloc: Global,
    names: &[Named],
    part: &str,
    told: &mut Written,
) -> Result<bool, OutOfMemory> {
    let Some(scenario) = scenario_of(part) else {
        told.add_line("no scenario:");
        told.add(part);
        return Ok(false);
    };
    let came = played(rt, alloc, names, &scenario)?;
    let wanted = wanted_of(alloc, names, scenario.lines)?;
    Ok(is_wanted(scenario.title, wanted.as_slice(), came.as_slice(), told))
}

/// The answer to a scenario.
fn played<T: Threads + Wait + Sync>(
    rt: &T,
    alloc: Global,
    names: &[Named],
    scenario: &Scenario,
) -> Result<Vec<u8>, OutOfMemory> {
    let texts = texts_of(alloc, names, scenario.texts)?;
    let mut came = Written::new(alloc);
    play(rt, alloc, names, scenario, texts.as_slice(), &mut came);
    came.whole()
}

/// The meaning of each line.
fn texts_of<'t>(
    alloc: Global,
    names: &'t [Named],
    lines: &'t str,
) -> Result<Vec<&'t [u8]>, OutOfMemory> {
    let mut texts = Vec::new(alloc);
    for line in lines.lines() {
        texts.push(meant(names, line))?;
    }
    Ok(texts)
}

/// The meaning of the lines, each ended by a newline.
fn wanted_of(alloc: Global, names: &[Named], lines: &str) -> Result<Vec<u8>, OutOfMemory> {
    let mut wanted = Written::new(alloc);
    for line in lines.lines() {
        wanted.add_bytes(meant(&*names, line));
        wanted.add("\n");
    }
    wanted.whole()
}
