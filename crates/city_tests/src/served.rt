//! Runs through a gate. The program's runs go through the same function, with the open gate.
ghost use Rattle.std.specs.Prelude.{◌≤◌};

use city_crew::Gate;
use city_doc::FIXED_SEED;
use city_model::OutOfMemory;
use city_serve::serve_texts::serve_owned;
use city_serve::{Device, Options};
use std::alloc::Global;
use std::fmt::{self, Display, Formatter, Write};
use std::sync::Wait;
use std::thread::Threads;

/// A document without objects.
pub const EMPTY: &str = model!("{}", "[]");

/// Two scripts, the first of two commands before its commit.
pub const TWO: &str = concat!(
    r#"[{"name":"a","commands":[{"put":"x","object":{"type":"Road"}},"#,
    r#"{"put":"w","object":{"type":"Road"}},"commit"]},"#,
    r#"{"name":"b","commands":[{"put":"y","object":{"type":"Road"}},"commit"]}]"#
);

/// The text of so many scripts: number n puts the road `rn` and commits.
#[derive(Clone, Copy)]
struct ScriptsOfRoads(usize);

impl Display for ScriptsOfRoads {
    fn fmt<W: Write>(&self, f: &mut Formatter<W>) -> fmt::Result {
        for n in 0..self.0 {
            f.write_str(if n == 0 { "[" } else { "," })?;
            write!(
                f,
                r#"{{"name":"r{n}","commands":[{{"put":"r{n}","object":{{"type":"Road"}}}},"commit"]}}"#
            )?;
        }
        f.write_str("]")
    }
}

pub fn scripts_of_roads(alloc: Global, count: usize) -> Result<String, OutOfMemory> {
    let scripts = ScriptsOfRoads(count);
    format!(in alloc; "{scripts}")
}

/// The output of a run, and the numbers seen by each viewer, as `[[0, 1]]`; None if it isn't served.
pub fn served<R: Threads + Wait + Sync, G: Gate + Sync>(
    rt: &R,
    alloc: Global,
    gate: &G,
    texts: (&str, &str),
    workers: usize,
    viewers: usize,
) -> Option<(String, String)>
    requires workers { (1 ≤ workers) × (workers ≤ 16) }
    requires viewers { viewers ≤ 4 }
{
    let document = texts.0.as_bytes().to_vec(alloc).ok()?;
    let scripts = texts.1.as_bytes().to_vec(alloc).ok()?;
    let options = Options {
        workers,
        viewers,
        decimals: false,
        explain: false,
    };
    let mut written = Vec::new(alloc);
    let mut writer = Device::new(&mut written);
    let seen = serve_owned(
        rt,
        alloc,
        gate,
        FIXED_SEED,
        document,
        scripts,
        &mut writer,
        options,
    );
    drop(writer);
    told(alloc, written.as_slice(), seen.ok()?.as_slice())
}

fn told(alloc: Global, written: &[u8], seen: &[Vec<u64>]) -> Option<(String, String)> {
    let text = str::from_utf8(written).ok()?.to_string(alloc).ok()?;
    let seen = format!(in alloc; "{seen:?}").ok()?;
    Some((text, seen))
}

/// The number of commits in the report.
pub fn commits(text: &str) -> usize {
    text.lines()
        .filter(|line| line.contains(r#""outcome":"committed""#))
        .count()
}
