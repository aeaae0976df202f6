//! The commits of a journal, made again on a city.
ghost use Rattle.std.specs.Prelude.{◌≡◌, ◌≤◌, ◌<◌, ◌++◌, ◌∷◌, [], ℕ, List, length, map, take, IfOk, IfNone, OnOk};
ghost use Rattle.std.specs.List.{AllByRecursion};
ghost use Rattle.city_live.specs.Noting.{Noted};
ghost use Rattle.city_live.specs.Replaying.{replayed};
ghost use Rattle.city_model.specs.CityMap.{CityMap, object_at};
ghost use Rattle.city_model.specs.Relations.{IsLawful};
ghost use Rattle.city_journal.specs.Encoded.{AreOfEncoded};
ghost use Rattle.city_journal.specs.Places.{IsLastPlace, place_read};
ghost use Rattle.city_journal.specs.Reads.{commit_read};
ghost use Rattle.city_journal.specs.Replays.{IsArrayOf, IsCommitted, LeadsTo, Replays, array_text, others_text};
ghost use Rattle.city_journal.specs.Replays.{scripts_of};
ghost use Rattle.city_journal.specs.Restarts.{AreScriptsOf, IsLeftOver, Restarts};

use crate::fault::JournalFault;
use crate::model_sum::ModelSum;
use crate::read::{Commit, ReadJournal};
use city_decimals::{DecimalsFault, encode};
use city_model::OutOfMemory;
use city_model::city::City;
use city_model::end::{End, Outcome};
use city_scheduler::run_each;
use city_scripts::{ScriptFault, read_scripts};
use city_tokens::MAX_SCRIPTS;
use std::alloc::Global;

/// How many bytes the scripts of one array have at most, unless it is one script alone. Encoded they have less than
/// four times as many: few enough for a text.
const MOST_BYTES: usize = 16 * 1024 * 1024 - 64;

/// The city of a restart: the commits of a journal behind the last place with this sum of the model, made again on
/// this city.
///
/// If this city is the place's, the answer is the city after all commits told, and the first of the others. With
/// `decimals` this is known of scripts read of encoded texts.
pub fn restart(
    alloc: Global,
    decimals: bool,
    city: City,
    sum: &ModelSum,
    journal: &ReadJournal<'_>,
) -> Result<City, JournalFault>
    requires { IsLawful (object_at city.1) }
    ensures committed { (base : List ℕ) (version : ℕ) (told more : List Noted) (bytes : List ℕ)
        (l : IsLeftOver decimals base version told more bytes) (r : Restarts l journal.now) (first : CityMap)
        → AreOfEncoded decimals (told ++ take r.count more)
        → ((n : ℕ) → IsLastPlace sum.now.bytes (map place_read journal.now.places.items) n
        → object_at city.1 ≡ replayed first (take n (told ++ take r.count more)))
        → IfOk result (λ c. object_at c.1 ≡ replayed first (told ++ take r.count more)) }
    ensures lawful { IfOk result (λ c. IsLawful (object_at c.1)) }
    ensures frame { IfOk result (λ c. c.0 ≡ city.0) }
{
    let commits = journal.commits_behind(sum)?;
    replay(alloc, decimals, city, commits)
}

/// Makes commits again, one after the other: in arrays of scripts; the batch program would run them to the same city.
pub fn replay(
    alloc: Global,
    decimals: bool,
    city: City,
    commits: &[Commit<'_>],
) -> Result<City, JournalFault>
    requires { IsLawful (object_at city.1) }
    ensures replayed { IfOk result (λ c. (ns : List ℕ) × Replays decimals ns (scripts_of commits.now)
        (object_at city.1) (object_at c.1)) }

    // Texts of noted commits lead to where these commits led.
    ensures noted { (ns : List Noted) → AreScriptsOf decimals (map commit_read commits.now) ns
        → AreOfEncoded decimals ns → IfOk result (λ c. object_at c.1 ≡ replayed (object_at city.1) ns) }
    ensures lawful { IfOk result (λ c. IsLawful (object_at c.1)) }
    ensures frame { IfOk result (λ c. c.0 ≡ city.0) }
{
    let mut city = city;
    let mut at: usize = 0;
    while at < commits.len() {
        let rest = &commits[at..];
        let count = batch_len(rest);
        let next = replay_some(alloc, decimals, city, &rest[..count])?;
        city = next;
        at += count;
    }
    Ok(city)
}

/// How many of the commits go into the next array: one at least.
fn batch_len(commits: &[Commit<'_>]) -> usize
    ensures least { 0 < length commits.now → 0 < result }
    ensures most { result ≤ length commits.now }
{
    let mut bytes: usize = 0;
    for (i, commit) in commits.iter().enumerate() {
        bytes = bytes.saturating_add(commit.script.len()).saturating_add(1);
        if i > 0 && (i >= MAX_SCRIPTS || bytes > MOST_BYTES) {
            return i;
        }
    }
    commits.len()
}

/// Makes the commits of one array again.
fn replay_some(
    alloc: Global,
    decimals: bool,
    city: City,
    commits: &[Commit<'_>],
) -> Result<City, JournalFault>
    requires { IsLawful (object_at city.1) }
    ensures leads { IfOk result (λ c. LeadsTo decimals (scripts_of commits.now)
        (object_at city.1) (object_at c.1)) }
    ensures lawful { IfOk result (λ c. IsLawful (object_at c.1)) }
    ensures frame { IfOk result (λ c. c.0 ≡ city.0) }
{
    let text = array_of(alloc, decimals, commits)?;
    let scripts = match read_scripts(alloc, text.as_slice()) {
        Ok(scripts) => scripts,
        Err(ScriptFault::OutOfMemory) => return Err(JournalFault::OutOfMemory),
        Err(_) => return Err(bad_commit(commits, 0)),
    };
    if scripts.len() != commits.len() {
        return Err(bad_commit(commits, 0));
    }
    drop(text);
    let finished = run_each(alloc, city, scripts)?;
    match first_uncommitted(finished.ends.as_slice()) {
        None => Ok(finished.city),
        Some((_, true)) => Err(JournalFault::OutOfMemory),
        Some((number, false)) => Err(bad_commit(commits, number)),
    }
}

/// The array of the commits' scripts; with `decimals`, encoded.
fn array_of(alloc: Global, decimals: bool, commits: &[Commit<'_>]) -> Result<Vec<u8>, JournalFault>
    ensures { IfOk result (λ text. IsArrayOf decimals (scripts_of commits.now) text.items) }
{
    let text = plain_array_of(alloc, commits)?;
    if !decimals {
        return Ok(text);
    }
    match encode(alloc, text.as_slice()) {
        Ok(text) => Ok(text),
        Err(DecimalsFault::OutOfMemory) => Err(JournalFault::OutOfMemory),
        Err(DecimalsFault::NotJson) => Err(bad_commit(commits, 0)),
    }
}

/// The array of the commits' scripts, as they stand in their lines.
fn plain_array_of(alloc: Global, commits: &[Commit<'_>]) -> Result<Vec<u8>, OutOfMemory>
    ensures { IfOk result (λ text. text.items ≡ array_text (scripts_of commits.now)) }
{
    let mut text = Vec::new(alloc);
    text.push(b'[')?;
    if let [first, others @ ..] = commits {
        text.extend_from_slice(first.script)?;
        push_others(&mut text, others)?;
    }
    text.push(b']')?;
    Ok(text)
}

/// Appends the scripts of these commits, a comma before each.
fn push_others(text: &mut Vec<u8>, commits: &[Commit<'_>]) -> Result<(), OutOfMemory>
    ensures { OnOk result (text.new.items ≡ text.old.items ++ others_text (scripts_of commits.now)) }
{
    for commit in commits {
        push_other(text, commit)?;
    }
    Ok(())
}

/// Appends a comma and the script of a commit.
fn push_other(text: &mut Vec<u8>, commit: &Commit<'_>) -> Result<(), OutOfMemory>
    ensures { OnOk result (text.new.items ≡ (text.old.items ++ 44 ∷ []) ++ commit.now.script.now) }
{
    text.push(b',')?;
    text.extend_from_slice(commit.script)?;
    Ok(())
}

/// The place of the first end that is no commit, and whether memory ran out there.
fn first_uncommitted(ends: &[End]) -> Option<(usize, bool)>
    ensures { IfNone result (AllByRecursion IsCommitted ends.now) }
{
    let mut place: usize = 0;
    for end in ends {
        match end.outcome {
            Outcome::Committed => {}
            Outcome::NoMemory(_) => return Some((place, true)),
            _ => return Some((place, false)),
        }
        place = place.saturating_add(1);
    }
    None
}

/// The fault of the commit at a place.
fn bad_commit(commits: &[Commit<'_>], place: usize) -> JournalFault {
    match commits.get(place) {
        Some(commit) => JournalFault::BadCommit(commit.version),
        None => JournalFault::BadCommit(0),
    }
}
