//! The scripts of a list of ends, played one at a time in the order of their ends.
//!
//! A script is played by the plans of its commands on a copy of the city, kept if the script commits. If it goes back,
//! the commands before the mark are done anew, without the others. No lock, transaction or desk has a part in it.
ghost use Rattle.std.specs.Prelude.{◌≡◌, false, IfOk, OnOk};
ghost use Rattle.city_model.specs.CityMap.{object_at};
ghost use Rattle.city_model.specs.Relations.{IsSound};
ghost use Rattle.city_model.specs.Runs.{after_change};
ghost use Rattle.city_model.specs.Scripts.{is_end, is_mark};

use city_desk::{output_bytes, read_texts};
use city_doc::FIXED_SEED;
use city_members::copied::Copied;
use city_members::sequence::Sequence;
use city_members::text::Text;
use city_model::OutOfMemory;
use city_model::city::City;
use city_model::command::{Cause, Command, Reply};
use city_model::end::{End, Outcome};
use city_model::orphans::least_orphan;
use city_model::plan::{Plan, Writes, plan_of};
use city_model::script::{Script, is_end};
use std::alloc::Global;

/// Writes a change into the city.
fn write(city: &mut City, change: Writes) -> Result<(), OutOfMemory>
    ensures { OnOk result (object_at city.new.1 ≡ after_change (object_at city.old.1) change) }
{
    for (id, object) in change.into_vec() {
        match object {
            Some(object) => drop(city.set(id, object)?),
            None => drop(city.remove(&id)),
        }
    }
    Ok(())
}

/// Performs a command on the city, and returns its reply. The command is no end, and not about marks.
fn perform(alloc: Global, city: &mut City, command: &Command) -> Result<Reply, OutOfMemory>
    requires no_end { is_end command.now ≡ false }
    requires no_mark { is_mark command.now ≡ false }
    requires sound { IsSound (object_at city.old.1) }
    ensures { OnOk result (IsSound (object_at city.new.1)) }
{
    match plan_of(alloc, city, command)? {
        Plan::Refused(cause) => Ok(Reply::Refused(cause)),
        Plan::Writes(reply, change) => {
            write(city, change)?;
            Ok(reply)
        }
    }
}

/// Does an earlier command anew. Marks and ways back do nothing to the city.
fn redo(alloc: Global, city: &mut City, command: &Command) -> Result<(), OutOfMemory>
    requires { IsSound (object_at city.old.1) }
    ensures { OnOk result (IsSound (object_at city.new.1)) }
{
    match command {
        Command::Mark(_) | Command::Back(_) | Command::Commit | Command::Abort => {}
        _ => drop(perform(alloc, city, command)?),
    }
    Ok(())
}

/// The city after these commands.
fn redone(alloc: Global, opening: &City, commands: &[&Command]) -> Result<City, OutOfMemory>
    requires { IsSound (object_at opening.now.1) }
    ensures { IfOk result (λ city. IsSound (object_at city.1)) }
{
    let mut city = opening.copy(alloc)?;
    for command in commands {
        redo(alloc, &mut city, command)?;
    }
    Ok(city)
}

/// The place of the newest mark of this name.
fn newest_mark(commands: &[&Command], name: &Text) -> Option<usize> {
    let mut newest = None;
    for (place, command) in commands.iter().enumerate() {
        if let Command::Mark(other) = command {
            if *other == *name {
                newest = Some(place);
            }
        }
    }
    newest
}

/// Goes back: the commands since the newest mark of this name no longer count, and the others are done anew.
fn go_back(
    alloc: Global,
    opening: &City,
    city: &mut City,
    counted: &mut Vec<&Command>,
    name: &Text,
) -> Result<Reply, OutOfMemory>
    requires opening { IsSound (object_at opening.now.1) }
    requires sound { IsSound (object_at city.old.1) }
    ensures { OnOk result (IsSound (object_at city.new.1)) }
{
    let Some(place) = newest_mark(counted.as_slice(), name) else {
        return Ok(Reply::Refused(Cause::NoMark(name.copy(alloc)?)));
    };
    counted.truncate(place.saturating_add(1));
    *city = redone(alloc, opening, counted.as_slice())?;
    Ok(Reply::WentBack)
}

/// The reply to a command after the counted ones of its script. The command is no end.
fn reply_to(
    alloc: Global,
    opening: &City,
    city: &mut City,
    counted: &mut Vec<&Command>,
    command: &Command,
) -> Result<Reply, OutOfMemory>
    requires no_end { is_end command.now ≡ false }
    requires opening { IsSound (object_at opening.now.1) }
    requires sound { IsSound (object_at city.old.1) }
    ensures { OnOk result (IsSound (object_at city.new.1)) }
{
    match command {
        Command::Mark(_) => Ok(Reply::Marked),
        Command::Back(name) => go_back(alloc, opening, city, counted, name),
        _ => perform(alloc, city, command),
    }
}

/// The outcome of a script that ends with this command of this number.
fn ended(
    alloc: Global,
    city: &City,
    command: &Command,
    number: usize,
) -> Result<Outcome, OutOfMemory> {
    if matches!(command, Command::Abort) {
        return Ok(Outcome::Aborted);
    }
    match least_orphan(city) {
        None => Ok(Outcome::Committed),
        Some(id) => Ok(Outcome::Refused(number, Cause::Orphan(id.copy(alloc)?))),
    }
}

/// Plays the commands on a copy of the opening city, and returns the outcome. If no command ends the script, which no
/// text can say, it is out of memory.
fn play(
    alloc: Global,
    opening: &City,
    city: &mut City,
    commands: &[Command],
    replies: &mut Sequence<Reply>,
) -> Result<Outcome, OutOfMemory>
    requires opening { IsSound (object_at opening.now.1) }
    requires sound { IsSound (object_at city.old.1) }
    ensures { OnOk result (IsSound (object_at city.new.1)) }
{
    let mut counted = Vec::new(alloc);
    for (number, command) in commands.iter().enumerate() {
        if is_end(command) {
            return ended(alloc, city, command, number);
        }
        match reply_to(alloc, opening, city, &mut counted, command)? {
            Reply::Refused(cause) => return Ok(Outcome::Refused(number, cause)),
            reply => replies.push(reply)?,
        }
        counted.push(command)?;
    }
    Ok(Outcome::NoMemory(commands.len()))
}

/// Plays the commands on a copy of the city, kept if they commit.
fn play_on_copy(
    alloc: Global,
    city: &mut City,
    commands: &[Command],
    replies: &mut Sequence<Reply>,
) -> Result<Outcome, OutOfMemory>
    requires { IsSound (object_at city.old.1) }
    ensures { IsSound (object_at city.new.1) }
{
    let mut copy = city.copy(alloc)?;
    match play(alloc, city, &mut copy, commands, replies) {
        Ok(Outcome::Committed) => {
            *city = copy;
            Ok(Outcome::Committed)
        }
        other => other,
    }
}

/// Plays the script of this end on the city, and returns the new end. The city changes if the script commits. There is
/// memory for all of it, so an end out of memory isn't given again. Returns None if there is no such script.
fn end_again(alloc: Global, city: &mut City, scripts: &[Script], end: &End) -> Option<End>
    requires { IsSound (object_at city.old.1) }
    ensures { IsSound (object_at city.new.1) }
{
    let script = scripts.get(end.script)?;
    let name = script.name().copy(alloc).ok()?;
    let mut replies = Sequence::new(alloc);
    let outcome = play_on_copy(alloc, city, script.commands(), &mut replies).ok()?;
    Some(End {
        script: end.script,
        name,
        since: end.since,
        replies,
        outcome,
    })
}

/// Whether one of these ends is of the script.
fn has_end(ends: &[End], script: usize) -> bool {
    for end in ends {
        if end.script == script {
            return true;
        }
    }
    false
}

/// The output of the scripts of these ends on the city, played one at a time in this order. None if a script ends
/// twice, or its `since` is larger than the number of ends before it.
fn replay_scripts(
    alloc: Global,
    city: &mut City,
    scripts: &[Script],
    ends: &[End],
) -> Option<Vec<u8>>
    requires { IsSound (object_at city.old.1) }
{
    let mut again = Vec::new(alloc);
    for end in ends {
        if end.since > again.len() || has_end(again.as_slice(), end.script) {
            return None;
        }
        again.push(end_again(alloc, city, scripts, end)?).ok()?;
    }
    let (bytes, _) = output_bytes(alloc, FIXED_SEED, city, again.as_slice(), Vec::new(alloc)).ok()?;
    Some(bytes)
}

/// Whether the scripts of these ends, played one at a time in this order, give these bytes: the report, then the
/// model's text and a newline.
pub fn is_replayed(
    alloc: Global,
    document: &[u8],
    scripts: &[u8],
    ends: &[End],
    bytes: &[u8],
) -> bool {
    match read_texts(alloc, document, scripts) {
        Ok((city, scripts)) => gives(alloc, city, scripts.as_slice(), ends, bytes),
        Err(_) => false,
    }
}

fn gives(alloc: Global, mut city: City, scripts: &[Script], ends: &[End], bytes: &[u8]) -> bool
    requires { IsSound (object_at city.1) }
{
    match replay_scripts(alloc, &mut city, scripts, ends) {
        Some(again) => again.as_slice() == bytes,
        None => false,
    }
}
