//! Writes the end of a script.
ghost use Rattle.std.specs.Prelude.{◌≡◌, ◌++◌, OnOk, option_map};
ghost use Rattle.serde_json.specs.Data.{no_members};
ghost use Rattle.city_writer.specs.report.Ends.{cause_name, cause_member, put_text, outcome_name, put_refusal};
ghost use Rattle.city_writer.specs.report.Ends.{put_ending};
ghost use Rattle.city_writer.specs.report.Ends.{end_data};
ghost use Rattle.city_writer.specs.tree.Tokens.{tokens_of};
ghost use Rattle.city_writer.specs.internal.tree.PartTokens.{tokens_of_members};

use crate::report::reply::write_replies;
use city_model::OutOfMemory;
use city_model::command::Cause;
use city_model::end::{End, Outcome};
use json::Writer;
use std::alloc::Global;

/// The name of a cause.
fn cause_name(cause: &Cause) -> &'static str
    ensures { result.now ≡ cause_name cause.now }
{
    match cause {
        Cause::NoObject(_) => "NoObject",
        Cause::TypeFixed(_) => "TypeFixed",
        Cause::HasChildren(_) => "HasChildren",
        Cause::WrongFamily => "WrongFamily",
        Cause::AlreadyAttached => "AlreadyAttached",
        Cause::NotAttached => "NotAttached",
        Cause::ShortRing => "ShortRing",
        Cause::SameTwice => "SameTwice",
        Cause::OpenShell => "OpenShell",
        Cause::Orphan(_) => "Orphan",
        Cause::NoMark(_) => "NoMark",
        Cause::Exists(_) => "Exists",
        Cause::BadAttributes(_) => "BadAttributes",
        Cause::Unexpected(_) => "Unexpected",
    }
}

/// The member of a cause that names something: an object by its id, a mark by its name.
fn cause_member(cause: &Cause) -> Option<(&'static str, &str)>
    ensures { option_map (λ m. (m.0.now, m.1.now)) result ≡ cause_member cause.now }
{
    match cause {
        Cause::NoObject(id) => Some(("id", id.as_str())),
        Cause::TypeFixed(id) => Some(("id", id.as_str())),
        Cause::HasChildren(id) => Some(("id", id.as_str())),
        Cause::Orphan(id) => Some(("id", id.as_str())),
        Cause::NoMark(name) => Some(("mark", name.as_str())),
        Cause::Exists(id) => Some(("id", id.as_str())),
        Cause::BadAttributes(id) => Some(("id", id.as_str())),
        Cause::Unexpected(id) => Some(("id", id.as_str())),
        Cause::WrongFamily => None,
        Cause::AlreadyAttached => None,
        Cause::NotAttached => None,
        Cause::ShortRing => None,
        Cause::SameTwice => None,
        Cause::OpenShell => None,
    }
}

/// Writes the member of a cause that names something, if there is one.
fn write_named(cause: &Cause, out: &mut Writer) -> Result<(), OutOfMemory>
    ensures before { OnOk result (out.new.before ≡ out.old.before) }
    ensures tokens { OnOk result (out.new.tokens
        ≡ out.old.tokens ++ tokens_of_members (put_text (cause_member cause.now) no_members)) }
{
    match cause_member(cause) {
        None => Ok(()),
        Some((member, text)) => {
            out.key(member)?;
            out.string(text)
        }
    }
}

/// Writes the number of the refused command, the cause, and the member of the cause.
pub fn write_refusal(at: usize, cause: &Cause, out: &mut Writer) -> Result<(), OutOfMemory>
    ensures before { OnOk result (out.new.before ≡ out.old.before) }
    ensures tokens { OnOk result (out.new.tokens
        ≡ out.old.tokens ++ tokens_of_members (put_refusal at cause.now no_members)) }
{
    out.key("at")?;
    out.u64(at as u64)?;
    out.key("cause")?;
    out.string(cause_name(cause))?;
    write_named(cause, out)
}

/// The name of an outcome.
pub fn outcome_name(outcome: &Outcome) -> &'static str
    ensures { result.now ≡ outcome_name outcome.now }
{
    match outcome {
        Outcome::Committed => "committed",
        Outcome::Aborted => "aborted",
        Outcome::Refused(_, _) => "refused",
        Outcome::NoMemory(_) => "nomemory",
    }
}

/// Writes the members of an outcome about the command that ended the script.
pub fn write_ending(outcome: &Outcome, out: &mut Writer) -> Result<(), OutOfMemory>
    ensures before { OnOk result (out.new.before ≡ out.old.before) }
    ensures tokens { OnOk result (out.new.tokens
        ≡ out.old.tokens ++ tokens_of_members (put_ending outcome.now no_members)) }
{
    match outcome {
        Outcome::Committed => Ok(()),
        Outcome::Aborted => Ok(()),
        Outcome::Refused(at, cause) => write_refusal(*at, cause, out),
        Outcome::NoMemory(at) => {
            out.key("at")?;
            out.u64(*at as u64)
        }
    }
}

/// Writes an end.
pub fn write_end(alloc: Global, seed: u64, end: &End, out: &mut Writer) -> Result<(), OutOfMemory>
    ensures before { OnOk result (out.new.before ≡ out.old.before) }
    ensures tokens { OnOk result (out.new.tokens ≡ out.old.tokens ++ tokens_of (end_data end.now)) }
{
    out.begin_object()?;
    write_ending(&end.outcome, out)?;
    out.key("name")?;
    out.string(end.name.as_str())?;
    out.key("outcome")?;
    out.string(outcome_name(&end.outcome))?;
    out.key("replies")?;
    write_replies(alloc, seed, end.replies.as_slice(), out)?;
    out.key("script")?;
    out.u64(end.script as u64)?;
    out.key("since")?;
    out.u64(end.since as u64)?;
    out.end_object()
}
