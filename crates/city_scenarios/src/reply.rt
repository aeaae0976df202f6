//! A reply, a cause or an object by itself, as a report has it.
use crate::written::Written;
use city_doc::write_report;
use city_members::copied::Copied;
use city_members::sequence::Sequence;
use city_members::text::{Id, Text};
use city_model::OutOfMemory;
use city_model::command::{Cause, Reply};
use city_model::end::{End, Outcome};
use city_model::object::Object;
use std::alloc::Global;

/// Adds a reply, as it stands in a report: a refusal as `add_cause`.
pub fn add_reply(alloc: Global, reply: Reply, said: &mut Written) {
    match reply {
        Reply::Refused(cause) => add_cause(alloc, cause, said),
        other => add_replies(alloc, other, said),
    }
}

/// Adds a reply other than a refusal.
fn add_replies(alloc: Global, reply: Reply, said: &mut Written) {
    let mut replies = Sequence::new(alloc);
    match replies.push(reply) {
        Ok(()) => {
            let part = ("\"replies\":[", "],\"script\":");
            add_part(alloc, replies, Outcome::Committed, part, said);
        }
        Err(OutOfMemory) => said.run_out(),
    }
}

/// Adds a cause, as it stands in a report: `"cause":"NoObject","id":"z"`.
pub fn add_cause(alloc: Global, cause: Cause, said: &mut Written) {
    let (replies, outcome) = (Sequence::new(alloc), Outcome::Refused(0, cause));
    add_part(alloc, replies, outcome, ("{\"at\":0,", ",\"name\":"), said);
}

/// Adds an object, as the reply to a read has it, or `none`.
pub fn add_object(alloc: Global, object: Option<&Object>, said: &mut Written) {
    let Some(object) = object else {
        return said.add("none");
    };
    match object.copy(alloc) {
        Ok(object) => add_reply(alloc, Reply::Found(object), said),
        Err(OutOfMemory) => said.run_out(),
    }
}

/// The id in a step `seen ID`; `None` for any other step. Notes if memory runs out for it.
pub fn looked_at(alloc: Global, does: &str, said: &mut Written) -> Option<Id> {
    let id = does.strip_prefix("seen ")?;
    match id.to_string(alloc) {
        Ok(id) => Some(Text::new(id)),
        Err(_) => {
            said.run_out();
            None
        }
    }
}

/// Adds the text between two parts of the line of an end.
fn add_part(
    alloc: Global,
    replies: Sequence<Reply>,
    outcome: Outcome,
    part: (&str, &str),
    said: &mut Written,
) {
    let end = End {
        script: 0,
        name: Text::new(String::new(alloc)),
        since: 0,
        replies,
        outcome,
    };
    match write_report(alloc, &[end]) {
        Ok(report) => said.add(between(report.as_slice(), part.0, part.1)),
        Err(OutOfMemory) => said.run_out(),
    }
}

/// The text between the first `one` and the last `other` behind it.
fn between<'t>(text: &'t [u8], one: &str, other: &str) -> &'t str {
    let text = str::from_utf8(text).unwrap_or("");
    let (_, rest) = text.split_once(one).unwrap_or(("", text));
    let (inner, _) = rest.rsplit_once(other).unwrap_or((rest, ""));
    inner
}
