//! What a line asks for.
ghost use Rattle.std.specs.Prelude.{◌≡◌, ℕ, List, Option, IfOk, option_map};
ghost use Rattle.city_lines.specs.declared.members.Member.{Member};
ghost use Rattle.city_lines.specs.Requests.{IsString, Asks, AsksEngine, AskedBy};
ghost use Rattle.city_lines.specs.declared.name.Name.TheVariants as names;

use crate::fault::{LineFault, Wrong};
use crate::line::Ask;
use crate::members::{Member, Members};
use crate::name::Name;
use crate::scripts::{command_in, script_in};
use crate::values::{in_order, text_in, text_of, texts_in, truth_in};
use city_live::Request;
use city_members::text::Text;
use json::Scratch;
use std::alloc::Global;

/// A member that is wrong.
pub fn wrong(alloc: Global, name: Name, wrong: Wrong) -> LineFault {
    match text_of(alloc, name.as_str()) {
        Ok(name) => LineFault::BadMember(name, wrong),
        Err(_) => LineFault::NoMemory,
    }
}

/// What the members ask for.
pub fn ask_of(alloc: Global, members: &Members<'_>, scratch: &mut Scratch) -> Result<Ask, LineFault>
    ensures { IfOk result (λ a. AskedBy members.now.list.items a) }
{
    let request = members.request()?;
    if members.find(Name::Key).is_some() && !matches!(request.name, Name::Script | Name::Commit) {
        return Err(wrong(alloc, Name::Key, Wrong::Misplaced));
    }
    let vertices = members.find(Name::Vertices);
    if vertices.is_some() && !matches!(request.name, Name::Do) {
        return Err(wrong(alloc, Name::Vertices, Wrong::Misplaced));
    }
    request_of(alloc, request, vertices, scratch)
}

/// What a request asks for.
fn request_of(
    alloc: Global,
    request: Member<'_>,
    vertices: Option<&str>,
    scratch: &mut Scratch,
) -> Result<Ask, LineFault>
    ensures { IfOk result (λ a. Asks request.entry (option_map (λ v. v.now) vertices.entry) a) }
{
    let Member { name, text } = request;
    match name {
        Name::Script => Ok(Ask::Engine(Request::Script(script_in(alloc, text)?))),
        Name::Do => Ok(Ask::Engine(act_of(alloc, text, vertices, scratch)?)),
        Name::Begin => {
            let begun = needed_text(alloc, request, scratch)?;
            Ok(Ask::Engine(Request::Begin(begun)))
        }
        Name::Made => Ok(Ask::Made(needed_text(alloc, request, scratch)?)),
        Name::Watch => match truth_in(text, scratch)? {
            Some(true) => Ok(Ask::Engine(Request::Watch)),
            Some(false) => Ok(Ask::Engine(Request::Unwatch)),
            None => Err(wrong(alloc, name, Wrong::Form)),
        },
        Name::Look => look_of(alloc, text, scratch),
        _ => plain_request(alloc, request, vertices, scratch),
    }
}

/// What a request asks for whose value is `true`.
fn plain_request(
    alloc: Global,
    request: Member<'_>,
    vertices: Option<&str>,
    scratch: &mut Scratch,
) -> Result<Ask, LineFault>
    ensures { IfOk result (λ a. Asks request.entry (option_map (λ v. v.now) vertices.entry) a) }
{
    let Member { name, text } = request;
    let Some(true) = truth_in(text, scratch)? else {
        return Err(wrong(alloc, name, Wrong::Form));
    };
    match name {
        Name::Commit => Ok(Ask::Engine(Request::Commit)),
        Name::Abort => Ok(Ask::Engine(Request::Abort)),
        Name::Bye => Ok(Ask::Engine(Request::Bye)),
        Name::Ids => Ok(Ask::Ids),
        Name::Model => Ok(Ask::Model),
        Name::Save => Ok(Ask::Save),
        _ => Err(LineFault::NoRequest),
    }
}

/// The text that a member's value has to be.
pub fn needed_text(
    alloc: Global,
    member: Member<'_>,
    scratch: &mut Scratch,
) -> Result<Text, LineFault>
    ensures { IfOk result (λ s. IsString member.entry.text.now s) }
{
    match text_in(alloc, member.text, scratch)? {
        Some(text) => Ok(text),
        None => Err(wrong(alloc, member.name, Wrong::Form)),
    }
}

/// A command in a transaction. Its words `commit` and `abort` end it.
fn act_of(
    alloc: Global,
    text: &str,
    vertices: Option<&str>,
    scratch: &mut Scratch,
) -> Result<Request, LineFault>
    ensures { IfOk result (λ r. (m : Member) → m.name ≡ names.Do → m.text.now ≡ text.now
        → AsksEngine m (option_map (λ v. v.now) vertices.entry) r) }
{
    if let Some(word) = text_in(alloc, text, scratch)? {
        match word.as_str() {
            "commit" => return Ok(Request::Commit),
            "abort" => return Ok(Request::Abort),
            _ => {}
        }
    }
    Ok(Request::Do(command_in(alloc, text, vertices)?))
}

/// A look at an object, or at several.
fn look_of(alloc: Global, text: &str, scratch: &mut Scratch) -> Result<Ask, LineFault>
    ensures { IfOk result (λ a. (m : Member) (vertices : Option (List ℕ)) → m.name ≡ names.Look → m.text.now ≡ text.now
        → Asks m vertices a) }
{
    if let Some(id) = text_in(alloc, text, scratch)? {
        return Ok(Ask::LookAtOne(id));
    }
    match texts_in(alloc, text, scratch)? {
        Some(ids) => Ok(Ask::LookAtEach(in_order(ids))),
        None => Err(wrong(alloc, Name::Look, Wrong::Form)),
    }
}
