//! The line of a fault: an object of JSON, its members in byte order.
ghost use Rattle.std.specs.Prelude.{◌≡◌, IfOk, OnOk, string_bytes};
ghost use Rattle.serde_json.specs.Data.{put, string, number as numeral, unsigned};
ghost use Rattle.city_doc.specs.document.Faults.{rank_of};
ghost use Rattle.city_scripts.specs.AllFaults.{rank_of as script_rank_of};
ghost use Rattle.city_diagnostics.specs.Lines.{IsLineOf, IsLineOfMembers};
ghost use Rattle.city_diagnostics.specs.ModelLines.{Tells, name_of};
ghost use Rattle.city_diagnostics.specs.ScriptLines.{TellsScript, script_name_of};
ghost use Rattle.city_diagnostics.specs.Warnings.{Warns};
ghost use Rattle.city_diagnostics.specs.internal.Heads.{with_named, with_head};
ghost use Rattle.city_diagnostics.specs.internal.Heads.{with_script_named, with_place};

use city_details::{Details, Diagnostic, RefusedAt};
use city_doc::ReadFault;
use city_model::OutOfMemory;
use city_scripts::ScriptFault;
use serde_json::Value;
use std::alloc::Global;

/// The line of a fault of a document, with its newline.
pub fn document_line(
    alloc: Global,
    fault: &ReadFault,
    diagnostic: Diagnostic,
) -> Result<String, OutOfMemory>
    ensures { IfOk result (λ line. IsLineOf (Tells fault.now) (string_bytes line)) }
{
    let mut details = diagnostic.into_details()?;
    add_head(&mut details, "model", number_of(fault), name_of(fault))?;
    add_named(&mut details, fault)?;
    line_of(alloc, details)
}

/// The line of a fault of scripts, with its newline.
pub fn script_line(
    alloc: Global,
    fault: &ScriptFault,
    diagnostic: Diagnostic,
) -> Result<String, OutOfMemory>
    ensures { IfOk result (λ line. IsLineOf (TellsScript fault.now) (string_bytes line)) }
{
    let mut details = diagnostic.into_details()?;
    add_head(
        &mut details,
        "scripts",
        script_number_of(fault),
        script_name_of(fault),
    )?;
    add_script_named(&mut details, fault)?;
    line_of(alloc, details)
}

/// The line of a warning about a command of scripts, with its newline.
pub fn warning_line(
    alloc: Global,
    at: RefusedAt<'_>,
    name: &str,
    diagnostic: Diagnostic,
) -> Result<String, OutOfMemory>
    ensures { IfOk result (λ line. IsLineOf Warns (string_bytes line)) }
{
    let mut details = diagnostic.into_details()?;
    add_place(&mut details, at.script, at.command)?;
    details.text("text", "scripts")?;
    details.text("warning", name)?;
    line_of(alloc, details)
}

/// The number of a fault of a document.
fn number_of(fault: &ReadFault) -> usize
    ensures { result ≡ rank_of fault.now }
{
    match fault {
        ReadFault::OutOfMemory => 0,
        ReadFault::TooLong => 1,
        ReadFault::NotJson => 2,
        ReadFault::NotWhole => 3,
        ReadFault::NotCityJson(_) => 4,
        ReadFault::UnknownType(_) => 5,
        ReadFault::Unsupported(_, _) => 6,
        ReadFault::BadGeometry(_) => 7,
        ReadFault::BadVertex(_) => 8,
        ReadFault::BadRing(_) => 9,
        ReadFault::Relations(_) => 10,
        ReadFault::OpenShell(_) => 11,
    }
}

/// The name of a fault of a document.
fn name_of(fault: &ReadFault) -> &'static str
    ensures { result.now ≡ name_of fault.now }
{
    match fault {
        ReadFault::OutOfMemory => "OutOfMemory",
        ReadFault::TooLong => "TooLong",
        ReadFault::NotJson => "NotJson",
        ReadFault::NotWhole => "NotWhole",
        ReadFault::NotCityJson(_) => "NotCityJson",
        ReadFault::UnknownType(_) => "UnknownType",
        ReadFault::Unsupported(_, _) => "Unsupported",
        ReadFault::BadGeometry(_) => "BadGeometry",
        ReadFault::BadVertex(_) => "BadVertex",
        ReadFault::BadRing(_) => "BadRing",
        ReadFault::Relations(_) => "Relations",
        ReadFault::OpenShell(_) => "OpenShell",
    }
}

/// Adds the details of a fault of a document.
fn add_named(details: &mut Details, fault: &ReadFault) -> Result<(), OutOfMemory>
    ensures { OnOk result (details.new ≡ with_named fault.now details.old) }
{
    match fault {
        ReadFault::OutOfMemory => Ok(()),
        ReadFault::TooLong => Ok(()),
        ReadFault::NotJson => Ok(()),
        ReadFault::NotWhole => Ok(()),
        ReadFault::NotCityJson(member) => details.text("member", member.as_str()),
        ReadFault::UnknownType(id) => details.text("id", id.as_str()),
        ReadFault::Unsupported(id, name) => {
            details.text("id", id.as_str())?;
            details.text("name", name.as_str())
        }
        ReadFault::BadGeometry(id) => details.text("id", id.as_str()),
        ReadFault::BadVertex(id) => details.text("id", id.as_str()),
        ReadFault::BadRing(id) => details.text("id", id.as_str()),
        ReadFault::Relations(id) => details.text("id", id.as_str()),
        ReadFault::OpenShell(id) => details.text("id", id.as_str()),
    }
}

/// Adds the kind of the faulty text, and the fault's number and name.
fn add_head(details: &mut Details, kind: &str, number: usize, name: &str) -> Result<(), OutOfMemory>
    ensures { OnOk result (details.new ≡ with_head kind.now number name.now details.old) }
{
    details.text("text", kind)?;
    details.number("number", number)?;
    details.text("fault", name)
}

/// The line of an object with these members.
fn line_of(alloc: Global, details: Details) -> Result<String, OutOfMemory>
    ensures { IfOk result (λ line. IsLineOfMembers details (string_bytes line)) }
{
    let mut line = Value::Object(details.into_members()).to_string(alloc)?;
    line.push_str("\n")?;
    Ok(line)
}

/// The number of a fault of scripts.
fn script_number_of(fault: &ScriptFault) -> usize
    ensures { result ≡ script_rank_of fault.now }
{
    match fault {
        ScriptFault::OutOfMemory => 0,
        ScriptFault::TooLong => 1,
        ScriptFault::NotJson => 2,
        ScriptFault::NotWhole => 3,
        ScriptFault::NotScripts => 4,
        ScriptFault::BadScript(_) => 5,
        ScriptFault::TooMany => 6,
        ScriptFault::BadCommand(_, _) => 7,
        ScriptFault::BadVertex(_, _) => 8,
    }
}

/// The name of a fault of scripts.
fn script_name_of(fault: &ScriptFault) -> &'static str
    ensures { result.now ≡ script_name_of fault.now }
{
    match fault {
        ScriptFault::OutOfMemory => "OutOfMemory",
        ScriptFault::TooLong => "TooLong",
        ScriptFault::NotJson => "NotJson",
        ScriptFault::NotWhole => "NotWhole",
        ScriptFault::NotScripts => "NotScripts",
        ScriptFault::BadScript(_) => "BadScript",
        ScriptFault::TooMany => "TooMany",
        ScriptFault::BadCommand(_, _) => "BadCommand",
        ScriptFault::BadVertex(_, _) => "BadVertex",
    }
}

/// Adds the details of a fault of scripts.
fn add_script_named(details: &mut Details, fault: &ScriptFault) -> Result<(), OutOfMemory>
    ensures { OnOk result (details.new ≡ with_script_named fault.now details.old) }
{
    match fault {
        ScriptFault::OutOfMemory => Ok(()),
        ScriptFault::TooLong => Ok(()),
        ScriptFault::NotJson => Ok(()),
        ScriptFault::NotWhole => Ok(()),
        ScriptFault::NotScripts => Ok(()),
        ScriptFault::BadScript(script) => details.number("script", *script),
        ScriptFault::TooMany => Ok(()),
        ScriptFault::BadCommand(script, command) => add_place(details, *script, *command),
        ScriptFault::BadVertex(script, command) => add_place(details, *script, *command),
    }
}

/// Adds the numbers of a script and of a command in it.
fn add_place(details: &mut Details, script: usize, command: usize) -> Result<(), OutOfMemory>
    ensures { OnOk result (details.new ≡ with_place script command details.old) }
{
    details.number("script", script)?;
    details.number("command", command)
}
