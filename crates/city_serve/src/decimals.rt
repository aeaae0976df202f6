//! Runs scripts on a document, both with numbers of any form.
ghost use Rattle.std.specs.Prelude.{◌≡◌, ◌⊎◌, true, IfOk, IfErr, OnOk};
ghost use Rattle.city_model.specs.SerialEnds.{commits_in};
ghost use Rattle.city_crew.specs.Seen.{AreSeen};
ghost use Rattle.city_scheduler.specs.InTurn.{AreInTurn};
ghost use Rattle.serde_json.specs.View.{members_view};
ghost use Rattle.city_options.specs.RunOptions.{AreWithin};
ghost use Rattle.city_serve.specs.ServedTexts.{WhereAlone};
ghost use Rattle.city_serve.specs.Decimals.{IsGiven, IsDecimalsRun, IsFaultOfDecimalsRun};
ghost use Rattle.city_serve.specs.Destinations.{IsCutAt};
ghost use Rattle.city_serve.specs.declared.texts.Stage.{Stage};
ghost use Rattle.city_serve.specs.internal.Framed.{HasFrame, IsTaggedObject, three_of};
ghost use Rattle.city_serve.specs.internal.WholeTexts.{HasWholeNumbers};

use crate::run::run_whole;
use crate::texts::{Stage, Text, Texts};
use city_crew::Gate;
use city_decimals::{DecimalsFault, decode_lines, encode};
use city_desk::{Output, RunFault};
use city_doc::MAX_TEXT;
use city_members::members::{member, members_count};
use city_model::OutOfMemory;
use city_model::city::City;
use city_model::frame::Frame;
use city_options::Options;
use serde_json::{Map, Value};
use std::alloc::Global;
use std::sync::Wait;
use std::thread::Threads;

/// Runs the scripts on the document's city, both encoded, decodes the output, and gives the final
/// city, which is encoded, beside it.
///
/// Each text is let go once it is encoded. A fault is the run's, on the encoded texts. A text is
/// refused if it is too long or no JSON; no number is refused for its form.
pub(crate) fn run_decimals<R: Threads + Wait + Sync, G: Gate + Sync>(
    rt: &R,
    alloc: Global,
    gate: &G,
    seed: u64,
    texts: &mut Texts,
    options: Options,
) -> Result<(Output, City), RunFault>
    requires { AreWithin options }
    ensures ran { IfOk result (λ r.
        IsDecimalsRun texts.old.document.bytes.items texts.old.scripts.bytes.items r.0.ends r.0.bytes.items) }
    ensures in_turn { IfOk result (λ r. WhereAlone options.workers options.viewers (AreInTurn 0 r.0.ends)) }
    ensures seen { IfOk result (λ r. AreSeen options.viewers (commits_in r.0.ends) r.0.seen.items) }
    ensures cut { IfOk result (λ r. IsCutAt true r.0.ends r.0.bytes.items r.0.report) }
    ensures fault { IfErr result (IsFaultOfDecimalsRun
        texts.old.document.bytes.items texts.old.scripts.bytes.items options.workers options.viewers) }
{
    encode_text(alloc, &mut texts.document)?;
    encode_text(alloc, &mut texts.scripts)?;
    let (output, city) = run_whole(rt, alloc, gate, seed, texts, options)?;
    let Output { bytes, report, .. } = output;
    let (bytes, report) = decode_lines(alloc, bytes, report, has_frame(city.frame()))?;
    let output = Output {
        bytes,
        report,
        ..output
    };
    Ok((output, city))
}

/// Whether the transform stands in a frame: it is the identity, with an object under the tag.
fn has_frame(frame: &Frame) -> bool
    ensures { result ≡ true → HasFrame frame.now }
{
    are_all(&frame.scale, 1) && are_all(&frame.translate, 0) && is_tagged_object(frame.more.map())
}

/// Whether all three are this number.
fn are_all(triple: &[i64; 3], n: i64) -> bool
    ensures { result ≡ true → triple.now ≡ three_of n }
{
    triple[0] == n && triple[1] == n && triple[2] == n
}

/// Whether there is one member, an object under the tag.
fn is_tagged_object(members: &Map<String, Value>) -> bool
    ensures { result ≡ true → IsTaggedObject (members_view members.now.entries) }
{
    match member(members, "#") {
        Some(Value::Object(_)) => members_count(members) == 1,
        _ => false,
    }
}

/// Encodes a text in its place, and lets the given one go. If the text is too long or no JSON it
/// stays as it is: it is refused for that. Out of memory, it stays as it is too.
pub fn encode_text(alloc: Global, text: &mut Text) -> Result<(), OutOfMemory>
    ensures given { OnOk result (IsGiven text.old.bytes.items text.new.bytes.items) }
    ensures whole { OnOk result (HasWholeNumbers text.new.bytes.items) }
    ensures stage { OnOk result ((text.new.stage ≡ Stage.Encoded) ⊎ (text.new ≡ text.old)) }
    ensures kept { IfErr result (λ _. text.new ≡ text.old) }
{
    if text.bytes.len() > MAX_TEXT {
        return Ok(());
    }
    match encode(alloc, text.bytes.as_slice()) {
        Ok(encoded) => {
            text.bytes = encoded;
            text.stage = Stage::Encoded;
            Ok(())
        }
        Err(DecimalsFault::NotJson) => Ok(()),
        Err(DecimalsFault::OutOfMemory) => Err(OutOfMemory),
    }
}
