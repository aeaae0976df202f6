//! Reads whole texts of scripts.
ghost use Rattle.std.specs.Prelude.{◌≡◌, [], true, Some, IfSome};
ghost use Rattle.serde_json.specs.Data.{Data};
ghost use Rattle.city_members.specs.Integral.{is_integral};
ghost use Rattle.city_texts.specs.internal.Parts.{IsNextScript};
ghost use Rattle.city_texts.specs.internal.Runs.{IsRun};
ghost use Rattle.city_tokens.specs.internal.Scripts.{IsScript};
ghost use Rattle.city_tokens.specs.internal.Standing.{IsArrayOf, IsReadAs as IsValueReadAs};
ghost use Rattle.city_tokens.specs.script.Scripts.{IsReadAs, scripts_of};
ghost use Rattle.city_tokens.specs.tree.Texts.{HasTree};

use crate::cuts::cuts_of_scripts;
use crate::items::read_items;
use crate::part::SCRIPT_DEPTH;
use crate::pieces::Pieces;
use crate::run::{Run, read_pieces};
use city_members::sequence::Sequence;
use city_model::script::Script;
use city_reader::Reader;
use city_tokens::whole_text::read_whole_text;
use city_tokens::{MAX_SCRIPTS, MAX_TEXT};
use std::alloc::Global;
use std::thread::Threads;

/// The scripts of an array, if there aren't too many.
fn if_few(scripts: Sequence<Script>) -> Option<Sequence<Script>>
    ensures { IfSome result (λ ss. (d : Data) → IsArrayOf IsScript scripts d → scripts_of d ≡ Some ss) }
{
    if scripts.len() > MAX_SCRIPTS {
        return None;
    }
    Some(scripts)
}

/// The scripts of a text; `None` if anything about the text is odd, or memory runs out.
pub fn streamed_scripts(alloc: Global, bytes: &[u8]) -> Option<Sequence<Script>>
    ensures { IfSome result (λ ss. IsReadAs bytes.now ss) }
{
    let scripts = read_whole_text::<Sequence<Script>>(alloc, bytes)?;
    if_few(scripts)
}

/// The scripts of all the tokens of a text; the run's were read beforehand.
fn read_array(
    alloc: Global,
    reader: &mut Reader<'_>,
    text: &str,
    run: Run<Script>,
) -> Option<Sequence<Script>>
    requires { IsRun IsNextScript text.now run }
    ensures { IfSome result (λ ss. IsValueReadAs (IsArrayOf IsScript) ss 127 reader.old []) }
{
    let mut run = run;
    let scripts = read_items(alloc, reader, SCRIPT_DEPTH, text, &mut run)?;
    if !reader.is_at_end() || !run.is_passed() {
        return None;
    }
    Some(scripts)
}

/// The scripts of a text, an array with pieces read by so many threads.
fn array_in_pieces<R: Threads + Sync>(
    rt: &R,
    alloc: Global,
    bytes: &[u8],
    pieces: Pieces,
) -> Option<Sequence<Script>>
    ensures { IfSome result (λ ss. (d : Data) × HasTree bytes.now d × (is_integral d ≡ true)
        × IsArrayOf IsScript ss d) }
{
    if bytes.len() > MAX_TEXT {
        return None;
    }
    let Ok(text) = simdutf8::compat::from_utf8(bytes) else {
        return None;
    };
    let cuts = cuts_of_scripts(alloc, text, pieces)?;
    let run = read_pieces(rt, alloc, text, &cuts)?;
    // Where cuts were found, the text has no escape.
    let mut reader = Reader::plain(text);
    let scripts = read_array(alloc, &mut reader, text, run)?;
    Some(scripts)
}

/// The scripts of a text, with pieces read by so many threads; `None` also if it can't be cut, or
/// was cut at wrong places.
pub fn scripts_in_pieces<R: Threads + Sync>(
    rt: &R,
    alloc: Global,
    bytes: &[u8],
    pieces: Pieces,
) -> Option<Sequence<Script>>
    ensures { IfSome result (λ ss. IsReadAs bytes.now ss) }
{
    let scripts = array_in_pieces(rt, alloc, bytes, pieces)?;
    if_few(scripts)
}

/// The scripts of a text, as `streamed_scripts` gives them; so many threads read a large text, in
/// pieces.
pub fn streamed_scripts_by<R: Threads + Sync>(
    rt: &R,
    alloc: Global,
    bytes: &[u8],
    pieces: Pieces,
) -> Option<Sequence<Script>>
    ensures { IfSome result (λ ss. IsReadAs bytes.now ss) }
{
    match scripts_in_pieces(rt, alloc, bytes, pieces) {
        Some(scripts) => Some(scripts),
        None => streamed_scripts(alloc, bytes),
    }
}
