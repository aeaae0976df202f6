//! The verbs.
use crate::board::play_board;
use crate::body::play_body;
use crate::canonical::play_canonical;
use crate::check::play_check;
use crate::command_line::CommandLines;
use crate::core_steps::play_core;
use crate::crew::{Told, play_crews};
use crate::diagnostics::{play_explain, play_lines};
use crate::document::play_document;
use crate::faults::Faults;
use crate::live_steps::play_live;
use crate::members::play_members;
use crate::named::Named;
use crate::prefixes::play_prefixes;
use crate::program::play_program;
use crate::refusals::play_why;
use crate::rewrite::play_rewrite;
use crate::run::play_run;
use crate::scenario::Scenario;
use crate::scripts::play_scripts;
use crate::seen::SeenLines;
use crate::serve::play_serve;
use crate::session_steps::play_session;
use crate::shelves::play_shelves;
use crate::steps::take_steps;
use crate::tokens::play_tokens;
use crate::turns::play_turns;
use crate::written::Written;
use city_doc::VertexPool;
use city_locks::LockTable;
use std::alloc::Global;
use std::sync::Wait;
use std::thread::Threads;

/// Plays a scenario's verb on its texts, and adds the answer. `names` are the named texts of its file.
pub fn play<T: Threads + Wait + Sync>(
    rt: &T,
    alloc: Global,
    names: &[Named],
    scenario: &Scenario,
    texts: &[&[u8]],
    answer: &mut Written,
) {
    let (verb, rest) = scenario.verb.split_once(" ").unwrap_or((scenario.verb, ""));
    let lines = scenario.lines;
    match texts {
        texts if verb == "serve" => play_serve(rt, alloc, rest, texts, answer),
        texts if verb == "cityed" => {
            play_program(rt, alloc, names, scenario.verb, texts, answer)
        }
        [] => play_alone(alloc, verb, lines, answer),
        [text] => play_text(rt, alloc, verb, rest, text, lines, answer),
        [document, scripts] => {
            play_run_verb(rt, alloc, verb, rest, document, scripts, lines, answer)
        }
        _ => answer.add_line("too many texts"),
    }
}

/// Plays a verb of no text.
fn play_alone(alloc: Global, verb: &str, lines: &str, answer: &mut Written) {
    match verb {
        "locks" => take_steps(&mut LockTable::new(alloc), alloc, lines, answer),
        "words" => take_steps(&mut CommandLines, alloc, lines, answer),
        "pool" => take_steps(&mut VertexPool::new(alloc), alloc, lines, answer),
        "faults" => take_steps(&mut Faults, alloc, lines, answer),
        "seen" => take_steps(&mut SeenLines, alloc, lines, answer),
        _ => answer.add_line("no such verb without texts"),
    }
}

/// Plays a verb of one text.
fn play_text<T: Threads + Sync>(
    rt: &T,
    alloc: Global,
    verb: &str,
    rest: &str,
    text: &[u8],
    lines: &str,
    answer: &mut Written,
) {
    match verb {
        "document" => play_document(rt, alloc, rest, text, answer),
        "prefixes" => play_prefixes(rt, alloc, false, text, answer),
        "scripts" => play_scripts(rt, alloc, rest, text, answer),
        "rewrite" => play_rewrite(alloc, text, answer),
        "scriptprefixes" => play_prefixes(rt, alloc, true, text, answer),
        "canonical" => play_canonical(alloc, text, answer),
        "body" => play_body(alloc, text, answer),
        "members" => play_members(alloc, rest, text, answer),
        "tokens" => play_tokens(rt, alloc, rest, text, answer),
        "check" => play_check(alloc, rest, text, answer),
        "lines" => play_lines(alloc, rest, text, answer),
        "explain" => play_explain(alloc, rest, text, answer),
        "core" => play_core(alloc, text, lines, answer),
        "live" => play_live(alloc, text, lines, answer),
        "session" => play_session(alloc, text, lines, answer),
        _ => answer.add_line("no such verb of one text"),
    }
}

/// Plays a verb of a document and scripts.
fn play_run_verb<T: Threads + Wait + Sync>(
    rt: &T,
    alloc: Global,
    verb: &str,
    rest: &str,
    document: &[u8],
    scripts: &[u8],
    lines: &str,
    answer: &mut Written,
) {
    let told = match verb {
        "run" => return play_run(rt, alloc, document, scripts, answer),
        "board" => return play_board(rt, alloc, rest, document, scripts, lines, answer),
        "shelves" => return play_shelves(rt, alloc, rest, document, scripts, lines, answer),
        "turns" => return play_turns(alloc, document, scripts, lines, answer),
        "why" => return play_why(alloc, document, scripts, answer),
        "crew" => Told::Bytes,
        "decimals" => Told::Decimals,
        "replay" => Told::History,
        "model" => Told::Model,
        "texts" => Told::Lent,
        _ => return answer.add_line("no such verb of two texts"),
    };
    play_crews(rt, alloc, told, rest, document, scripts, answer)
}
