//! Reads arrays with items read beforehand by several workers.
ghost use Rattle.std.specs.Prelude.{◌+◌, List, IfSome};
ghost use Rattle.serde_json.specs.Data.{Data};
ghost use Rattle.serde_json.specs.View.{items_of};
ghost use Rattle.city_texts.specs.internal.Parts.{IsNextItem};
ghost use Rattle.city_texts.specs.internal.Runs.{IsRun};
ghost use Rattle.city_tokens.specs.internal.Standing.{Pairs, IsArrayOf, IsReadAs};
ghost use Rattle.city_tokens.specs.internal.Taken.{IsRestOfArray};

use crate::run::Run;
use city_members::sequence::Sequence;
use city_reader::Reader;
use city_tokens::list::FromTokens;
use json::Token;
use std::alloc::Global;

/// Reads the items up to the closing bracket, but for the items of `text` read beforehand.
fn rest_of_items<T: FromTokens>(
    alloc: Global,
    reader: &mut Reader<'_>,
    depth: usize,
    text: &str,
    run: &mut Run<T>,
) -> Option<Sequence<T>>
    requires { IsRun (IsNextItem T.stands depth) text.now run.old }
    ensures left { IsRun (IsNextItem T.stands depth) text.now run.new }
    ensures read { IfSome result (λ xs. (ds : List Data) × Pairs T.stands xs ds
        × IsRestOfArray depth reader.old (items_of ds) reader.new) }
{
    let mut items = Vec::new(alloc);
    'items: while !reader.take_end_array() {
        let item = T::from_tokens(alloc, reader, depth)?;
        items.push(item).ok()?;
        run.pass(alloc, text, reader, &mut items)?;
    }
    items.shrink_to_fit();
    Some(Sequence::from_vec(items))
}

/// The next value, an array of items nested so deep; the items of `text` in `run` were read
/// beforehand.
pub fn read_items<T: FromTokens>(
    alloc: Global,
    reader: &mut Reader<'_>,
    depth: usize,
    text: &str,
    run: &mut Run<T>,
) -> Option<Sequence<T>>
    requires { IsRun (IsNextItem T.stands depth) text.now run.old }
    ensures left { IsRun (IsNextItem T.stands depth) text.now run.new }
    ensures read { IfSome result
        (λ xs. IsReadAs (IsArrayOf T.stands) xs (depth + 1) reader.old reader.new) }
{
    let Token::BeginArray = reader.next()? else {
        return None;
    };
    rest_of_items(alloc, reader, depth, text, run)
}
