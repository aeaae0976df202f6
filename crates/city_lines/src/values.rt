//! The values of members.
ghost use Rattle.std.specs.Prelude.{◌≡◌, ◌++◌, [], ◌∷◌, IfOk, IfSome, map};
ghost use Rattle.json.specs.Lex.{tokens};
ghost use Rattle.json.specs.Token.{string, boolean, begin_array, end_array};

use city_members::sequence::Sequence;
use city_members::text::{Id, Text};
use city_model::OutOfMemory;
use json::{Reader, Scratch, Token};
use std::alloc::Global;

/// A copy of a text.
pub fn text_of(alloc: Global, text: &str) -> Result<Text, OutOfMemory>
    ensures { IfOk result (λ copy. copy ≡ text.now) }
{
    let copy = String::from_str(alloc, text)?;
    Ok(Text::new(copy))
}

/// The text that a JSON text is, if it is one.
pub fn text_in(
    alloc: Global,
    text: &str,
    scratch: &mut Scratch,
) -> Result<Option<Text>, OutOfMemory>
    ensures { IfOk result (λ o. IfSome o (λ found. tokens text.now ≡ string found ∷ [])) }
{
    let mut reader = Reader::new(text, scratch)?;
    let Some(Token::String(found)) = reader.next() else {
        return Ok(None);
    };
    if reader.next().is_some() {
        return Ok(None);
    }
    Ok(Some(text_of(alloc, found)?))
}

/// Whether a JSON text is `true` or `false`, if it is one of them.
pub fn truth_in(text: &str, scratch: &mut Scratch) -> Result<Option<bool>, OutOfMemory>
    ensures { IfOk result (λ o. IfSome o (λ found. tokens text.now ≡ boolean found ∷ [])) }
{
    let mut reader = Reader::new(text, scratch)?;
    let Some(Token::Bool(found)) = reader.next() else {
        return Ok(None);
    };
    if reader.next().is_some() {
        return Ok(None);
    }
    Ok(Some(found))
}

/// The texts of an array, if a JSON text is an array of texts.
pub fn texts_in(
    alloc: Global,
    text: &str,
    scratch: &mut Scratch,
) -> Result<Option<Vec<Id>>, OutOfMemory>
    ensures { IfOk result (λ o. IfSome o (λ found.
        tokens text.now ≡ begin_array ∷ (map string found.items ++ end_array ∷ []))) }
{
    let mut reader = Reader::new(text, scratch)?;
    let Some(Token::BeginArray) = reader.next() else {
        return Ok(None);
    };
    let mut found = Vec::new(alloc);
    for _ in 0..=text.len() {
        match reader.next() {
            Some(Token::String(item)) => found.push(text_of(alloc, item)?)?,
            Some(Token::EndArray) => {
                if reader.next().is_some() {
                    return Ok(None);
                }
                return Ok(Some(found));
            }
            _ => return Ok(None),
        }
    }
    Ok(None)
}

/// The ids in byte order, each once.
pub fn in_order(ids: Vec<Id>) -> Sequence<Id> {
    let mut ids = ids;
    ids.sort_unstable();
    ids.dedup();
    Sequence::from_vec(ids)
}
