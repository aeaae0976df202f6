//! Reads kept JSON values.
ghost use Rattle.std.specs.Prelude.{◌≡◌, IfSome};
ghost use Rattle.serde_json.specs.Data.{Data, put};
ghost use Rattle.serde_json.specs.View.{members_view};
ghost use Rattle.city_members.specs.internal.KeptValues.{value_data};
ghost use Rattle.city_tokens.specs.internal.Taken.{IsValue, IsRestOfArray, IsRestOfObject};

use city_members::kept::few_members::FewMembers;
use city_members::kept::kept_items::KeptItems;
use city_members::kept::kept_value::KeptValue;
use city_members::kept::members_builder::MembersBuilder;
use city_reader::{Reader, whole_of};
use json::Token;
use serde_json::{Map, Number, Value};
use std::alloc::Global;

/// For how many items a kept array has room at first.
const FEW: usize = 2;

/// The next value, if its arrays and objects nest no deeper than `depth`. Inlined: most are small.
#[cycle(value)]
#[inline(always)]
pub fn read_value(alloc: Global, reader: &mut Reader<'_>, depth: usize) -> Option<KeptValue>
    ensures { IfSome result (λ v. IsValue depth reader.old (value_data v) reader.new) }
{
    if let Some(n) = reader.take_whole() {
        return Some(KeptValue::Number(Number::from(n)));
    }
    match reader.next()? {
        Token::Null => Some(KeptValue::Null),
        Token::Bool(b) => Some(KeptValue::Bool(b)),
        Token::Number(text) => {
            let n = whole_of(text)?;
            Some(KeptValue::Number(Number::from(n)))
        }
        Token::String(text) => {
            let copy = String::from_str(alloc, text).ok()?;
            Some(KeptValue::String(copy))
        }
        Token::BeginArray => {
            if depth == 0 {
                return None;
            }
            let items = read_items(alloc, reader, depth - 1)?;
            Some(KeptValue::Array(items))
        }
        Token::BeginObject => {
            if depth == 0 {
                return None;
            }
            let members = read_members(alloc, reader, depth - 1)?;
            Some(KeptValue::Object(members))
        }
        Token::EndObject | Token::EndArray | Token::Key(_) | Token::Bad => None,
    }
}

/// The items up to the closing bracket.
#[cycle(value)]
fn read_items(alloc: Global, reader: &mut Reader<'_>, depth: usize) -> Option<KeptItems>
    ensures { IfSome result (λ items. IsRestOfArray depth reader.old items reader.new) }
{
    let mut found = Vec::with_capacity(alloc, FEW).ok()?;
    'items: while !reader.take_end_array() {
        let item = read_value(alloc, reader, depth)?;
        found.push(item).ok()?;
    }
    found.shrink_to_fit();
    Some(KeptItems::from_vec(found))
}

/// The members up to the closing brace.
#[cycle(value)]
pub fn read_members(alloc: Global, reader: &mut Reader<'_>, depth: usize) -> Option<FewMembers>
    ensures { IfSome result (λ members. IsRestOfObject depth reader.old members reader.new) }
{
    let mut found = MembersBuilder::new(alloc);
    'members: while let Some(name) = reader.next_key()? {
        let key = String::from_str(alloc, name).ok()?;
        let member = read_value(alloc, reader, depth)?;
        found = found.with(alloc, key, member).ok()?;
    }
    found.finish(alloc).ok()
}

/// Reads the value of a member, after its name, and puts it among the others.
pub fn read_member(
    alloc: Global,
    name: &str,
    reader: &mut Reader<'_>,
    depth: usize,
    members: &mut Map<String, Value>,
) -> Option<()>
    ensures { IfSome result (λ _. (d : Data) × IsValue depth reader.old d reader.new
        × (members_view members.new.entries ≡ put name.now d (members_view members.old.entries))) }
{
    let key = String::from_str(alloc, name).ok()?;
    let member = read_value(alloc, reader, depth)?;
    let member = member.into_value(alloc).ok()?;
    drop(members.insert(key, member).ok()?);
    Some(())
}
