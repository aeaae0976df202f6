//! Reads objects: some members have places of their own, the others are kept.
ghost use Rattle.std.specs.Prelude.{◌∷◌, IfSome};
ghost use Rattle.std.specs.Bool.{MatchBool};
ghost use Rattle.json.specs.Token.{begin_object};
ghost use Rattle.serde_json.specs.Data.{Members, no_members, object};
ghost use Rattle.serde_json.specs.View.{members_view};
ghost use Rattle.city_tokens.specs.internal.Standing.{IsTaken, IsPassed};
ghost use Rattle.city_tokens.specs.internal.Taken.{IsValue, IsRestOfObject};

use crate::value::read_member;
use city_reader::Reader;
use json::Token;
use serde_json::{Map, Value};
use std::alloc::Global;

/// The members of an object read so far.
pub trait MemberVisitor: Sized + Drop {
    /// It stands for the members found; the second list has the kept ones among them.
    ghost stands: { Self → Members → Members → Type 0 };

    /// Reads the member of this name, if it has a place of its own; false if it has to be kept.
    fn visit_member(
        &mut self,
        alloc: Global,
        name: &str,
        reader: &mut Reader<'_>,
        depth: usize,
    ) -> Option<bool>
        ensures { IfSome result (λ taken. MatchBool taken
            (IsTaken stands self.old self.new name.now depth reader.old reader.new)
            (IsPassed stands self.old self.new name.now reader.old reader.new)) };
}

/// Reads the members up to the closing brace.
fn read_rest<O: MemberVisitor>(
    alloc: Global,
    reader: &mut Reader<'_>,
    depth: usize,
    start: O,
) -> Option<(O, Map<String, Value>)>
    ensures { IfSome result (λ read. (found : Members)
        × IsRestOfObject depth reader.old found reader.new
        × (O.stands start no_members no_members
        → O.stands read.0 found (members_view read.1.entries))) }
{
    let mut own = start;
    let mut kept = Map::new(alloc);
    'members: while let Some(name) = reader.next_key()? {
        let taken = own.visit_member(alloc, name, reader, depth)?;
        if taken {
            continue;
        }
        read_member(alloc, name, reader, depth, &mut kept)?;
    }
    Some((own, kept))
}

/// Reads an object after its opening brace: the visitor with its own members, and the kept ones.
pub(crate) fn read_opened<O: MemberVisitor>(
    alloc: Global,
    reader: &mut Reader<'_>,
    depth: usize,
    start: O,
) -> Option<(O, Map<String, Value>)>
    ensures { IfSome result (λ read. (found : Members)
        × IsValue depth (begin_object ∷ reader.old) (object found) reader.new
        × (O.stands start no_members no_members
        → O.stands read.0 found (members_view read.1.entries))) }
{
    if depth == 0 {
        return None;
    }
    read_rest(alloc, reader, depth - 1, start)
}

/// Reads an object: the visitor with its own members, and the kept ones.
pub fn read_object<O: MemberVisitor>(
    alloc: Global,
    reader: &mut Reader<'_>,
    depth: usize,
    start: O,
) -> Option<(O, Map<String, Value>)>
    ensures { IfSome result (λ read. (found : Members)
        × IsValue depth reader.old (object found) reader.new
        × (O.stands start no_members no_members
        → O.stands read.0 found (members_view read.1.entries))) }
{
    let Token::BeginObject = reader.next()? else {
        return None;
    };
    read_opened(alloc, reader, depth, start)
}
