//! Reads arrays into lists.
ghost use Rattle.std.specs.Prelude.{◌≡◌, ◌++◌, List, IfSome};
ghost use Rattle.serde_json.specs.Data.{Data};
ghost use Rattle.serde_json.specs.View.{items_of};
ghost use Rattle.city_tokens.specs.internal.Standing.{Pairs, IsArrayOf, IsReadAs};
ghost use Rattle.city_tokens.specs.internal.Taken.{IsRestOfArray};

use city_members::sequence::Sequence;
use city_reader::Reader;
use json::Token;
use std::alloc::Global;

/// The room of a list that mostly has one item, as a surface has one ring and a solid one shell.
const ONE: usize = 1;

/// The room of a list that mostly has several items, as a shell has surfaces.
const SEVERAL: usize = 8;

/// A value built from its tokens, without a tree.
pub trait FromTokens: Sized + Drop {
    ghost stands: { Self → Data → Type 0 };

    /// For how many items a list has room at first.
    const ROOM: usize;

    /// The next value; `None` if it is of another form.
    fn from_tokens(alloc: Global, reader: &mut Reader<'_>, depth: usize) -> Option<Self>
        ensures { IfSome result (λ x. IsReadAs stands x depth reader.old reader.new) };
}

/// Reads the items up to the closing bracket, after the ones already read.
pub(crate) fn read_rest<T: FromTokens>(
    alloc: Global,
    reader: &mut Reader<'_>,
    depth: usize,
    read: Vec<T>,
) -> Option<Sequence<T>>
    ensures { IfSome result (λ all. (more : List T) × (ds : List Data)
        × (all ≡ read.items ++ more) × Pairs T.stands more ds
        × IsRestOfArray depth reader.old (items_of ds) reader.new) }
{
    let mut all = read;
    'items: while !reader.take_end_array() {
        let one = T::from_tokens(alloc, reader, depth)?;
        all.push(one).ok()?;
    }
    all.shrink_to_fit();
    Some(Sequence::from_vec(all))
}

impl<T: FromTokens> FromTokens for Sequence<T> {
    const ROOM: usize = if T::ROOM == ONE { SEVERAL } else { ONE };

    ghost stands = { IsArrayOf T.stands };

    fn from_tokens(alloc: Global, reader: &mut Reader<'_>, depth: usize) -> Option<Sequence<T>> {
        let Token::BeginArray = reader.next()? else {
            return None;
        };
        if depth == 0 {
            return None;
        }
        let room = Vec::with_capacity(alloc, T::ROOM).ok()?;
        read_rest(alloc, reader, depth - 1, room)
    }
}
