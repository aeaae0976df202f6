//! The replies in a script's open transaction, in preallocated room.
ghost use Rattle.std.specs.Prelude.{◌≡◌, ◌<◌, ◌++◌, ◌∷◌, [], length, IfOk};

use city_members::sequence::Sequence;
use city_model::OutOfMemory;
use city_model::command::Reply;
use std::alloc::Global;
use std::marker::Model;

/// A list of replies with fixed room. Contracts see the list and the room.
#[derive(Drop)]
pub struct Replies {
    items: Vec<Reply>,
}

impl Model for Replies {
    ghost use Rattle.std.specs.Prelude.{vec_capacity};
    ghost use Rattle.std.specs.Coded.{codes};
    ghost use Rattle.city_members.specs.internal.DataCode.{coded_members};
    ghost use Rattle.city_txn.specs.internal.Codes.{coded_objects};
    ghost use Rattle.city_scheduler.specs.RepliesValue.{RepliesValue};

    ghost Value = { RepliesValue };

    ghost coded = { Prim.hlevel (codes, coded_members, coded_objects) };

    ghost view = { λ r. record { list = r.items.items; room = vec_capacity r.items } };
}

impl Replies {
    /// No replies, with room for so many.
    pub fn with_room(alloc: Global, room: usize) -> Result<Replies, OutOfMemory>
        ensures { IfOk result (λ replies. replies ≡ record { list = []; room = room }) }
    {
        let items = Vec::with_capacity(alloc, room)?;
        Ok(Replies { items })
    }

    /// No replies and no room. Doesn't allocate.
    pub fn none(alloc: Global) -> Replies
        ensures { result ≡ record { list = []; room = 0 } }
    {
        Replies {
            items: Vec::new(alloc),
        }
    }

    /// The number of replies.
    pub fn len(&self) -> usize
        ensures { result ≡ length self.now.list }
    {
        self.items.len()
    }

    /// Adds a reply; there must be room for it. Doesn't allocate.
    pub fn add(&mut self, reply: Reply)
        requires { length self.old.list < self.old.room }
        ensures { self.new ≡ record self.old { list = self.old.list ++ reply ∷ [] } }
    {
        self.items.push_reserved(reply);
    }

    /// Drops the replies; the room stays. Doesn't allocate.
    pub fn clear(&mut self)
        ensures { self.new ≡ record self.old { list = [] } }
    {
        self.items.clear();
    }

    /// The replies. Doesn't allocate.
    pub fn into_sequence(self) -> Sequence<Reply>
        ensures { result ≡ self.list }
    {
        Sequence::from_vec(self.items)
    }
}
