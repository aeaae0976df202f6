//! Watches, looks and models: committed things alone.
ghost use Rattle.std.specs.Prelude.{◌≡◌, All, IfOk, map};
ghost use Rattle.std.specs.Arc.{arc_value};
ghost use Rattle.city_txn.specs.CoreState.{committed};
ghost use Rattle.city_live.specs.declared.request.Request.TheVariants as requests;
ghost use Rattle.city_live.specs.Serving.{Proceeds, HasAsked};

use super::{Hands, Sender};
use crate::answer::{Fault, What};
use crate::journal::Journal;
use crate::request::Tag;
use city_members::copied::Copied;
use city_members::sequence::Sequence;
use city_members::text::Id;
use city_model::OutOfMemory;
use city_model::object::Object;

impl<J: Journal> Hands<J> {
    /// Tells the hand of each change from now on.
    #[tactic(auto, using(crate::proofs::Followed::asked_come))]
    pub(super) fn watch(&mut self, sender: &Sender, tag: Tag)
        requires { HasAsked (arc_value sender.now.name) tag requests.Watch self.old }
        ensures { Proceeds self.old self.new }
    {
        match self.seat_of(sender) {
            Ok(seat) => self.watch_at(sender, seat, tag),
            Err(fault) => self.refuse(sender, tag, fault),
        }
    }

    /// Tells the hand at a seat of each change from now on.
    #[tactic(auto, using(crate::proofs::Followed::asked_come, crate::proofs::Followed::still_same))]
    fn watch_at(&mut self, sender: &Sender, seat: usize, tag: Tag)
        requires { HasAsked (arc_value sender.now.name) tag requests.Watch self.old }
        ensures { Proceeds self.old self.new }
    {
        match self.talks.watch(&sender.name, tag) {
            Ok(()) => self.roster.put_watch(seat, true),
            Err(tag) => self.refuse(sender, tag, Fault::NoMemory),
        }
    }

    /// Tells the hand of no change any more.
    pub(super) fn unwatch(&mut self, sender: &Sender, tag: Tag)
        requires { HasAsked (arc_value sender.now.name) tag requests.Unwatch self.old }
        ensures { Proceeds self.old self.new }
    {
        if let Some(seat) = sender.seat {
            self.roster.put_watch(seat, false);
        }
        self.talks.unwatch(&sender.name, tag);
    }

    /// Tells the committed city.
    #[tactic(auto, using(crate::proofs::Followed::showing))]
    pub(super) fn show_model(&mut self, sender: &Sender, tag: Tag)
        requires { HasAsked (arc_value sender.now.name) tag requests.Model self.old }
        ensures { Proceeds self.old self.new }
    {
        let version = self.talks.version();
        self.talks.session().is_live();
        match self.talks.session().committed_city() {
            Ok(city) => self
                .talks
                .say(&sender.name, tag, What::Model(city, version)),
            Err(OutOfMemory) => self.refuse(sender, tag, Fault::NoMemory),
        }
    }

    /// Tells the committed objects of ids.
    #[tactic(auto, using(crate::proofs::Followed::looking))]
    pub(super) fn look(&mut self, sender: &Sender, tag: Tag, ids: Sequence<Id>)
        requires { HasAsked (arc_value sender.now.name) tag (requests.Look ids) self.old }
        ensures { Proceeds self.old self.new }
    {
        let version = self.talks.version();
        self.talks.session().is_live();
        match self.committed(ids) {
            Ok(objects) => self
                .talks
                .say(&sender.name, tag, What::Look(objects, version)),
            Err(OutOfMemory) => self.refuse(sender, tag, Fault::NoMemory),
        }
    }

    /// The committed objects of ids.
    fn committed(&self, ids: Sequence<Id>) -> Result<Sequence<(Id, Option<Object>)>, OutOfMemory>
        ensures seen { IfOk result (λ objects. All (λ o. o.1 ≡ committed self.now.session.core o.0) objects) }
        ensures asked { IfOk result (λ objects. map (λ o. o.0) objects ≡ ids) }
    {
        let mut objects = Sequence::with_capacity(self.alloc, ids.len())?;
        for id in ids.into_vec() {
            let object = self.committed_at(&id)?;
            objects.push((id, object))?;
        }
        Ok(objects)
    }

    /// A copy of the committed object of an id, if there is one.
    fn committed_at(&self, id: &Id) -> Result<Option<Object>, OutOfMemory>
        ensures { IfOk result (λ object. object ≡ committed self.now.session.core id.now) }
    {
        match self.talks.session().committed(id) {
            Some(object) => Ok(Some(object.copy(self.alloc)?)),
            None => Ok(None),
        }
    }
}
