//! The known hands, by their names.
use crate::MAX_HANDS;
use crate::answer::{Fault, Name};
use crate::hand::{At, Hand};
use city_members::copied::Copied;
use city_members::text::Text;
use city_model::OutOfMemory;
use std::alloc::Global;
use std::collections::BTreeMap;
use std::mem::replace;
use std::sync::Arc;

/// The known hands, each at a seat of its own: all with a work, a kept age or a watch, and others that had one.
///
/// A hand that has none of them any more keeps its seat until another hand needs it.
#[derive(Drop)]
pub struct Roster {
    alloc: Global,
    seats: BTreeMap<Text, usize>,
    hands: Vec<Hand>,
    /// The seats of hands that had nothing when they were listed here. It has room for all.
    idle: Vec<usize>,
}

impl Roster {
    /// No hands. Doesn't allocate.
    pub fn new(alloc: Global) -> Roster {
        Roster {
            alloc,
            seats: BTreeMap::new(alloc),
            hands: Vec::new(alloc),
            idle: Vec::new(alloc),
        }
    }

    /// The seat of the hand of this name, if it is known. Doesn't allocate.
    pub fn find(&self, name: &Text) -> Option<usize> {
        let seat = self.seats.get(name)?;
        Some(*seat)
    }

    /// The hand at a seat, if there is one. Doesn't allocate.
    pub fn get(&self, seat: usize) -> Option<&Hand> {
        self.hands.get(seat)
    }

    /// Gives a hand that isn't known a seat. If there is none, or memory runs out, all known hands stay.
    pub fn add(&mut self, name: &Name) -> Result<usize, Fault> {
        let added = if self.hands.len() < MAX_HANDS {
            self.add_seat(name)
        } else {
            let Some(seat) = self.idle_seat() else {
                return Err(Fault::TooManyHands);
            };
            let passed = self.pass_on(seat, name);
            self.rest(seat);
            passed
        };
        match added {
            Ok(seat) => Ok(seat),
            Err(OutOfMemory) => Err(Fault::NoMemory),
        }
    }

    /// Gives a hand a new seat. If memory runs out, all known hands stay.
    fn add_seat(&mut self, name: &Name) -> Result<usize, OutOfMemory> {
        let seat = self.hands.len();
        let key = name.copy(self.alloc)?;
        let hand = Hand::new(Arc::try_clone(name)?);
        self.hands.reserve(1)?;
        self.idle.reserve(seat.saturating_add(1))?;
        self.seats.insert(key, seat)?;
        self.hands.push_reserved(hand);
        self.rest(seat);
        Ok(seat)
    }

    /// Gives a hand the listed seat of one that has nothing. If memory runs out, that one keeps it.
    fn pass_on(&mut self, seat: usize, name: &Name) -> Result<usize, OutOfMemory> {
        let key = name.copy(self.alloc)?;
        let hand = Hand::new(Arc::try_clone(name)?);
        self.seats.insert(key, seat)?;
        if let Some(known) = self.hands.get_mut(seat) {
            let before = replace(known, hand);
            self.seats.remove(&*before.name);
        }
        Ok(seat)
    }

    /// A listed seat whose hand has nothing, if there is one. Doesn't allocate.
    fn idle_seat(&mut self) -> Option<usize> {
        for _ in 0..self.idle.len() {
            let seat = self.idle.pop()?;
            if let Some(hand) = self.hands.get_mut(seat) {
                hand.is_listed = false;
                if hand.is_idle() {
                    return Some(seat);
                }
            }
        }
        None
    }

    /// Notes what the hand at a seat has, and returns what it had. Doesn't allocate.
    pub fn put_at(&mut self, seat: usize, at: At) -> At {
        let Some(hand) = self.hands.get_mut(seat) else {
            return At::Idle;
        };
        let before = replace(&mut hand.at, at);
        self.rest(seat);
        before
    }

    /// Notes whether the hand at a seat watches. Doesn't allocate.
    pub fn put_watch(&mut self, seat: usize, watches: bool) {
        if let Some(hand) = self.hands.get_mut(seat) {
            hand.watches = watches;
        }
        self.rest(seat);
    }

    /// Lists the seat, if its hand has nothing. Doesn't allocate.
    pub fn rest(&mut self, seat: usize) {
        if let Some(hand) = self.hands.get_mut(seat) {
            if hand.is_idle() && !hand.is_listed {
                hand.is_listed = self.idle.push(seat).is_ok();
            }
        }
    }
}
