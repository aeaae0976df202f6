//! The shelf of a run.
ghost use Rattle.std.specs.Prelude.{◌≡◌, ◌≤◌, [], IfOk, IfSome};
ghost use Rattle.city_model.specs.CityMap.{object_at};
ghost use Rattle.city_model.specs.Relations.{IsLawful};
ghost use Rattle.city_crew.specs.Limits.{max_viewers};

use crate::fault::CrewFault;
use city_board::board::board;
use city_board::{Poster, Viewer};
use city_members::copied::Copied;
use city_model::OutOfMemory;
use city_model::change::Change;
use city_model::city::City;
use city_scheduler::{NullShelf, Shelf};
use city_txn::Core;
use std::alloc::Global;
use std::sync::Wait;

/// Takes the changes of a run's commits: onto a board if there are viewers, and nowhere otherwise.
#[derive(Drop)]
pub enum CrewShelf<R: Wait + Drop> {
    Unseen(NullShelf),
    Posted(Poster<R>),
}

impl<R: Wait + Drop> CrewShelf<R> {
    ghost use Rattle.city_crew.specs.internal.CrewShelves.{taken_by, base_of};

    /// A shelf for changes of the city, and the viewers of its board. Without viewers there is no
    /// board.
    pub fn new(
        rt: R,
        alloc: Global,
        city: &City,
        viewers: usize,
    ) -> Result<(CrewShelf<R>, Vec<Viewer>), CrewFault>
        requires lawful { IsLawful (object_at city.now.1) }
        requires viewers { viewers ≤ max_viewers }
        ensures empty { IfOk result (λ made. taken_by made.0 ≡ []) }
        ensures based { IfOk result (λ made. IfSome (base_of made.0) (λ base. base ≡ city.now)) }
    {
        if viewers == 0 {
            return Ok((CrewShelf::Unseen(NullShelf::new()), Vec::new(alloc)));
        }
        let copy = city.copy(alloc)?;
        let (poster, seated) = board(rt, alloc, copy, viewers)?;
        Ok((CrewShelf::Posted(poster), seated))
    }
}

impl<R: Wait + Drop> Shelf for CrewShelf<R> {
    type Note = ();

    ghost use Rattle.std.specs.Prelude.{[]};
    ghost use Rattle.city_crew.specs.internal.CrewShelves.{taken_by, base_of, published_by};

    ghost list = { taken_by };

    ghost base = { base_of };

    ghost name = { λ shelf. [] };

    ghost published = { published_by };

    ghost tells = { λ shelf note. Unit {0} };

    fn take(&mut self, change: Change) -> Result<(), OutOfMemory> {
        match self {
            CrewShelf::Unseen(shelf) => shelf.take(change),
            CrewShelf::Posted(poster) => poster.take(change),
        }
    }

    fn take_from(&mut self, core: &Core, stamp: u64) -> Result<(), OutOfMemory> {
        match self {
            CrewShelf::Unseen(shelf) => shelf.take_from(core, stamp),
            CrewShelf::Posted(poster) => poster.take_from(core, stamp),
        }
    }

    fn show<Q: Wait>(&mut self, rt: &Q) -> Result<(), OutOfMemory> {
        match self {
            CrewShelf::Unseen(shelf) => shelf.show(rt),
            CrewShelf::Posted(poster) => {
                drop(poster.show(rt)?);
                Ok(())
            }
        }
    }
}
