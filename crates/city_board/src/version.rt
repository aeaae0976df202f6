//! A version of the city, for viewers to look at and the poster to write.
use crate::apply::apply;
use crate::history::History;
use city_members::copied::Copied;
use city_model::OutOfMemory;
use city_model::change::Change;
use city_model::city::City;
use city_scheduler::OpeningCity;
use left_right::Absorb;
use std::alloc::Global;

/// The city after the changes of `history`.
#[derive(Drop)]
pub struct Version {
    pub alloc: Global,
    pub city: City,
    pub opening: OpeningCity,
    pub history: History,
}

/// A change, and the history up to it.
#[derive(Drop)]
pub struct Edit {
    pub change: Change,
    pub history: History,
}

impl Absorb<Edit> for Version {
    type State = Version;

    ghost use Rattle.city_board.specs.internal.Versions.{edited};

    ghost state = { λ version. version };

    ghost applied = { edited };

    fn absorb_first(&mut self, edit: &Edit, _other: &Version) -> Result<(), OutOfMemory> {
        let change = edit.change.copy(self.alloc)?;
        if apply(self.alloc, &mut self.city, change).is_err() {
            return Err(OutOfMemory);
        }
        self.history = edit.history.again();
        Ok(())
    }

    fn absorb_second(&mut self, edit: Edit, _other: &Version) -> Result<(), Edit> {
        let Edit { change, history } = edit;
        match apply(self.alloc, &mut self.city, change) {
            Ok(()) => {
                self.history = history;
                Ok(())
            }
            Err(change) => Err(Edit { change, history }),
        }
    }
}
