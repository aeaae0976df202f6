//! Why a crew of workers and viewers has no output.
use city_board::board::BoardFault;
use city_desk::RunFault;
use city_model::OutOfMemory;

/// Why a run has no output though its texts were read.
#[derive(Clone, Copy, Drop)]
pub enum CrewFault {
    /// Memory ran out, or a thread couldn't be made.
    OutOfMemory,
    /// A viewer's seat or one of its looks was refused.
    NoPlace,
    /// A script had not ended when the workers had.
    Unfinished,
    /// The gathered results aren't of this run.
    Mixed,
}

impl From<OutOfMemory> for CrewFault {
    ghost use Rattle.std.specs.Prelude.{◌≡◌};
    ghost use Rattle.city_crew.specs.declared.fault.CrewFault.{CrewFault};

    ghost from_gives = { λ _ f. f ≡ CrewFault.OutOfMemory };

    fn from(_: OutOfMemory) -> CrewFault {
        CrewFault::OutOfMemory
    }
}

impl From<BoardFault> for CrewFault {
    ghost use Rattle.std.specs.Prelude.{◌≡◌};
    ghost use Rattle.city_crew.specs.internal.CrewFaults.{fault_of_board};

    ghost from_gives = { λ f r. r ≡ fault_of_board f };

    fn from(fault: BoardFault) -> CrewFault {
        match fault {
            BoardFault::OutOfMemory => CrewFault::OutOfMemory,
            BoardFault::NoPlace => CrewFault::NoPlace,
        }
    }
}

impl From<CrewFault> for RunFault {
    ghost use Rattle.std.specs.Prelude.{◌≡◌};
    ghost use Rattle.city_crew.specs.internal.CrewFaults.{fault_of_crew};

    ghost from_gives = { λ f r. r ≡ fault_of_crew f };

    fn from(fault: CrewFault) -> RunFault {
        match fault {
            CrewFault::OutOfMemory => RunFault::OutOfMemory,
            CrewFault::NoPlace => RunFault::NoPlace,
            CrewFault::Unfinished => RunFault::Unfinished,
            CrewFault::Mixed => RunFault::Mixed,
        }
    }
}
