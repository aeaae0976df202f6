//! How the program ends.
ghost use Rattle.std.specs.Prelude.{◌≡◌};
ghost use Rattle.city_program.specs.Programs.{status_code};

/// How the program ends.
#[derive(Clone, Copy)]
pub enum Status {
    /// The request is done, and the answer written.
    Done,
    /// There was a fault, told on standard error.
    Failed,
    /// A check found faults, told on standard output.
    Faulty,
    /// The command line was refused, as told on standard error.
    Refused,
    /// A script ended refused or out of memory, and so the model was written nowhere, as requested.
    Withheld,
}

impl Status {
    /// The exit status of the process.
    pub fn code(self) -> u8
        ensures { result ≡ status_code self }
    {
        match self {
            Status::Done => 0,
            Status::Failed => 1,
            Status::Faulty => 1,
            Status::Refused => 2,
            Status::Withheld => 3,
        }
    }
}
