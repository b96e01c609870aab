// How a run ends.
ghost use Rattle.std.specs.Prelude.{◌≡◌};

/// How a run ends. Source: this project's own.
#[derive(Clone, Copy, Debug, PartialEq, Eq)]
pub enum Status {
    /// The run came to its end, and nothing was refused.
    Done,
    /// The run came to its end, and something was refused.
    Refused,
    /// The arguments are in no stated form, and the usage line was given whole.
    Usage,
    /// The source failed. Nothing was printed.
    ReadFault,
    /// The sink failed. The outputs of some first statements were printed, and a proper prefix of the next one's.
    WriteFault,
    /// There was not enough memory. Nothing was printed, or the outputs of some first statements of a script.
    Memory,
    /// The store failed at a statement that asks it. The outputs of the statements before it were printed.
    StoreFault,
    /// The input has more than 67,108,864 bytes. Nothing was printed.
    Long,
}

impl Status {
    ghost use Rattle.blink_run.specs.StatusCode.{code_of};

    /// The number that the program ends with: 0 to 7, in the order of the declaration.
    pub fn code(self) -> u8
        ensures { result ≡ code_of self }
    {
        match self {
            Status::Done => 0,
            Status::Refused => 1,
            Status::Usage => 2,
            Status::ReadFault => 3,
            Status::WriteFault => 4,
            Status::Memory => 5,
            Status::StoreFault => 6,
            Status::Long => 7,
        }
    }
}
