ghost use Rattle.std.specs.Prelude.{◌≡◌};
ghost use Rattle.tl_run.specs.Status.{code_of};

/// How the program ends.
#[derive(Clone, Copy, Debug, PartialEq, Eq)]
pub enum Status {
    /// All was done.
    Done,
    /// The words are none that the program knows.
    BadWords,
    /// A line of the script is refused.
    BadScript,
    /// The source met a fault.
    ReadFault,
    /// The sink met a fault.
    WriteFault,
    /// Memory ran out.
    NoMemory,
    /// The input is longer than it may be.
    TooLong,
}

impl Status {
    /// The exit status: 0, 2, 3, 4, 5, 8 or 9.
    pub fn code(self) -> u8
        ensures { result ≡ code_of self }
    {
        match self {
            Status::Done => 0,
            Status::BadWords => 2,
            Status::BadScript => 3,
            Status::ReadFault => 4,
            Status::WriteFault => 5,
            Status::NoMemory => 8,
            Status::TooLong => 9,
        }
    }
}
