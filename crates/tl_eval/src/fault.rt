ghost use Rattle.std.specs.Prelude.{◌≡◌};
ghost use Rattle.tl_eval.specs.Held.{code_of};

/// Why an evaluation ends without a value.
#[derive(Clone, Copy, Debug, PartialEq, Eq)]
pub enum Fault {
    /// A name that is not visible, or a value of another kind. A checked program never meets it.
    NoMeaning,
    NoFuel,
    TooLong,
    Overflow,
    ZeroDivisor,
    BadNumber,
    OutOfRange,
    NoKey,
    InputFault,
}

impl Fault {
    /// The fault's code.
    pub fn code(self) -> u8
        ensures { result ≡ code_of self }
    {
        self as u8
    }
}
