//! Why a program breaks the kind rules.

ghost use Rattle.std.specs.Prelude.{◌≡◌};

use std::fmt;
use thiserror::Error;

/// Which kind rule is broken.
#[derive(Clone, Copy, Debug, PartialEq, Eq)]
pub enum KindErrorKind {
    /// The number of expressions isn't the number of outputs.
    Outputs,
    /// A name that isn't visible.
    Unbound,
    /// An expression of another kind than its form, or an output, takes.
    WrongKind,
    /// An input that isn't there.
    NoInput,
}

impl KindErrorKind {
    ghost use Rattle.tl_kind.specs.Kinds.{kind_number};

    /// 1 for the number of outputs, 2 for a name, 3 for a wrong kind, 4 for an input.
    pub fn number(self) -> u8
        ensures { result ≡ kind_number self }
    {
        match self {
            KindErrorKind::Outputs => 1,
            KindErrorKind::Unbound => 2,
            KindErrorKind::WrongKind => 3,
            KindErrorKind::NoInput => 4,
        }
    }
}

impl fmt::Display for KindErrorKind {
    fn fmt<W: fmt::Write>(&self, f: &mut fmt::Formatter<W>) -> fmt::Result {
        match self {
            KindErrorKind::Outputs => write!(f, "another number of outputs"),
            KindErrorKind::Unbound => write!(f, "an unknown name"),
            KindErrorKind::WrongKind => write!(f, "a wrong kind"),
            KindErrorKind::NoInput => write!(f, "no such input"),
        }
    }
}

/// The first kind rule, in order of the program's text, that a program breaks.
#[derive(Clone, Copy, Debug, PartialEq, Eq, Error)]
#[error("{kind}")]
pub struct KindError {
    pub kind: KindErrorKind,
}
