//! Why a text is no program.

ghost use Rattle.std.specs.Prelude.{◌≡◌};

use std::fmt;
use thiserror::Error;

/// Why a program's text is refused at a place.
#[derive(Clone, Copy, Debug, PartialEq, Eq)]
pub enum LangErrorKind {
    /// The text ends too early.
    End,
    /// Another byte must stand here.
    Unexpected,
    /// No form begins with the word.
    UnknownForm,
    /// A parenthesis opens in 32 others.
    TooDeep,
    /// The text has more than 4,096 bytes.
    TooLong,
    /// A number has begun, and is no spelling.
    BadNumber,
    /// A quoted text has begun, and is no spelling.
    BadQuote,
    /// Bytes follow the program.
    Trailing,
    /// A space follows the last output that a program may have, the 64th.
    TooManyOutputs,
}

impl LangErrorKind {
    ghost use Rattle.tl_kind.specs.Refusals.{lang_number};

    /// 1 to 9, in the order of the kinds.
    pub fn number(self) -> u8
        ensures { result ≡ lang_number self }
    {
        match self {
            LangErrorKind::End => 1,
            LangErrorKind::Unexpected => 2,
            LangErrorKind::UnknownForm => 3,
            LangErrorKind::TooDeep => 4,
            LangErrorKind::TooLong => 5,
            LangErrorKind::BadNumber => 6,
            LangErrorKind::BadQuote => 7,
            LangErrorKind::Trailing => 8,
            LangErrorKind::TooManyOutputs => 9,
        }
    }
}

impl fmt::Display for LangErrorKind {
    fn fmt<W: fmt::Write>(&self, f: &mut fmt::Formatter<W>) -> fmt::Result {
        match self {
            LangErrorKind::End => write!(f, "the text ends too early"),
            LangErrorKind::Unexpected => write!(f, "an unexpected byte"),
            LangErrorKind::UnknownForm => write!(f, "an unknown form"),
            LangErrorKind::TooDeep => write!(f, "nested too deep"),
            LangErrorKind::TooLong => write!(f, "too long"),
            LangErrorKind::BadNumber => write!(f, "no number"),
            LangErrorKind::BadQuote => write!(f, "no quoted text"),
            LangErrorKind::Trailing => write!(f, "bytes after the program"),
            LangErrorKind::TooManyOutputs => write!(f, "too many outputs"),
        }
    }
}

/// Why a program could not be read.
#[derive(Clone, Copy, Debug, PartialEq, Eq, Error)]
pub enum LangError {
    /// The text is no program: `at` is the first byte that can't stand there, or the text's length
    /// where the text ends too early.
    #[error("{kind} at byte {at}")]
    Bad { at: usize, kind: LangErrorKind },
    #[error("out of memory")]
    NoMemory,
}
