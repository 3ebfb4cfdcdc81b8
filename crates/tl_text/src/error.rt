//! Why a text could not be read.

ghost use Rattle.std.specs.Prelude.{◌≡◌};
ghost use Rattle.tl_text.specs.declared.error.TextError.TheVariants.{NoMemory};

use std::alloc::{AllocError, AllocFailed};
use std::fmt;
use thiserror::Error;

/// Which form does not stand at a place.
#[derive(Clone, Copy, Debug, PartialEq, Eq)]
pub enum TextKind {
    BadNumber,
    BadQuote,
    BadPath,
    BadDigest,
}

impl TextKind {
    ghost use Rattle.tl_text.specs.Refusal.{kind_number};

    /// 1 for a number, 2 for a quoted text, 3 for a path, 4 for a digest.
    pub fn number(self) -> u8
        ensures { result ≡ kind_number self }
    {
        match self {
            TextKind::BadNumber => 1,
            TextKind::BadQuote => 2,
            TextKind::BadPath => 3,
            TextKind::BadDigest => 4,
        }
    }
}

impl fmt::Display for TextKind {
    fn fmt<W: fmt::Write>(&self, f: &mut fmt::Formatter<W>) -> fmt::Result {
        match self {
            TextKind::BadNumber => write!(f, "no number"),
            TextKind::BadQuote => write!(f, "no quoted text"),
            TextKind::BadPath => write!(f, "no path"),
            TextKind::BadDigest => write!(f, "no digest"),
        }
    }
}

/// Why a value could not be read.
#[derive(Clone, Copy, Debug, PartialEq, Eq, Error)]
pub enum TextError {
    /// No spelling stands there: `at` is the first byte of the whole text that none allows, or the
    /// text's length where the text ends too early.
    #[error("{kind} at byte {at}")]
    Bad { at: usize, kind: TextKind },
    #[error("out of memory")]
    NoMemory,
}

impl From<AllocError> for TextError {
    ghost from_gives = { λ _ e. e ≡ NoMemory };

    fn from(_error: AllocError) -> TextError {
        TextError::NoMemory
    }
}

impl<T: Drop> From<AllocFailed<T>> for TextError {
    ghost from_gives = { λ _ e. e ≡ NoMemory };

    fn from(_failed: AllocFailed<T>) -> TextError {
        TextError::NoMemory
    }
}
