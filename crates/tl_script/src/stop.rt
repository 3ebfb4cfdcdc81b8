//! Why reading stops.

ghost use Rattle.std.specs.Prelude.{◌≡◌};
ghost use Rattle.tl_script.specs.declared.stop.Stop.TheVariants.{NoMemory};

use crate::bad_kind::BadKind;
use std::alloc::{AllocError, AllocFailed};

/// Why a reader stops: what it reads is refused, or memory ran out.
#[derive(Debug, Drop)]
pub(crate) enum Stop {
    Refused(BadKind),
    NoMemory,
}

impl From<AllocError> for Stop {
    ghost from_gives = { λ _ e. e ≡ NoMemory };

    fn from(_error: AllocError) -> Stop {
        Stop::NoMemory
    }
}

impl<T: Drop> From<AllocFailed<T>> for Stop {
    ghost from_gives = { λ _ e. e ≡ NoMemory };

    fn from(_failed: AllocFailed<T>) -> Stop {
        Stop::NoMemory
    }
}
