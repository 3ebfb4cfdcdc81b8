//! Why reading stops.

ghost use Rattle.std.specs.Prelude.{◌≡◌};
ghost use Rattle.tl_reading.specs.declared.stop.Stop.TheVariants as stop;

use std::alloc::{AllocError, AllocFailed};

/// Why a reader stops: what it reads does not stand there, or memory ran out.
#[derive(Clone, Copy, Debug, PartialEq, Eq)]
pub enum Stop {
    Unread,
    NoMemory,
}

impl From<AllocError> for Stop {
    ghost from_gives = { λ _ e. e ≡ stop.NoMemory };

    fn from(_error: AllocError) -> Stop {
        Stop::NoMemory
    }
}

impl<T: Drop> From<AllocFailed<T>> for Stop {
    ghost from_gives = { λ _ e. e ≡ stop.NoMemory };

    fn from(_failed: AllocFailed<T>) -> Stop {
        Stop::NoMemory
    }
}
