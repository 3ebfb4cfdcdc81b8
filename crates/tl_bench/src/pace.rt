//! How long something took.
ghost use Rattle.std.specs.Prelude.{◌≡◌, ◌*◌, ◌/◌};

use std::fmt;
use std::time::Duration;

const NANOS: u128 = 1_000_000_000;

/// A count of things done and the time they took.
#[derive(Clone, Copy, Debug, PartialEq, Eq)]
pub struct Pace {
    pub count: u64,
    pub time: Duration,
}

impl Pace {
    /// How many were done in a second, rounded down. A time too short to tell counts as a nanosecond.
    pub(crate) fn rate(&self) -> u128 {
        u128::from(self.count) * NANOS / self.time.as_nanos().max(1)
    }
}

impl fmt::Display for Pace {
    fn fmt<W: fmt::Write>(&self, f: &mut fmt::Formatter<W>) -> fmt::Result {
        let nanos = self.time.as_nanos();
        let rate = self.rate();
        write!(f, "{nanos} ns, {rate}/s")
    }
}
