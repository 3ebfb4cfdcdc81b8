ghost use Rattle.std.specs.Prelude.{◌≡◌};
ghost use Rattle.tl_io.specs.Calls.{after_call, is_among, next_fails, no_calls};

use std::marker::Model;

/// The calls that are to fail, numbered from 1, and how many were made and failed so far.
#[derive(Debug, Drop)]
pub struct Calls {
    fails: Vec<u32>,
    made: u64,
    faults: u64,
}

impl Model for Calls {
    ghost use Rattle.tl_io.specs.Calls.{CallLog};

    ghost Value = { CallLog };

    ghost view = { λ c. record { fails = c.fails.items; made = c.made; faults = c.faults } };
}

impl Calls {
    /// No call was made yet.
    pub fn new(fails: Vec<u32>) -> Calls
        ensures { result ≡ no_calls fails.items }
    {
        Calls {
            fails,
            made: 0,
            faults: 0,
        }
    }

    /// Counts one more call, and answers whether it fails.
    pub fn next_fails(&mut self) -> bool
        ensures fails { result ≡ next_fails self.old }
        ensures after { self.new ≡ after_call self.old }
    {
        self.made = self.made.saturating_add(1);
        let fails = is_among(self.made, self.fails.as_slice());
        if fails {
            self.faults = self.faults.saturating_add(1);
        }
        fails
    }
}

// Whether `number` is among `numbers`.
fn is_among(number: u64, numbers: &[u32]) -> bool
    ensures { result ≡ is_among number numbers.now }
{
    numbers.iter().any(|n| u64::from(*n) == number)
}
