ghost use Rattle.std.specs.Prelude.{◌≡◌, ℕ, ◌≤◌, ◌↔◌, IsSome, IfSome};

use std::marker::Model;

/// The greatest priority.
pub const PRIO_LIMIT: u8 = 7;

/// A priority, 0 to 7. A greater number goes first.
#[derive(Clone, Copy, Debug, PartialEq, Eq, PartialOrd, Ord, Hash)]
pub struct Prio {
    number: u8,
}

impl Model for Prio {
    ghost Value = { ℕ };

    ghost view = { λ p. p.number };

    ghost invariant = { λ p. p.number ≤ 7 };

    ghost inverse = { λ n. record { number = n } };
}

impl Prio {
    /// The priority of this number; `None` for a number above 7.
    pub fn new(n: u8) -> Option<Prio>
        ensures valid { IsSome result ↔ (n ≤ PRIO_LIMIT) }
        ensures value { IfSome result (λ p. p ≡ n) }
    {
        if n <= PRIO_LIMIT {
            Some(Prio { number: n })
        } else {
            None
        }
    }

    /// The number.
    pub fn get(&self) -> u8
        ensures number { result ≡ self.now }
        ensures bound { result ≤ PRIO_LIMIT }
    {
        self.number
    }
}
