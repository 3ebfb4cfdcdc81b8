//! Who tells a crew thread to stop.

ghost use Rattle.std.specs.Prelude.{◌≡◌, ◌+◌, ◌<◌, ◌^◌, ◌↔◌, ℕ, Bool, true, false};

use std::sync::atomic::AtomicBool;
use std::sync::atomic::Ordering::SeqCst;

/// Whether to stop, as often as it is asked. Contracts see how often it answered that not, and
/// whether it ever told to stop.
pub trait Stop {
    // How often it answered no; this stays below 2^64.
    ghost noes: { Self → ℕ };

    // Whether it ever answered yes.
    ghost told: { Self → Bool };

    /// Whether to stop.
    fn asked(&mut self) -> bool
        ensures yes { result ≡ true →
            (told self.new ≡ true) × (noes self.new ≡ noes self.old) }
        ensures no { result ≡ false →
            (told self.new ≡ told self.old) × (noes self.new ≡ noes self.old + 1) }
        ensures fits { result ≡ false → noes self.new < 2 ^ 64 };
}

/// Tells to stop after it was asked so many times.
#[derive(Clone, Copy, Debug, PartialEq, Eq)]
pub struct NoTimes {
    n: u32,
    noes: u32,
    told: bool,
}

impl NoTimes {
    /// Answers no `n` times, and then yes.
    pub fn new(n: u32) -> NoTimes
        ensures { result ≡ record { n = n; noes = 0; told = false } }
    {
        NoTimes {
            n,
            noes: 0,
            told: false,
        }
    }
}

impl Stop for NoTimes {
    ghost use Rattle.std.specs.Prelude.{◌≡◌, ◌+◌, ◌<◌, ◌^◌, ◌↔◌, true, false};

    ghost noes = { λ s. s.noes };

    ghost told = { λ s. s.told };

    fn asked(&mut self) -> bool
        ensures yes { result ≡ true →
            (self.new.told ≡ true) × (self.new.noes ≡ self.old.noes) }
        ensures no { result ≡ false →
            (self.new.told ≡ self.old.told) × (self.new.noes ≡ self.old.noes + 1) }
        ensures fits { result ≡ false → self.new.noes < 2 ^ 64 }
        ensures times { (result ≡ false) ↔ (self.old.noes < self.old.n) }
        ensures n { self.new.n ≡ self.old.n }
    {
        if self.noes < self.n {
            self.noes += 1;
            return false;
        }
        self.told = true;
        true
    }
}

/// Tells to stop once a flag is set, which others may set at any time. It also does after 2^64 - 1
/// noes.
#[derive(Drop)]
pub struct Flag<'a> {
    flag: &'a AtomicBool,
    noes: u64,
    told: bool,
}

impl<'a> Flag<'a> {
    /// Answers what the flag holds.
    pub fn new(flag: &'a AtomicBool) -> Flag<'a>
        ensures flag { result.flag ≡ flag.entry }
        ensures noes { result.noes ≡ 0 }
        ensures told { result.told ≡ false }
    {
        Flag {
            flag,
            noes: 0,
            told: false,
        }
    }
}

impl<'a> Stop for Flag<'a> {
    ghost use Rattle.std.specs.Prelude.{◌≡◌, ◌+◌, ◌-◌, ◌<◌, ◌^◌, true, false};

    ghost noes = { λ s. s.noes };

    ghost told = { λ s. s.told };

    fn asked(&mut self) -> bool
        ensures yes { result ≡ true →
            (self.new.told ≡ true) × (self.new.noes ≡ self.old.noes) }
        ensures no { result ≡ false →
            (self.new.told ≡ self.old.told) × (self.new.noes ≡ self.old.noes + 1) }
        ensures fits { result ≡ false → self.new.noes < 2 ^ 64 }
        ensures last { self.old.noes ≡ 2 ^ 64 - 1 → result ≡ true }
        ensures flag { self.new.flag ≡ self.old.flag }
    {
        if self.flag.load(SeqCst) || self.noes == u64::MAX {
            self.told = true;
            return true;
        }
        self.noes += 1;
        false
    }
}
