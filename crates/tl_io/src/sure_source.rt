ghost use Rattle.std.specs.Prelude.{◌≡◌, ◌<◌, ◌≤◌, ◌+◌, ◌++◌, ℕ, List, [], length, take, drop, Some};
ghost use Rattle.tl_io.specs.Source.{Reads};
ghost use Rattle.tl_io.specs.Supply.{after_read, next_len};

use crate::source::{Failed, Source};
use std::marker::Model;

/// A source over bytes in memory that never fails. It tells.
#[derive(Debug, Drop)]
pub struct SureSource {
    bytes: Vec<u8>,
    at: usize,
    given: u64,
}

impl Model for SureSource {
    ghost use Rattle.std.specs.Prelude.{◌≤◌, drop, length};
    ghost use Rattle.tl_io.specs.Supply.{Supply};

    ghost Value = { Supply };

    ghost view = { λ s. record { left = drop s.at s.bytes.items; given = s.given } };

    ghost invariant = { λ s. s.at ≤ length s.bytes.items };
}

impl SureSource {
    /// A source of these bytes, in order.
    pub fn new(bytes: Vec<u8>) -> SureSource
        ensures left { result.left ≡ bytes.items }
        ensures given { result.given ≡ 0 }
        ensures tells { ⟦<SureSource as Source>⟧.left result ≡ Some bytes.items }
    {
        SureSource {
            bytes,
            at: 0,
            given: 0,
        }
    }
}

impl Source for SureSource {
    ghost left = { λ s. Some s.left };

    ghost given = { λ s. s.given };

    ghost faults = { λ _. 0 };

    fn read(&mut self, into: &mut [u8]) -> Result<usize, Failed>
        requires { 0 < length into.old }
        ensures len { result ≡ Ok (next_len self.old (length into.old)) }
        ensures after { self.new ≡ after_read self.old (length into.old) }
        ensures bytes { Reads (Some self.old.left) (Some self.new.left) result into.new }
        ensures into { into.new ≡ take (length into.old) self.old.left ++ drop (length self.old.left) into.old }
    {
        let rest = &self.bytes[self.at..];
        let n = rest.len().min(into.len());
        into[..n].copy_from_slice(&rest[..n]);
        self.at += n;
        self.given = self.given.saturating_add(n as u64);
        Ok(n)
    }
}
