ghost use Rattle.std.specs.Prelude.{◌≡◌, ◌<◌, ◌++◌, ℕ, List, length, take, drop, is_err, Some, OnOk, OnErr};
ghost use Rattle.tl_io.specs.Calls.{after_call, next_fails, no_calls};
ghost use Rattle.tl_io.specs.Source.{Reads};
ghost use Rattle.tl_io.specs.Supply.{after_read, next_len};

use crate::calls::Calls;
use crate::source::{Failed, Source};
use crate::sure_source::SureSource;
use std::marker::Model;

/// A source over bytes in memory whose listed calls fail. It tells.
#[derive(Debug, Drop)]
pub struct MemSource {
    source: SureSource,
    calls: Calls,
}

impl Model for MemSource {
    ghost use Rattle.tl_io.specs.Supply.{LoggedSupply};

    ghost Value = { LoggedSupply };

    ghost view = { λ s. record { supply = s.source; log = s.calls } };
}

impl MemSource {
    /// A source of these bytes, in order. The calls of `read` with a number of `fails`, counted from
    /// 1, raise the count of faults and fail, and no others do.
    pub fn new(bytes: Vec<u8>, fails: Vec<u32>) -> MemSource
        ensures left { result.supply.left ≡ bytes.items }
        ensures given { result.supply.given ≡ 0 }
        ensures log { result.log ≡ no_calls fails.items }
        ensures tells { ⟦<MemSource as Source>⟧.left result ≡ Some bytes.items }
    {
        MemSource {
            source: SureSource::new(bytes),
            calls: Calls::new(fails),
        }
    }
}

impl Source for MemSource {
    ghost left = { λ s. Some s.supply.left };

    ghost given = { λ s. s.supply.given };

    ghost faults = { λ s. s.log.faults };

    fn read(&mut self, into: &mut [u8]) -> Result<usize, Failed>
        requires { 0 < length into.old }
        ensures fails { is_err result ≡ next_fails self.old.log }
        ensures log { self.new.log ≡ after_call self.old.log }
        ensures bytes { Reads (Some self.old.supply.left) (Some self.new.supply.left) result into.new }
        ensures kept { OnErr result (self.new.supply ≡ self.old.supply) }
        ensures into_kept { OnErr result (into.new ≡ into.old) }
        ensures ok { OnOk result (self.new.supply ≡ after_read self.old.supply (length into.old)) }
    {
        if self.calls.next_fails() {
            return Err(Failed);
        }
        self.source.read(into)
    }
}
