ghost use Rattle.std.specs.Prelude.{◌≡◌, ◌<◌, ◌≤◌, ◌↔◌, ◌++◌, ℕ, List, [], min, length, take, IfOk, IsTrue, OnErr, Some};
ghost use Rattle.tl_io.specs.Calls.{after_call, next_fails, no_calls};

use crate::calls::Calls;
use crate::sink::{Sink, SinkError};
use std::alloc::Global;
use std::marker::Model;

/// The most bytes that one write to a `MemSink` takes.
pub const WRITE_LIMIT: usize = 16;

/// A sink that holds its bytes in memory, and whose listed calls fail. It tells.
#[derive(Debug, Drop)]
pub struct MemSink {
    held: Vec<u8>,
    calls: Calls,
}

impl Model for MemSink {
    ghost use Rattle.tl_io.specs.Supply.{LoggedBytes};

    ghost Value = { LoggedBytes };

    ghost view = { λ s. record { held = s.held.items; log = s.calls } };
}

impl MemSink {
    /// A sink that holds nothing yet. The calls of `write` with a number of `fails`, counted from 1,
    /// raise the count of faults and fail, and no others do.
    pub fn new(alloc: Global, fails: Vec<u32>) -> MemSink
        ensures held { result.held ≡ [] }
        ensures log { result.log ≡ no_calls fails.items }
        ensures tells { ⟦<MemSink as Sink>⟧.held result ≡ Some [] }
    {
        MemSink {
            held: Vec::new(alloc),
            calls: Calls::new(fails),
        }
    }

    /// The bytes held.
    pub fn bytes(&self) -> &[u8]
        ensures held { result.now ≡ self.now.held }
        ensures told { ⟦<MemSink as Sink>⟧.held self.now ≡ Some result.now }
    {
        self.held.as_slice()
    }
}

impl Sink for MemSink {
    ghost held = { λ s. Some s.held };

    ghost faults = { λ s. s.log.faults };

    /// Takes the first `WRITE_LIMIT` bytes, or all where they are fewer.
    fn write(&mut self, from: &[u8]) -> Result<usize, SinkError>
        ensures fails { (result ≡ Err SinkError.Failed) ↔ IsTrue (next_fails self.old.log) }
        ensures log { self.new.log ≡ after_call self.old.log }
        ensures ok { IfOk result (λ n. n ≡ min WRITE_LIMIT (length from.now)) }
        ensures held { IfOk result (λ n. self.new.held ≡ self.old.held ++ take n from.now) }
        ensures kept { OnErr result (self.new.held ≡ self.old.held) }
    {
        if self.calls.next_fails() {
            return Err(SinkError::Failed);
        }
        let n = from.len().min(WRITE_LIMIT);
        self.held.extend_from_slice(&from[..n])?;
        Ok(n)
    }
}
