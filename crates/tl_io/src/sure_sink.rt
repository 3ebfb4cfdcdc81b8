ghost use Rattle.std.specs.Prelude.{◌≡◌, ℕ, List, length, None};

use crate::sink::{Sink, SinkError};

/// A sink that keeps no bytes and never fails. It tells nothing.
#[derive(Clone, Copy, Debug)]
pub struct SureSink;

impl SureSink {
    pub fn new() -> SureSink {
        SureSink
    }
}

impl Sink for SureSink {
    ghost held = { λ _. None };

    ghost faults = { λ _. 0 };

    /// Takes the whole piece.
    fn write(&mut self, from: &[u8]) -> Result<usize, SinkError>
        ensures { result ≡ Ok (length from.now) }
    {
        Ok(from.len())
    }
}
