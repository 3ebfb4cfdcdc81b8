ghost use Rattle.std.specs.Prelude.{◌≡◌, ◌<◌, ◌≤◌, ℕ, List, length, IfOk};
ghost use Rattle.std.specs.declared.option.Option.{Option};
ghost use Rattle.tl_io.specs.Counts.{Rises};
ghost use Rattle.tl_io.specs.Sink.{Writes};

use std::alloc::AllocError;

/// Why a write took nothing.
#[derive(Clone, Copy, Debug, PartialEq, Eq)]
pub enum SinkError {
    /// The sink met a fault.
    Failed,
    /// Memory ran out.
    NoMemory,
}

impl From<AllocError> for SinkError {
    ghost use Rattle.std.specs.Prelude.{◌≡◌};
    ghost use Rattle.tl_io.specs.declared.sink.SinkError.TheVariants.{NoMemory};

    ghost from_gives = { λ _ e. e ≡ NoMemory };

    fn from(_error: AllocError) -> SinkError {
        SinkError::NoMemory
    }
}

/// Where bytes go.
pub trait Sink {
    // The bytes that it holds, where the sink tells.
    ghost held: { Self → Option (List ℕ) };

    // The count of faults, which never falls.
    ghost faults: { Self → ℕ };

    /// Takes bytes from the front of `from` and answers how many: at least one of a piece that is
    /// not empty.
    fn write(&mut self, from: &[u8]) -> Result<usize, SinkError>
        ensures bytes { Writes (held self.old) (held self.new) result from.now }
        ensures failed { result ≡ Err SinkError.Failed → Rises (faults self.old) (faults self.new) }
        ensures never_falls { faults self.old ≤ faults self.new };
}
