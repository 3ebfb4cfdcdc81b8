ghost use Rattle.std.specs.Prelude.{◌<◌, ◌≤◌, ℕ, List, length, OnErr};
ghost use Rattle.std.specs.declared.option.Option.{Option};
ghost use Rattle.tl_io.specs.Counts.{Rises};
ghost use Rattle.tl_io.specs.Source.{CountsGiven, Reads};

/// The answer of a read that met a fault.
#[derive(Clone, Copy, Debug, PartialEq, Eq)]
pub struct Failed;

/// Where bytes come from.
pub trait Source {
    // The bytes that are left, where the source tells.
    ghost left: { Self → Option (List ℕ) };

    // The number of bytes given, which stands still at its last value, 2^64 - 1.
    ghost given: { Self → ℕ };

    // The count of faults, which never falls.
    ghost faults: { Self → ℕ };

    /// Puts the next bytes at the front of `into` and answers how many. What stands after them in
    /// `into` is not said. `Ok(0)` is the end.
    fn read(&mut self, into: &mut [u8]) -> Result<usize, Failed>
        requires { 0 < length into.old }
        ensures bytes { Reads (left self.old) (left self.new) result into.new }
        ensures given { CountsGiven (given self.old) (given self.new) result }
        ensures failed { OnErr result (Rises (faults self.old) (faults self.new)) }
        ensures never_falls { faults self.old ≤ faults self.new };
}
