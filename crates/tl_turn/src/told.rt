//! What the lock has to know of the state behind it.
ghost use Rattle.std.specs.Prelude.{◌≡◌, ◌^◌, ◌<◌, ℕ, List, length};

/// A state with a log of entries, each of which names the seat that made it by its number.
///
/// The log is newest first: a new entry stands at its head, before all older ones. A turn may only add to it, and
/// under the number of its own seat (`Turn::leave`). What else the state holds is the caller's.
pub trait Told {
    /// An entry of the log.
    type Entry;

    // The number of the seat that made an entry.
    ghost maker: { Self.Entry → ℕ };

    // The log, newest first.
    ghost log: { Self → List Self.Entry };

    /// How many entries the log has. `Turn::leave` learns from it how many are new.
    fn entries(&self) -> u64
        requires { length (log self.now) < 2 ^ 64 }
        ensures { result ≡ length (log self.now) };
}
