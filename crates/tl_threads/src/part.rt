//! What is played on a thread of its own.

use std::snapshot::Snapshot;
use std::thread::Promise;

/// Something that is played to its end, on a thread of its own or by whoever has it. It keeps what
/// it needs, as a desk, a store or a runtime, and may borrow from whoever waits for its end.
pub trait Part: Sized + Send + Drop {
    /// What it gives at its end.
    type Out: Send + Drop;

    // What has to be so before it is played.
    ghost ready: { Self → Type 0 };

    // What is so of it, as it was before, and of what it gave.
    ghost plays: { Self → Self.Out → Type 0 };

    /// Plays it to its end. Where its type has a handle that waits, it may wait.
    fn play(self) -> Self::Out
        requires { ready self }
        ensures { plays self result };
}

// The promise of a thread: what it gives is what its part plays.
#[derive(Drop)]
pub(crate) struct Played<P>(pub(crate) Snapshot<P>);

impl<P: Part> Promise<P::Out> for Played<P> {
    ghost kept_by = { λ p r. P.plays p.0.value r };
}
