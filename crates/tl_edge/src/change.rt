//! What becomes of a file.

ghost use Rattle.std.specs.Prelude.{◌≡◌};
ghost use Rattle.tl_edge.specs.Data.{changed, next_number};

use crate::output::Output;
use tl_steps::{is_at, place_after_done, place_unless};
use tl_types::WorkerId;

/// What an event does to a file.
#[derive(Clone, Copy, Debug)]
pub enum Change {
    /// It comes into the worker's memory.
    Bring(WorkerId),
    /// Its job was done on the worker, at this place of the journal.
    Make(WorkerId, u64),
    /// It is taken from memory.
    Take,
    /// It is taken from the worker's memory, if it is there.
    TakeFrom(WorkerId),
    /// It is saved.
    Secure,
    /// It is read once more.
    CountRead,
    /// It loses its name.
    Unname,
    /// An accepted record has it as input.
    TakeUp,
}

/// The file after a change.
pub(crate) fn changed(change: Change, before: Output) -> Output
    ensures { result ≡ changed change before }
{
    match change {
        Change::Bring(worker) => Output {
            place: Some(worker),
            ..before
        },
        Change::Make(worker, at) => Output {
            place: place_after_done(true, worker, before.place),
            last_done: at,
            ..before
        },
        Change::Take => Output {
            place: None,
            ..before
        },
        Change::TakeFrom(worker) => Output {
            place: place_unless(is_at(worker, &before.place), before.place),
            ..before
        },
        Change::Secure => Output {
            is_saved: true,
            ..before
        },
        Change::CountRead => Output {
            reads: next_number(before.reads),
            ..before
        },
        Change::Unname => Output {
            is_named: false,
            ..before
        },
        Change::TakeUp => Output {
            is_leaf: false,
            ..before
        },
    }
}

/// The number after this one. At the last one it stays.
pub(crate) fn next_number(number: u64) -> u64
    ensures { result ≡ next_number number }
{
    number.saturating_add(1)
}
