//! A ticket lock over a state that keeps a log, for up to 64 seats.
//!
//! A thread takes part through a seat: it enters, has the state, adds entries of its own to the log and leaves. Turns
//! are served in the order in which their tickets were drawn. A seat that waits sleeps, and is woken.
//!
//! What a seat saw of the log stands in it for good. So the contract of each call says how the log that it finds grew
//! out of what its seat had seen, and which entries are the seat's own. The root makes the seats, takes them in again
//! and closes the lock, and so knows what each seat made.
//!
//! The log is newest first. `IsSuffix old new` says that `new` is `old` with newer entries before it.
#![tactic(auto)]

mod law;
mod root;
mod seat;
mod steps;
mod told;
mod turn;
mod view;

pub use root::Root;
pub use seat::Seat;
pub use told::Told;
pub use turn::Turn;

#[cfg(test)]
mod tests;
