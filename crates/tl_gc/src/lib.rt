//! Which record may be let go, kept in step with a journal event by event.
#![tactic(auto)]

mod gc;
mod kept;
mod needs;
mod output;
mod outputs;

pub use gc::Gc;
