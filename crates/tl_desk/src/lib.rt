//! Desks: what one actor does with a cluster, and what it has seen of the journal.
#![tactic(auto)]

mod alone;
mod desk;
mod gate;

pub use alone::Alone;
pub use desk::Desk;
pub use gate::{Gate, OpenGate};
