//! What a crew thread does: rounds of one job, one save and one step of the collector, over any
//! desk and any checkpoint store, until it is told to stop.
#![tactic(auto)]

mod crew;
mod round;
mod stop;

pub use crew::{CrewEnd, serve};
pub use stop::{Flag, NoTimes, Stop};
