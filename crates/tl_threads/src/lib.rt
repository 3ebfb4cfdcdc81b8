//! Clients and a crew, each played on a thread of its own, until the clients have ended.
#![tactic(auto)]

mod crowd;
mod each;
mod part;
#[cfg(test)]
mod tests;

pub use crowd::{Crowd, play_crowd};
pub use part::Part;
