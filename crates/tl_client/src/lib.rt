//! What clients do with a cluster that one thread uses: calls of the namespace, reads, work and losses.
//! A read runs what is next until its file is there. Each call leaves what is under way of others.
#![tactic(auto)]

mod calls;
mod evaluate;
mod feeds;
mod names;
mod reading;
mod run;
mod serving;

pub use calls::{lose, put, submit};
pub use names::{NameCommand, ask};
pub use reading::{read, try_read};
pub use run::{run_next, work};
