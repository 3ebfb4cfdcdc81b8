//! Clients: puts, jobs, calls of the namespace, losses, reads, work, saves and collections, over any
//! desk and any checkpoint store.
#![tactic(auto)]

mod calls;
mod client;
mod counts;
mod reading;
mod waiting;

pub use client::Client;
