//! Tests of the crates that keep blocks, files and records, a module for each crate, and the jobs of those. They stand apart so that
//! those crates are not proved again beside them.
#![tactic(auto)]

#[cfg(test)]
mod depot;
#[cfg(test)]
mod edge;
#[cfg(test)]
mod fleet;
#[cfg(test)]
mod gc;
#[cfg(test)]
mod jobs;
#[cfg(test)]
mod lineage;
#[cfg(test)]
mod plan;
#[cfg(test)]
mod prio;
#[cfg(test)]
mod store;
#[cfg(test)]
mod vault;
