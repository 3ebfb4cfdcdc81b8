//! Tests of the turns of a cluster, with the calls, runs and reads that they are made of. They stand
//! apart so that it is not proved again beside them.
#![tactic(auto)]

#[cfg(test)]
mod calls;
#[cfg(test)]
mod files;
#[cfg(test)]
mod jobs;
#[cfg(test)]
mod reads;
#[cfg(test)]
mod runs;
#[cfg(test)]
mod saves;
