//! Tests of the turns of a cluster. They stand apart so that it is not proved again beside them.
#![tactic(auto)]

#[cfg(test)]
mod turns;
