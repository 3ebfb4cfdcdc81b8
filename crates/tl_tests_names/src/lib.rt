//! Tests of the namespace in tables. They stand apart so that it is not proved again beside them.
#![tactic(auto)]

#[cfg(test)]
mod names;
