//! Tests of the journal with its names. They stand apart so that it is not proved again beside them.
#![tactic(auto)]

#[cfg(test)]
mod ledger;
