//! Tests of the reader of scripts. They stand apart so that it is not proved again beside them.
#![tactic(auto)]

#[cfg(test)]
mod script;
