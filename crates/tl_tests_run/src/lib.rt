//! Tests of the top call. They stand apart so that it is not proved again beside them.
#![tactic(auto)]

#[cfg(test)]
mod run;
