//! Tests of evaluation in slices. They stand apart so that it is not proved again beside them.
#![tactic(auto)]

#[cfg(test)]
mod eval;
