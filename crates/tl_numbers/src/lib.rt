//! A set of numbers below a bound, whose least and greatest members are found in a few steps.
#![tactic(auto)]

mod number_set;
#[cfg(test)]
mod tests;
mod word;
mod words;

pub use number_set::{BOUND_LIMIT, NumberSet};
