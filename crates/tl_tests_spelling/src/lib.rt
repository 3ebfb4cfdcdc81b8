//! Tests of journals as texts. They stand apart so that the crate that prints them is not proved
//! again beside them.
#![tactic(auto)]

#[cfg(test)]
mod reading;
#[cfg(test)]
mod spelling;
