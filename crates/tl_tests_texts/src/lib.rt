//! Tests of the crates that read and print texts, a module for each crate. They stand apart so that those
//! crates are not proved again beside them. Their rows are lines of one text, which `row` takes apart.
#![tactic(auto)]

#[cfg(test)]
mod kind;
#[cfg(test)]
mod report;
#[cfg(test)]
mod row;
#[cfg(test)]
mod text;
