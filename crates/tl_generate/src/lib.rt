//! Scripts of any length, each made from two numbers.
#![tactic(auto)]

mod draws;
mod facts;
mod lines;
#[cfg(test)]
mod tests;

pub use facts::{first_draw, script_of_one};
pub use lines::generate;
