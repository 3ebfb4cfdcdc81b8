//! The words of the program's command line: what they ask for.
#![tactic(auto)]

mod command_line;
mod flags;
mod generator;
mod matched;
mod number;
mod request;
#[cfg(test)]
mod tests;

pub use command_line::{refusal, words};
pub use request::Request;
