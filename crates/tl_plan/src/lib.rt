//! The plan: which records are tasks, which of these can be run, and which files are wanted, kept in
//! step with a journal event by event.
#![tactic(auto)]

mod job;
mod kept;
mod output;
mod outputs;
mod plan;
mod tables;

pub use plan::Plan;
