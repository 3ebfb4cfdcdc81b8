//! The journal as a text: each command, each event and each journal in its one spelling.
#![tactic(auto)]

mod command;
mod event;
mod journal;
pub mod laws;

pub use journal::journal_text;
