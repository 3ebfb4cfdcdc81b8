//! What is printed of a run: the line of each answer, and the summary of a journal.
#![tactic(auto)]

mod line;
pub mod print;
mod tally;

pub use line::transcript_line;
pub use tally::summary;
