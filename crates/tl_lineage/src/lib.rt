//! The records of accepted puts and jobs: which stand, and which files each has read.
#![tactic(auto)]

mod graph;
mod laws;
mod slot;

pub use graph::{Graph, RECORDS_LIMIT};
pub use laws::{
    lawful_journals_have_slots, readers_are_of_all_records, records_are_found_while_kept,
    slots_follow_the_journal,
};
pub use slot::Slot;
