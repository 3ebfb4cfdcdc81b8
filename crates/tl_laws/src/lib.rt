//! Laws of the definitions of lineage, over all journals. Each is the contract of a function with an
//! empty body.
#![tactic(auto)]

mod numbers;
mod others;
mod tables;
mod turns;

pub use numbers::{
    inputs_are_older, records_are_numbered, some_task_is_ready, waits_are_for_older,
};
pub use others::others_close_nothing;
pub use tables::{needs_are_theirs_alone, prios_are_theirs_alone, tasks_are_theirs_alone};
pub use turns::shares_are_kept;
