//! Laws of drops: a file that may go, since it is neither pinned nor wanted, can be dropped from a
//! worker's memory, and the plan is the same. Each is the contract of a function with an empty body, and
//! holds for any past, lawful or not. The lemmas of `proofs/` ask only that the file isn't wanted: a pin keeps
//! a file where it is, and changes nothing of the plan either.
#![tactic(auto)]

mod choice;
mod many;
mod owed;
mod places;
mod tasks;

pub use choice::{drops_change_no_choice, numbered_records_are_one_of_each};
pub use many::{
    drops_change_no_plan, drops_close_nothing, drops_leave_the_history, drops_leave_what_is_wanted,
};
pub use owed::{a_quiet_event_owes_its_drop, due_drops_are_permitted, owed_drops_may_go};
pub use places::drops_take_nothing_wanted;
pub use tasks::drops_change_no_task;
