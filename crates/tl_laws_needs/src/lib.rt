//! Laws of waits, of need and of reach, over all journals. Each is the contract of a function with an
//! empty body, and holds for whichever judge passes the journal: for lawful journals and for legal ones.
#![tactic(auto)]

mod needs;
mod reach;
mod waits;

pub use needs::{needed_are_kept, unneeded_stay_unneeded, what_is_next_is_kept};
pub use reach::{asked_for_are_reachable, ends_of_tasks_are_reachable, roots_are_reachable};
pub use waits::{waited_for_are_as_urgent, waited_for_are_tasks};
