//! Which file is saved next, kept in step with a journal event by event.
#![tactic(auto)]

mod acts;
mod change;
mod choice;
mod edge;
mod kept;
mod laws;
mod output;
mod outputs;
mod save;

pub use edge::Edge;
pub use laws::{a_delete_unnames_its_file, each_name_stands_once, only_deletes_unname};
