//! The memory of all workers: on which of them a file is, and what is dropped where one has more
//! bytes than it may.
#![tactic(auto)]

mod finds;
mod fleet;
mod installs;
mod laws;
mod sorts;
mod worker;

pub use finds::{
    a_brought_block_is_found, a_dropped_file_is_found_no_more, a_freed_file_is_found_no_more,
    a_loss_takes_what_was_there, brought_blocks_are_found, it_is_of_the_file,
    it_is_where_the_past_has_it, only_resident_sizes_matter, the_incarnation_rises_at_a_loss_alone,
    touching_moves_nothing, what_must_go_is_found,
};
pub use fleet::Fleet;
pub use laws::{
    a_change_counts_what_it_moves, claim_keeps_order, done_keeps_order, other_events_keep_order,
};
pub use sorts::ascending;
pub use tl_store::Excepted;
