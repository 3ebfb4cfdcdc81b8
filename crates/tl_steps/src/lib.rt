//! What one event makes of a file, a record and an actor, and what a journal can speak of. The crates that
//! are kept in step with a journal event by event share it.
#![tactic(auto)]

mod act;
mod laws;
mod same;
mod seat;

pub use act::{
    accepts, does, is_at, is_gone, place_after_done, place_now, place_unless, saves_now,
};
pub use laws::{
    a_file_is_saved_by_one_actor, journals_speak_of_the_accepted, what_is_saved_next_can_be_saved,
    what_is_saved_stays_so,
};
pub use same::{same_actor, same_file, same_record, same_worker};
pub use seat::{OpenClaim, OpenRead, SEATS, Seat, is_read, is_running, new_seats, note_seats};
