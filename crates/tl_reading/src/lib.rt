//! The journal read as a text: what is spelled is read, and of what is not, the first line that is in
//! no journal is named.
#![tactic(auto)]

mod act;
mod call;
mod deed;
mod event;
mod header;
mod journal;
pub mod laws;
mod reply;
mod saying;
mod stop;
mod table;
mod token;

pub use act::act_said;
pub use call::{call_said, command_said};
pub use deed::{Deed, deed_of};
pub use event::event_said;
pub use header::header_said;
pub use journal::{ReadError, read};
pub use reply::reply_before;
pub use saying::{Saying, saying_of};
pub use stop::Stop;
pub use token::{
    actor_before, count_before, digest_last, file_before, file_last, number_line, record_before,
    record_last, worker_before, worker_last,
};
