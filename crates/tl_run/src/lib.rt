//! The top call: a script is read, its lines are done, and their transcript is written.
#![tactic(auto)]

mod alone;
mod play;
mod reading;
mod status;
mod transcript;
mod words;
mod writing;

pub use alone::{Ended, Stop, alone_call};
pub use reading::INPUT_LIMIT;
pub use status::Status;
pub use words::tachyon;
