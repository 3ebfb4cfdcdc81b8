//! Playing a line of a script on a client, over any desk.
#![tactic(auto)]

mod line;

pub use line::do_line;
