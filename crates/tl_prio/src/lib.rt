//! Which job is next, and priorities, kept in step with a journal event by event.
#![tactic(auto)]

mod choice;
mod kept;
mod number;
mod order;
mod output;
mod outputs;
mod turns;
mod waiting;

pub use order::Order;
