//! One worker's memory: blocks in the order of their last use, of which the least recently used is
//! found when bytes are to be freed.
#![tactic(auto)]

mod excepted;
mod store;

pub use excepted::Excepted;
pub use store::Store;
