//! The cluster: the journal of all that was done, the workers' memories and the checkpoint store.
//! Each call is a turn: a main event with what follows it, and the drops that settle the memories.
#![tactic(auto)]

mod cluster;
mod copying;
mod feeds;
mod look;
mod parts;
mod protected;
mod saving;
mod work;

pub use cluster::Cluster;
pub use look::Look;
pub use saving::SaveJob;
pub use work::{Feed, Finish, Work};
