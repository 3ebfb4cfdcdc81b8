//! The cluster: the journal of all that was done, and the blocks that are in the workers' memories.
#![tactic(auto)]

mod cluster;
mod feeds;
mod incarnation;
mod look;
mod puts;
mod resident;
mod work;

pub use cluster::Cluster;
pub use feeds::Taken;
pub use look::Look;
pub use resident::Resident;
pub use work::{Feed, Finish, Work};
