//! The values that every crate of Tachyon speaks of: numbers with a name, paths, bytes of a bounded
//! length, what a file holds, and the blocks that carry it with its digest.
#![tactic(auto)]

mod actor;
mod block;
mod bytes;
mod digest;
mod file_id;
mod items;
mod laws;
mod no_memory;
mod outcome;
mod path;
mod prio;
mod record_id;
mod shared;
#[cfg(test)]
mod tests;
mod worker_id;

pub use actor::Actor;
pub use block::{Block, outcome_digest};
pub use bytes::{BYTES_LIMIT, Bytes};
pub use digest::{Digest, sha256_digest};
pub use file_id::FileId;
pub use items::Items;
pub use laws::{file_order, same_is_equal};
pub use no_memory::NoMemory;
pub use outcome::Outcome;
pub use path::{COMPONENT_LIMIT, PARTS_LIMIT, Path, SPELLING_LIMIT, is_component};
pub use prio::{PRIO_LIMIT, Prio};
pub use record_id::RecordId;
pub use shared::Shared;
pub use worker_id::WorkerId;
