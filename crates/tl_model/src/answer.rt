use crate::reply::Reply;
use tl_types::{Block, Digest, FileId, Shared, WorkerId};

/// Which command's count it is.
#[derive(Clone, Copy, Debug, PartialEq, Eq)]
pub enum Counted {
    Work,
    Save,
    Collect,
}

/// What a client is answered.
#[derive(Debug, Drop)]
pub enum Answer {
    /// The reply to call number `at`.
    Said { at: u64, reply: Reply },
    /// The file that call number `at` opened.
    Read { at: u64, block: Shared<Block> },
    /// The file that call number `at` opened is neither in memory nor saved.
    NotYet { at: u64, file: FileId },
    /// How many were run, saved or collected.
    Count(Counted, u32),
    /// The worker lost its memory.
    Lost(WorkerId),
    /// The reply to a glance at the names after so many published changes.
    Peeked { publishes: u64, reply: Reply },
}

/// A load gave another length or digest than the kept one.
#[derive(Clone, Copy, Debug, PartialEq, Eq)]
pub struct Damage {
    pub kept_len: u64,
    pub kept: Digest,
    pub got_len: u64,
    pub got: Digest,
}

/// Why a client's call was not answered. `at` is the call's number where it stands in the history.
#[derive(Clone, Copy, Debug, PartialEq, Eq)]
pub enum ClientError {
    /// The checkpoint store failed.
    StoreFault { at: Option<u64> },
    /// The checkpoint store gave something else than was saved.
    Damaged { at: Option<u64>, damage: Damage },
    /// Memory ran out.
    NoMemory,
}
