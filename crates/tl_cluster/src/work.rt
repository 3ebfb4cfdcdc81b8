use tl_lang::JobSpecCore;
use tl_model::Saved;
use tl_types::{Actor, Block, FileId, RecordId, Shared, WorkerId};

/// An input of a job that was taken up.
#[derive(Debug, Drop)]
pub enum Feed<T> {
    /// The block that was in memory at the claim.
    Have(Shared<Block>),
    /// What stands in the checkpoint store of the file, which was in no memory.
    Kept(FileId, Saved<T>),
}

/// A job that an actor has taken up on a worker.
#[derive(Debug, Drop)]
pub struct Work<T> {
    pub actor: Actor,
    pub worker: WorkerId,
    /// How often the worker had been lost at the claim.
    pub incarnation: u64,
    /// The place of the claim in the journal.
    pub place: u64,
    pub rec: RecordId,
    pub core: Shared<JobSpecCore>,
    /// One for each input, in order.
    pub inputs: Vec<Feed<T>>,
}

/// How a job ends that was run.
#[derive(Clone, Copy, Debug, PartialEq, Eq)]
pub enum Finish {
    /// Its outputs are in the worker's memory, but for those that were in some memory.
    Installed,
    /// The worker was lost since the claim, and nothing was done: how often it had been lost then,
    /// and has been now.
    Void { held: u64, now: u64 },
}
