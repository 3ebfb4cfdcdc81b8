use tl_lang::JobSpecCore;
use tl_types::{FileId, Items, Prio, RecordId, Shared};

/// An accepted put or job. A put has the one output 0.
#[derive(Debug, Drop)]
pub enum Record {
    Put {
        id: RecordId,
    },
    Job {
        id: RecordId,
        core: Shared<JobSpecCore>,
        prio: Prio,
        /// The files that the input paths named when the job was accepted.
        inputs: Items<FileId>,
        /// How many files it makes.
        outputs: u8,
    },
}
