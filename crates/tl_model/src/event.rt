use crate::command::Command;
use crate::reply::Reply;
use tl_types::{Actor, Digest, FileId, RecordId, WorkerId};

/// What an actor does in one turn, or what follows from it.
#[derive(Debug, Drop)]
pub enum Act<T> {
    /// A client's call, with its reply.
    Call(Command<T>, Reply),
    /// The open read is answered by the file, which has this digest.
    Served(FileId, Digest),
    /// The open read is given up.
    Shut(FileId),
    /// A job is taken up on a worker.
    Claim(WorkerId, RecordId),
    /// A job was run on a worker, and its outputs are there.
    Done(WorkerId, RecordId),
    /// A job is given back.
    Back(RecordId),
    /// A worker loses its memory.
    Lose(WorkerId),
    /// A file is taken from memory at a client's wish.
    Free(FileId),
    /// A file is evicted from a worker.
    Drop(WorkerId, FileId),
    /// A saved file comes into a worker's memory.
    Load(WorkerId, FileId),
    /// A file is taken up to be saved.
    Save(FileId),
    /// A file stands in the checkpoint store, with its length and digest.
    Saved(FileId, u64, Digest),
    /// A save is given up.
    Unsave(FileId),
    /// A record is let go.
    Collect(RecordId),
}

/// One line of the journal: who did what. Actors 0 to 7 are clients, 8 to 15 crew threads.
#[derive(Debug, Drop)]
pub struct Event<T> {
    pub actor: Actor,
    pub act: Act<T>,
}
