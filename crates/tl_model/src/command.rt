use tl_lang::JobSpecCore;
use tl_types::{Digest, Items, Path, Prio, Shared};

/// How a read is printed.
#[derive(Clone, Copy, Debug, PartialEq, Eq)]
pub enum Form {
    /// The file's text; the read waits until it can be had.
    Cat,
    /// The digest of the file's text; the read waits likewise.
    Sum,
    /// The file's text where it can be had at once.
    Try,
}

/// What a client asks of the namespace. `T` is the checkpoint store's ticket.
#[derive(Debug, Drop)]
pub enum Command<T> {
    /// A file is made of bytes that stand in the checkpoint store under the ticket, with their
    /// length and digest.
    Put {
        path: Path,
        len: u64,
        digest: Digest,
        ticket: T,
    },
    /// A job is recorded that makes the outputs from the inputs.
    Job {
        core: Shared<JobSpecCore>,
        prio: Prio,
        inputs: Items<Path>,
        outputs: Items<Path>,
    },
    /// A file is opened for reading.
    Read {
        path: Path,
        prio: Prio,
        form: Form,
    },
    /// A name is taken away: a file's, or an empty directory's.
    Delete {
        path: Path,
    },
    /// A directory is made.
    Mkdir {
        path: Path,
    },
    /// A name, and all below it, gets another path.
    Rename {
        from: Path,
        to: Path,
    },
    /// A file is kept from eviction.
    Pin {
        path: Path,
    },
    /// A file may be evicted again.
    Unpin {
        path: Path,
    },
    /// The names in a directory are asked for.
    List {
        path: Path,
    },
    /// What a path names is asked for.
    Stat {
        path: Path,
    },
    /// A file is taken from the memory of its worker.
    Free {
        path: Path,
    },
}
