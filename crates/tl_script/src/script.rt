//! A script as it is read: a header, and then the commands of the clients.

ghost use Rattle.std.specs.Prelude.{◌≡◌};
ghost use Rattle.tl_script.specs.declared.script.ScriptError.TheVariants.{NoMemory};

use crate::bad_kind::BadKind;
use std::alloc::{AllocError, AllocFailed};
use thiserror::Error;
use tl_lang::JobSpecCore;
use tl_model::{Form, Header};
use tl_types::{Bytes, Items, Path, Prio, Shared, WorkerId};

/// A command of a script.
#[derive(Debug, Drop)]
pub enum Op {
    /// Makes a file of a text.
    Put {
        path: Path,
        text: Bytes,
    },
    /// Records a job that makes the outputs from the inputs.
    Job {
        core: Shared<JobSpecCore>,
        prio: Prio,
        inputs: Items<Path>,
        outputs: Items<Path>,
    },
    /// Reads a file.
    Read {
        path: Path,
        prio: Prio,
        form: Form,
    },
    /// Takes a name away: a file's, or an empty directory's.
    Delete {
        path: Path,
    },
    /// Makes a directory.
    Mkdir {
        path: Path,
    },
    /// Gives a name, and all below it, another path.
    Rename {
        from: Path,
        to: Path,
    },
    /// Keeps a file from eviction.
    Pin {
        path: Path,
    },
    /// Lets a file be evicted again.
    Unpin {
        path: Path,
    },
    /// Asks for the names in a directory.
    List {
        path: Path,
    },
    /// Asks what a path names.
    Stat {
        path: Path,
    },
    /// Takes a file out of the workers' memory.
    Free {
        path: Path,
    },
    /// Loses a worker, with what is in its memory.
    Lose {
        worker: WorkerId,
    },
    /// Lets a worker run at most so many jobs.
    Work {
        worker: WorkerId,
        n: u32,
    },
}

/// A line of a script that says a command.
#[derive(Debug, Drop)]
pub struct Line {
    /// The number of the line in the script, counted from 1.
    pub number: u64,
    /// The client that gives the command, 0 to 7.
    pub client: u8,
    pub op: Op,
}

/// A script that was read.
#[derive(Debug, Drop)]
pub struct Script {
    pub header: Header,
    pub lines: Vec<Line>,
}

/// Why a text is no script, or no command.
#[derive(Debug, Drop, Error)]
pub enum ScriptError {
    /// The first line that is refused, counted from 1, and how.
    #[error("line {line}: {kind}")]
    Bad { line: u64, kind: BadKind },
    #[error("out of memory")]
    NoMemory,
}

impl From<AllocError> for ScriptError {
    ghost from_gives = { λ _ e. e ≡ NoMemory };

    fn from(_error: AllocError) -> ScriptError {
        ScriptError::NoMemory
    }
}

impl<T: Drop> From<AllocFailed<T>> for ScriptError {
    ghost from_gives = { λ _ e. e ≡ NoMemory };

    fn from(_failed: AllocFailed<T>) -> ScriptError {
        ScriptError::NoMemory
    }
}
