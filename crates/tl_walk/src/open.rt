use std::marker::Model;
use tl_types::{FileId, Prio, RecordId, WorkerId};

/// A read that was opened: of this file, with this priority.
#[derive(Clone, Copy, Debug)]
pub struct OpenRead {
    file: FileId,
    prio: Prio,
}

impl Model for OpenRead {
    ghost use Rattle.tl_model.specs.Actors.{OpenRead as Opened};

    ghost Value = { Opened };

    ghost view = { λ r. record { file = r.file; prio = r.prio } };

    ghost inverse = { λ r. record { file = r.file; prio = r.prio } };
}

impl OpenRead {
    ghost use Rattle.std.specs.Prelude.{◌≡◌};

    pub(crate) fn new(file: FileId, prio: Prio) -> OpenRead
        ensures { result ≡ record { file = file; prio = prio } }
    {
        OpenRead { file, prio }
    }

    /// The file that is read.
    pub fn file(&self) -> FileId
        ensures { result ≡ self.now.file }
    {
        self.file
    }

    /// The read's priority.
    pub fn prio(&self) -> Prio
        ensures { result ≡ self.now.prio }
    {
        self.prio
    }
}

/// A job that was claimed on a worker.
#[derive(Clone, Copy, Debug)]
pub struct OpenClaim {
    worker: WorkerId,
    made: RecordId,
}

impl Model for OpenClaim {
    ghost use Rattle.tl_model.specs.Actors.{OpenClaim as Claimed};

    ghost Value = { Claimed };

    ghost view = { λ c. record { worker = c.worker; made = c.made } };

    ghost inverse = { λ c. record { worker = c.worker; made = c.made } };
}

impl OpenClaim {
    ghost use Rattle.std.specs.Prelude.{◌≡◌};

    pub(crate) fn new(worker: WorkerId, made: RecordId) -> OpenClaim
        ensures { result ≡ record { worker = worker; made = made } }
    {
        OpenClaim { worker, made }
    }

    /// The worker on which the job is run.
    pub fn worker(&self) -> WorkerId
        ensures { result ≡ self.now.worker }
    {
        self.worker
    }

    /// The record of the job.
    pub fn made(&self) -> RecordId
        ensures { result ≡ self.now.made }
    {
        self.made
    }
}
