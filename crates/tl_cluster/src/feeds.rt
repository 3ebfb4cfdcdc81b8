//! Taking up the job that is next.

ghost use Rattle.std.specs.Prelude.{◌≡◌, ◌<◌, true, Some, None, IfOk};
ghost use Rattle.std.specs.List.{AllByRecursion};
ghost use Rattle.tl_model.specs.Past.{without_tickets};
ghost use Rattle.tl_model.specs.Plan.{next};
ghost use Rattle.tl_model.specs.Residency.{is_available};
ghost use Rattle.tl_cluster.specs.Jobs.{state_of};
ghost use Rattle.tl_cluster.specs.Stands.{Stands};
ghost use Rattle.tl_cluster.specs.State.{held};
ghost use Rattle.tl_cluster.specs.Taken.{IsTaken, TakesUp};
ghost use Rattle.tl_cluster.specs.Works.{AreFed, IsFed};

use crate::copying::copy_saved;
use crate::parts::Parts;
use crate::work::{Feed, Work};
use std::alloc::Global;
use tl_fleet::ascending;
use tl_io::Ticket;
use tl_model::Record;
use tl_types::{Actor, FileId, NoMemory, RecordId, WorkerId};

/// A job that is taken up, and its inputs, each once, in ascending order.
#[derive(Drop)]
pub(crate) struct Taken<T> {
    pub(crate) work: Work<T>,
    pub(crate) files: Vec<FileId>,
}

impl<T: Ticket> Parts<T> {
    /// Takes up the job that is next, if one is, for the actor on the worker. It changes nothing
    /// that contracts see.
    pub(crate) fn take_up(
        &mut self,
        alloc: Global,
        actor: Actor,
        worker: WorkerId,
    ) -> Result<Option<Taken<T>>, NoMemory>
        requires worker { worker.0 < self.old.header.workers }
        requires stands { Stands T.tells T.content self.old }
        ensures taken { IfOk result (TakesUp T.tells T.content self.old actor worker) }
        ensures same { self.new ≡ self.old }
    {
        match self.ledger.next() {
            Some(made) => Ok(Some(self.take(alloc, actor, worker, made)?)),
            None => Ok(None),
        }
    }

    // Takes up the job of this number, which is next.
    fn take(
        &self,
        alloc: Global,
        actor: Actor,
        worker: WorkerId,
        made: RecordId,
    ) -> Result<Taken<T>, NoMemory>
        requires worker { worker.0 < self.now.header.workers }
        requires stands { Stands T.tells T.content self.now }
        requires next { next self.now.header.order (without_tickets self.now.events) ≡ Some made }
        ensures { IfOk result (IsTaken T.tells T.content self.now actor worker) }
    {
        match self.ledger.record(made) {
            Some(Record::Job { core, inputs, .. }) => Ok(Taken {
                work: Work {
                    actor,
                    worker,
                    incarnation: self.incarnation(worker),
                    place: self.ledger.len(),
                    rec: made,
                    core: core.try_clone()?,
                    inputs: self.feeds(alloc, inputs.as_slice())?,
                },
                files: ascending(alloc, inputs.as_slice())?,
            }),
            Some(Record::Put { .. }) => unreachable!(),
            None => unreachable!(),
        }
    }

    // What stands for each of the files.
    fn feeds(&self, alloc: Global, files: &[FileId]) -> Result<Vec<Feed<T>>, NoMemory>
        requires stands { Stands T.tells T.content self.now }
        requires available { AllByRecursion
            (λ f. is_available (without_tickets self.now.events) f ≡ true) files.now }
        ensures { IfOk result (λ feeds.
            AreFed T.tells T.content (state_of self.now) files.now feeds.items) }
    {
        let mut feeds = Vec::new(alloc);
        for file in files {
            feeds.push(self.feed(*file)?)?;
        }
        Ok(feeds)
    }

    // What stands for the file.
    fn feed(&self, file: FileId) -> Result<Feed<T>, NoMemory>
        requires stands { Stands T.tells T.content self.now }
        requires available { is_available (without_tickets self.now.events) file ≡ true }
        ensures { IfOk result (IsFed T.tells T.content (state_of self.now) file) }
    {
        match self.block(file)? {
            Some(block) => Ok(Feed::Have(block)),
            None => self.feed_from_store(file),
        }
    }

    // What is kept of the file, which is in no memory.
    fn feed_from_store(&self, file: FileId) -> Result<Feed<T>, NoMemory>
        requires stands { Stands T.tells T.content self.now }
        requires nowhere { held file self.now.workers ≡ None }
        requires available { is_available (without_tickets self.now.events) file ≡ true }
        ensures { IfOk result (IsFed T.tells T.content (state_of self.now) file) }
    {
        match self.vault.get(file) {
            Some(saved) => Ok(Feed::Kept(file, copy_saved(saved)?)),
            None => unreachable!(),
        }
    }
}
