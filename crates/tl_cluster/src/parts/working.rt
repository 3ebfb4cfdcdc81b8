//! The main events of a job.

ghost use Rattle.std.specs.Prelude.{◌≡◌, ◌<◌, true, Some, IfOk, OnErr, OnOk};
ghost use Rattle.tl_model.specs.Actors.{OpenClaim, open_claim};
ghost use Rattle.tl_model.specs.Past.{without_tickets};
ghost use Rattle.tl_model.specs.Plan.{next};
ghost use Rattle.tl_model.specs.Rules.{may_claim};
ghost use Rattle.tl_cluster.specs.Jobs.{AreInputs, IsClaimed, IsDone, missing_of, state_of, with_back};
ghost use Rattle.tl_cluster.specs.Losses.{incarnation};
ghost use Rattle.tl_cluster.specs.Stands.{Agrees, IsRoomierOnly, Stands};
ghost use Rattle.tl_cluster.specs.Works.{AreOutputs, AreValues};

use crate::parts::Parts;
use std::alloc::Global;
use tl_io::Ticket;
use tl_model::{Act, Event};
use tl_types::{Actor, Block, FileId, NoMemory, RecordId, Shared, WorkerId};

impl<T: Ticket> Parts<T> {
    /// How often the worker was lost.
    pub(crate) fn incarnation(&self, worker: WorkerId) -> u64
        requires worker { worker.0 < self.now.header.workers }
        requires stands { Stands T.tells T.content self.now }
        ensures { result ≡ incarnation self.now.events worker }
    {
        self.fleet.incarnation(worker)
    }

    /// Claims the job that is next for the actor, to be run on the worker; its inputs are used.
    /// `Err` changes nothing.
    pub(crate) fn claim(
        &mut self,
        actor: Actor,
        worker: WorkerId,
        made: RecordId,
        inputs: &[FileId],
    ) -> Result<(), NoMemory>
        requires actor { actor.0 < 16 }
        requires worker { worker.0 < self.old.header.workers }
        requires stands { Stands T.tells T.content self.old }
        requires idle { may_claim (without_tickets self.old.events) actor ≡ true }
        requires next { next self.old.header.order (without_tickets self.old.events) ≡ Some made }
        requires inputs { AreInputs (without_tickets self.old.events) made inputs.now }
        ensures claimed { OnOk result (IsClaimed actor worker made inputs.now self.old self.new) }
        ensures agrees { OnOk result (Agrees T.tells T.content self.new) }
        ensures err { OnErr result (self.new ≡ self.old) }
    {
        self.reserve(0)?;
        self.fleet.touch_each(inputs);
        self.ledger.append(Event {
            actor,
            act: Act::Claim(worker, made),
        });
        Ok(())
    }

    /// Notes that the actor's claimed job is done: of its outputs' blocks, those that are in no
    /// memory come into the worker's. `Err` changes nothing that contracts of a cluster see.
    pub(crate) fn finish(
        &mut self,
        alloc: Global,
        actor: Actor,
        worker: WorkerId,
        made: RecordId,
        blocks: &[Shared<Block>],
    ) -> Result<(), NoMemory>
        requires actor { actor.0 < 16 }
        requires worker { worker.0 < self.old.header.workers }
        requires stands { Stands T.tells T.content self.old }
        requires claim { open_claim (without_tickets self.old.events) actor
            ≡ Some (record { worker = worker; made = made }) }
        requires outputs { AreOutputs (state_of self.old) made blocks.now }
        requires values { AreValues T.tells T.content (state_of self.old) blocks.now }
        ensures done { OnOk result (IsDone actor worker made blocks.now self.old self.new) }
        ensures agrees { OnOk result (Agrees T.tells T.content self.new) }
        ensures err { OnErr result (IsRoomierOnly T.tells T.content self.old self.new) }
    {
        let missing = self.missing(alloc, blocks)?;
        self.reserve(missing.len())?;
        let Ok(()) = self.fleet.install_all(worker, missing) else {
            return Err(NoMemory);
        };
        self.ledger.append(Event {
            actor,
            act: Act::Done(worker, made),
        });
        Ok(())
    }

    // Those of the blocks whose files are in no memory.
    fn missing(
        &self,
        alloc: Global,
        blocks: &[Shared<Block>],
    ) -> Result<Vec<Shared<Block>>, NoMemory>
        ensures { IfOk result (λ missing. missing.items ≡ missing_of self.now.workers blocks.now) }
    {
        let mut missing = Vec::new(alloc);
        for block in blocks {
            if !self.fleet.is_resident(block.get().file()) {
                missing.push(block.try_clone()?)?;
            }
        }
        Ok(missing)
    }

    /// Gives the actor's claimed job back.
    pub(crate) fn give_back(&mut self, actor: Actor, made: RecordId)
        requires actor { actor.0 < 16 }
        requires stands { Stands T.tells T.content self.old }
        requires claim { (claim : OpenClaim)
            × (open_claim (without_tickets self.old.events) actor ≡ Some claim) × (claim.made ≡ made) }
        ensures back { self.new ≡ with_back actor made self.old }
        ensures agrees { Agrees T.tells T.content self.new }
    {
        self.ledger.append(Event {
            actor,
            act: Act::Back(made),
        });
    }
}
