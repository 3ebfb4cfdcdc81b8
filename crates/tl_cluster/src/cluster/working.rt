//! The turns of a job.

ghost use Rattle.std.specs.Prelude.{◌≡◌, ◌≢◌, ◌<◌, ◌∷◌, true, IfOk, MatchResult, OnErr};
ghost use Rattle.tl_model.specs.declared.event.Act.TheVariants.{Back};
ghost use Rattle.tl_model.specs.Rules.{may_claim};
ghost use Rattle.tl_cluster.specs.Losses.{incarnation};
ghost use Rattle.tl_cluster.specs.State.{past_of};
ghost use Rattle.tl_cluster.specs.Turned.{Turned, as_held};
ghost use Rattle.tl_cluster.specs.Works.{AreOutputs, AreValues, Claimed, Finished, IsUnlessLost};

use crate::cluster::Cluster;
use crate::feeds::Taken;
use crate::work::{Finish, Work};
use std::alloc::Global;
use tl_io::Ticket;
use tl_types::{Actor, Block, NoMemory, Shared, WorkerId};

impl<T: Ticket> Cluster<T> {
    /// Takes up the job that is next, if one is, to be run on the worker.
    pub fn claim(
        &mut self,
        alloc: Global,
        actor: Actor,
        worker: WorkerId,
    ) -> Result<Option<Work<T>>, NoMemory>
        requires actor { actor.0 < 16 }
        requires worker { worker.0 < self.old.header.workers }
        requires idle { may_claim (past_of self.old) actor ≡ true }
        ensures ok { IfOk result (Claimed T.tells T.content self.old self.new actor worker) }
        ensures err { OnErr result (self.new ≡ self.old) }
    {
        match self.parts.take_up(alloc, actor, worker)? {
            Some(Taken { work, files }) => {
                self.parts.claim(actor, worker, work.rec, files.as_slice())?;
                self.parts.settle(actor);
                Ok(Some(work))
            }
            None => Ok(None),
        }
    }

    /// Ends a job that was run: its outputs, one block for each in order, come into the worker's
    /// memory, but for those that are in some memory. Nothing is done where the worker was lost
    /// since the claim. Want of memory hands both back.
    pub fn done(
        &mut self,
        alloc: Global,
        work: Work<T>,
        blocks: Vec<Shared<Block>>,
    ) -> Result<Finish, (Work<T>, Vec<Shared<Block>>)>
        requires actor { work.actor.0 < 16 }
        requires worker { work.worker.0 < self.old.header.workers }
        requires claim { IsUnlessLost self.old work }
        requires outputs { AreOutputs self.old work.rec blocks.items }
        requires values { AreValues T.tells T.content self.old blocks.items }
        ensures { MatchResult result (Finished self.old self.new work blocks.items)
            (λ back. (back.0 ≡ work) × (back.1 ≡ blocks) × (self.new ≡ self.old)) }
    {
        let now = self.parts.incarnation(work.worker);
        if now != work.incarnation {
            return Ok(Finish::Void {
                held: work.incarnation,
                now,
            });
        }
        let Ok(()) = self
            .parts
            .finish(alloc, work.actor, work.worker, work.rec, &blocks)
        else {
            return Err((work, blocks));
        };
        self.parts.settle(work.actor);
        Ok(Finish::Installed)
    }

    /// Gives a job back that was not run to its end. Nothing is done where the worker was lost
    /// since the claim.
    pub fn back(&mut self, work: Work<T>)
        requires actor { work.actor.0 < 16 }
        requires worker { work.worker.0 < self.old.header.workers }
        requires claim { IsUnlessLost self.old work }
        ensures stands { incarnation self.old.events work.worker ≡ work.incarnation →
            Turned work.actor self.old
            (record { actor = work.actor; act = Back work.rec } ∷ self.old.events)
            (as_held self.old) self.new }
        ensures lost { incarnation self.old.events work.worker ≢ work.incarnation →
            self.new ≡ self.old }
    {
        if self.parts.incarnation(work.worker) == work.incarnation {
            self.parts.give_back(work.actor, work.rec);
            self.parts.settle(work.actor);
        }
    }
}
