//! The turns of a job.

ghost use Rattle.std.specs.Prelude.{◌≡◌, ◌≢◌, ◌<◌, true, IfOk, MatchResult, OnErr};
ghost use Rattle.tl_model.specs.Rules.{may_claim};
ghost use Rattle.tl_core.specs.Answers.{past_of, with_event};
ghost use Rattle.tl_core.specs.Taken.{Claimed};
ghost use Rattle.tl_core.specs.Claims.{incarnation};
ghost use Rattle.tl_core.specs.Done.{AreOutputs, AreValues, Finished, IsUnlessLost};

use crate::cluster::{Cluster, ROOM};
use crate::feeds::take_up;
use crate::incarnation::incarnation;
use crate::resident::install;
use crate::work::{Finish, Work};
use std::alloc::Global;
use tl_io::Ticket;
use tl_model::{Act, Event};
use tl_types::{Actor, Block, NoMemory, Shared, WorkerId};

impl<T: Ticket> Cluster<T> {
    /// Takes up the job that is next, if one is, to be run on the worker.
    pub fn claim(
        &mut self,
        alloc: Global,
        actor: Actor,
        worker: WorkerId,
    ) -> Result<Option<Work<T>>, NoMemory>
        requires actor { actor.0 < 16 }
        requires worker { worker.0 < self.old.header.workers }
        requires idle { may_claim (past_of self.old) actor ≡ true }
        ensures ok { IfOk result (Claimed T.tells T.content self.old self.new actor worker) }
        ensures err { OnErr result (self.new ≡ self.old) }
    {
        match take_up(alloc, &mut self.journal, &self.residents)? {
            Some(taken) => {
                self.journal.reserve(ROOM)?;
                let incarnation = incarnation(self.journal.events(), worker);
                let place = self.journal.len();
                let act = Act::Claim(worker, taken.rec);
                self.journal.append(Event { actor, act });
                Ok(Some(taken.into_work(actor, worker, incarnation, place)))
            }
            None => Ok(None),
        }
    }

    /// Ends a job that was run: its outputs, one block for each in order, come into the worker's
    /// memory, but for those that are in some memory. Nothing is done where the worker was lost
    /// since the claim. Want of memory hands both back.
    pub fn done(
        &mut self,
        work: Work<T>,
        blocks: Vec<Shared<Block>>,
    ) -> Result<Finish, (Work<T>, Vec<Shared<Block>>)>
        requires actor { work.actor.0 < 16 }
        requires claim { IsUnlessLost self.old work }
        requires outputs { AreOutputs self.old work.rec blocks.items }
        requires values { AreValues T.tells T.content self.old blocks.items }
        ensures { MatchResult result (Finished self.old self.new work blocks.items)
            (λ back. (back.0 ≡ work) × (back.1 ≡ blocks) × (self.new ≡ self.old)) }
    {
        let now = incarnation(self.journal.events(), work.worker);
        if now != work.incarnation {
            return Ok(Finish::Void {
                held: work.incarnation,
                now,
            });
        }
        let Ok(()) = self.residents.reserve(blocks.len()) else {
            return Err((work, blocks));
        };
        self.journal.append(Event {
            actor: work.actor,
            act: Act::Done(work.worker, work.rec),
        });
        install(&mut self.residents, work.worker, blocks);
        Ok(Finish::Installed)
    }

    /// Gives a job back that was not run to its end. Nothing is done where the worker was lost since
    /// the claim.
    pub fn back(&mut self, work: Work<T>)
        requires actor { work.actor.0 < 16 }
        requires claim { IsUnlessLost self.old work }
        ensures stands { incarnation self.old.events work.worker ≡ work.incarnation →
            self.new ≡ with_event work.actor (Act.Back work.rec) self.old }
        ensures lost { incarnation self.old.events work.worker ≢ work.incarnation → self.new ≡ self.old }
    {
        if incarnation(self.journal.events(), work.worker) == work.incarnation {
            self.journal.append(Event {
                actor: work.actor,
                act: Act::Back(work.rec),
            });
        }
    }
}
