//! The desk of whoever has the whole cluster.

ghost use Rattle.std.specs.Prelude.{◌≡◌};

use crate::desk::Desk;
use std::alloc::Global;
use tl_cluster::{Cluster, Finish, Look, SaveJob, Work};
use tl_io::Ticket;
use tl_model::{Command, Reply, Saved};
use tl_types::{Actor, Block, NoMemory, Shared, WorkerId};

/// A desk that owns its cluster. One actor after another may use it.
#[derive(Drop)]
pub struct Alone<T: Ticket> {
    cluster: Cluster<T>,
    actor: Actor,
}

impl<T: Ticket> Alone<T> {
    /// A desk of actor 0.
    pub fn new(cluster: Cluster<T>) -> Alone<T>
        ensures cluster { result.cluster ≡ cluster }
        ensures actor { result.actor.0 ≡ 0 }
    {
        Alone {
            cluster,
            actor: Actor(0),
        }
    }

    /// Makes it the actor's desk.
    pub fn act_as(&mut self, actor: Actor)
        ensures actor { self.new.actor ≡ actor }
        ensures cluster { self.new.cluster ≡ self.old.cluster }
    {
        self.actor = actor;
    }

    /// The cluster.
    pub fn into_cluster(self) -> Cluster<T>
        ensures { result ≡ self.cluster }
    {
        self.cluster
    }
}

impl<T: Ticket> Desk<T> for Alone<T> {
    ghost use Rattle.std.specs.Prelude.{◌<◌, true, Some, IfErr, IfOk, OnErr};
    ghost use Rattle.tl_model.specs.Actors.{is_idle, open_save};
    ghost use Rattle.tl_model.specs.Past.{command_with, events_with, without_tickets};
    ghost use Rattle.tl_model.specs.Rules.{put_has_its_bytes};
    ghost use Rattle.tl_model.specs.Values.{value};
    ghost use Rattle.tl_cluster.specs.Called.{IsFitting};
    ghost use Rattle.tl_cluster.specs.Kept.{IsSavedFor};
    ghost use Rattle.tl_cluster.specs.Saves.{saved_block, saving};
    ghost use Rattle.tl_desk.specs.Alone.{post_of};
    ghost use Rattle.tl_desk.specs.Finds.{Post, Stays, Turns, is_any};
    ghost use Rattle.tl_desk.specs.Turns.{AreOutputs, AreValues, Calls, Finishes, GivesBack};
    ghost use Rattle.tl_desk.specs.Turns.{IsUnlessLost};

    ghost Home = { Post };

    ghost home = { post_of };

    ghost post = { λ h. h };

    ghost seen = { λ a. a.cluster.events };

    ghost whole = { true };

    fn actor(&self) -> Actor {
        self.actor
    }

    fn stands(&self) {
        self.cluster.stands();
        let _count = self.cluster.journal().len();
    }

    fn call(&mut self, alloc: Global, command: Command<T>) -> Result<(u64, Reply), NoMemory>
        requires client { self.old.actor.0 < 8 }
        requires idle { is_idle (without_tickets self.old.cluster.events) self.old.actor
            ≡ true }
        requires fitting { IsFitting command }
        requires bytes { T.tells ≡ true →
            put_has_its_bytes (command_with T.content command) ≡ true }
        ensures ok { IfOk result (Calls true self.old.actor command
            self.old.cluster.events self.new.cluster.events) }
        ensures err { OnErr result (Stays true self.old.actor
            self.old.cluster.events self.new.cluster.events is_any) }
        ensures home { post_of self.new ≡ post_of self.old }
    {
        self.cluster.call(alloc, self.actor, command)
    }

    fn look(&mut self) -> Result<Look<T>, NoMemory> {
        self.cluster.stands();
        self.cluster.look(self.actor)
    }

    fn loaded(
        &mut self,
        worker: WorkerId,
        block: Shared<Block>,
    ) -> Result<Shared<Block>, NoMemory> {
        self.cluster.stands();
        self.cluster.loaded(self.actor, worker, block)
    }

    fn shut(&mut self) {
        self.cluster.shut(self.actor);
    }

    fn claim(&mut self, alloc: Global, worker: WorkerId) -> Result<Option<Work<T>>, NoMemory> {
        self.cluster.stands();
        self.cluster.claim(alloc, self.actor, worker)
    }

    fn done(
        &mut self,
        alloc: Global,
        work: Work<T>,
        blocks: Vec<Shared<Block>>,
    ) -> Result<Finish, (Work<T>, Vec<Shared<Block>>)>
        requires actor { self.old.actor.0 < 16 }
        requires own { work.actor ≡ self.old.actor }
        requires worker { work.worker.0 < self.old.cluster.header.workers }
        requires claim { IsUnlessLost self.old.cluster.events work }
        requires outputs { AreOutputs self.old.cluster.events work.rec blocks.items }
        requires values { AreValues T.tells T.content self.old.cluster.events blocks.items }
        ensures ok { IfOk result (Finishes true work
            self.old.cluster.events self.new.cluster.events) }
        ensures back { IfErr result (λ back. (back.0 ≡ work) × (back.1 ≡ blocks)) }
        ensures err { OnErr result (Stays true self.old.actor
            self.old.cluster.events self.new.cluster.events is_any) }
        ensures home { post_of self.new ≡ post_of self.old }
    {
        self.cluster.done(alloc, work, blocks)
    }

    fn back(&mut self, work: Work<T>)
        requires actor { self.old.actor.0 < 16 }
        requires own { work.actor ≡ self.old.actor }
        requires worker { work.worker.0 < self.old.cluster.header.workers }
        requires claim { IsUnlessLost self.old.cluster.events work }
        ensures back { GivesBack true work self.old.cluster.events self.new.cluster.events }
        ensures home { post_of self.new ≡ post_of self.old }
    {
        self.cluster.back(work);
    }

    fn save_begin(&mut self) -> Result<Option<SaveJob>, NoMemory> {
        self.cluster.stands();
        self.cluster.save_begin(self.actor)
    }

    fn saved(&mut self, job: SaveJob, saved: Saved<T>)
        requires actor { self.old.actor.0 < 16 }
        requires own { job.actor ≡ self.old.actor }
        requires open { open_save (without_tickets self.old.cluster.events) job.actor
            ≡ Some job.block.file }
        requires kept { IsSavedFor T.tells T.content
            (saved_block job.block) job.block.outcome saved }
        requires value { T.tells ≡ true → job.block.outcome
            ≡ value (events_with T.content self.old.cluster.events) job.block.file }
        ensures saved { Turns true job.actor self.old.cluster.events self.new.cluster.events is_any
            (saving job) }
        ensures home { post_of self.new ≡ post_of self.old }
    {
        self.cluster.saved(job, saved);
    }

    fn unsave(&mut self, job: SaveJob) {
        self.cluster.unsave(job);
    }

    fn lose(&mut self, worker: WorkerId) -> Result<(), NoMemory> {
        self.cluster.lose(self.actor, worker)
    }

    fn collect(&mut self, n: u32) -> Result<u32, NoMemory> {
        self.cluster.collect(self.actor, n)
    }

    fn rest(&mut self) {}
}
