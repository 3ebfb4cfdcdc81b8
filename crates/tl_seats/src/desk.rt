//! The desk: it enters, makes one turn's call and leaves.

ghost use Rattle.std.specs.Prelude.{◌≡◌};

use crate::named::Named;
use crate::seated::Seated;
use crate::turning::{enter, leave};
use std::alloc::Global;
use std::sync::Wait;
use std::thread;
use tl_cluster::{Finish, Look, SaveJob, Work};
use tl_desk::Desk;
use tl_io::Ticket;
use tl_model::{Command, Reply, Saved};
use tl_types::{Actor, Block, NoMemory, Shared, WorkerId};

impl<'a, R: Wait, T: Ticket, N: Named> Desk<T> for Seated<'a, R, T, N> {
    ghost use Rattle.std.specs.Prelude.{◌<◌, true, false, Some, IfErr, IfOk, OnErr};
    ghost use Rattle.tl_model.specs.Actors.{is_idle, open_save};
    ghost use Rattle.tl_model.specs.Past.{command_with, events_with, without_tickets};
    ghost use Rattle.tl_model.specs.Rules.{put_has_its_bytes};
    ghost use Rattle.tl_model.specs.Values.{value};
    ghost use Rattle.tl_cluster.specs.Called.{IsFitting};
    ghost use Rattle.tl_cluster.specs.Kept.{IsSavedFor};
    ghost use Rattle.tl_cluster.specs.Saves.{saved_block, saving};
    ghost use Rattle.tl_desk.specs.Finds.{Stays, Turns, is_any};
    ghost use Rattle.tl_desk.specs.Turns.{AreOutputs, AreValues, Calls, Finishes, GivesBack};
    ghost use Rattle.tl_desk.specs.Turns.{IsUnlessLost};
    ghost use Rattle.tl_seats.specs.Seats.{Place, place_at, post_at};

    ghost Home = { Place };

    ghost home = { λ d. place_at d.seat.turn d.actor };

    ghost post = { post_at N.header };

    ghost seen = { λ d. d.seat.seen };

    ghost whole = { false };

    fn actor(&self) -> Actor {
        self.actor
    }

    fn stands(&self) {}

    fn call(&mut self, alloc: Global, command: Command<T>) -> Result<(u64, Reply), NoMemory>
        requires client { self.old.actor.0 < 8 }
        requires idle { is_idle (without_tickets self.old.seat.seen) self.old.actor ≡ true }
        requires fitting { IsFitting command }
        requires bytes { T.tells ≡ true →
            put_has_its_bytes (command_with T.content command) ≡ true }
        ensures ok { IfOk result (Calls false self.old.actor command
            self.old.seat.seen self.new.seat.seen) }
        ensures err { OnErr result (Stays false self.old.actor
            self.old.seat.seen self.new.seat.seen is_any) }
        ensures home { place_at self.new.seat.turn self.new.actor
            ≡ place_at self.old.seat.turn self.old.actor }
    {
        let mut cluster = enter(self.rt, self.turn, &mut self.seat);
        let answer = cluster.call(alloc, self.actor, command);
        leave(self.turn, &mut self.seat, cluster);
        answer
    }

    fn look(&mut self) -> Result<Look<T>, NoMemory> {
        let mut cluster = enter(self.rt, self.turn, &mut self.seat);
        cluster.stands();
        let found = cluster.look(self.actor);
        leave(self.turn, &mut self.seat, cluster);
        found
    }

    fn loaded(
        &mut self,
        worker: WorkerId,
        block: Shared<Block>,
    ) -> Result<Shared<Block>, NoMemory> {
        let mut cluster = enter(self.rt, self.turn, &mut self.seat);
        cluster.stands();
        let answer = cluster.loaded(self.actor, worker, block);
        leave(self.turn, &mut self.seat, cluster);
        answer
    }

    fn shut(&mut self) {
        let mut cluster = enter(self.rt, self.turn, &mut self.seat);
        cluster.shut(self.actor);
        leave(self.turn, &mut self.seat, cluster);
    }

    fn claim(&mut self, alloc: Global, worker: WorkerId) -> Result<Option<Work<T>>, NoMemory> {
        let mut cluster = enter(self.rt, self.turn, &mut self.seat);
        cluster.stands();
        let work = cluster.claim(alloc, self.actor, worker);
        leave(self.turn, &mut self.seat, cluster);
        work
    }

    fn done(
        &mut self,
        alloc: Global,
        work: Work<T>,
        blocks: Vec<Shared<Block>>,
    ) -> Result<Finish, (Work<T>, Vec<Shared<Block>>)>
        requires actor { self.old.actor.0 < 16 }
        requires own { work.actor ≡ self.old.actor }
        requires worker { work.worker.0 < N.header.workers }
        requires claim { IsUnlessLost self.old.seat.seen work }
        requires outputs { AreOutputs self.old.seat.seen work.rec blocks.items }
        requires values { AreValues T.tells T.content self.old.seat.seen blocks.items }
        ensures ok { IfOk result (Finishes false work self.old.seat.seen self.new.seat.seen) }
        ensures back { IfErr result (λ back. (back.0 ≡ work) × (back.1 ≡ blocks)) }
        ensures err { OnErr result (Stays false self.old.actor
            self.old.seat.seen self.new.seat.seen is_any) }
        ensures home { place_at self.new.seat.turn self.new.actor
            ≡ place_at self.old.seat.turn self.old.actor }
    {
        let mut cluster = enter(self.rt, self.turn, &mut self.seat);
        let finish = cluster.done(alloc, work, blocks);
        leave(self.turn, &mut self.seat, cluster);
        finish
    }

    fn back(&mut self, work: Work<T>)
        requires actor { self.old.actor.0 < 16 }
        requires own { work.actor ≡ self.old.actor }
        requires worker { work.worker.0 < N.header.workers }
        requires claim { IsUnlessLost self.old.seat.seen work }
        ensures back { GivesBack false work self.old.seat.seen self.new.seat.seen }
        ensures home { place_at self.new.seat.turn self.new.actor
            ≡ place_at self.old.seat.turn self.old.actor }
    {
        let mut cluster = enter(self.rt, self.turn, &mut self.seat);
        cluster.back(work);
        leave(self.turn, &mut self.seat, cluster);
    }

    fn save_begin(&mut self) -> Result<Option<SaveJob>, NoMemory> {
        let mut cluster = enter(self.rt, self.turn, &mut self.seat);
        cluster.stands();
        let job = cluster.save_begin(self.actor);
        leave(self.turn, &mut self.seat, cluster);
        job
    }

    fn saved(&mut self, job: SaveJob, saved: Saved<T>)
        requires actor { self.old.actor.0 < 16 }
        requires own { job.actor ≡ self.old.actor }
        requires open { open_save (without_tickets self.old.seat.seen) job.actor
            ≡ Some job.block.file }
        requires kept { IsSavedFor T.tells T.content
            (saved_block job.block) job.block.outcome saved }
        requires value { T.tells ≡ true → job.block.outcome
            ≡ value (events_with T.content self.old.seat.seen) job.block.file }
        ensures saved { Turns false job.actor self.old.seat.seen self.new.seat.seen is_any
            (saving job) }
        ensures home { place_at self.new.seat.turn self.new.actor
            ≡ place_at self.old.seat.turn self.old.actor }
    {
        let mut cluster = enter(self.rt, self.turn, &mut self.seat);
        cluster.saved(job, saved);
        leave(self.turn, &mut self.seat, cluster);
    }

    fn unsave(&mut self, job: SaveJob) {
        let mut cluster = enter(self.rt, self.turn, &mut self.seat);
        cluster.unsave(job);
        leave(self.turn, &mut self.seat, cluster);
    }

    fn lose(&mut self, worker: WorkerId) -> Result<(), NoMemory> {
        let mut cluster = enter(self.rt, self.turn, &mut self.seat);
        let lost = cluster.lose(self.actor, worker);
        leave(self.turn, &mut self.seat, cluster);
        lost
    }

    fn collect(&mut self, n: u32) -> Result<u32, NoMemory> {
        let mut cluster = enter(self.rt, self.turn, &mut self.seat);
        let count = cluster.collect(self.actor, n);
        leave(self.turn, &mut self.seat, cluster);
        count
    }

    fn rest(&mut self) {
        for _ in self.rt.forever() {
            thread::yield_now();
        }
        unreachable!()
    }
}
