//! What a client or a crew asks of a cluster, whoever else uses it.

ghost use Rattle.std.specs.Prelude.{◌≡◌, ◌<◌, ◌^◌, Bool, true, List, length, Some};
ghost use Rattle.std.specs.Prelude.{IfErr, IfOk, OnErr, OnOk};
ghost use Rattle.tl_types.specs.declared.file_id.FileId.{FileId};
ghost use Rattle.tl_model.specs.declared.event.Event.{Event as EventOf};
ghost use Rattle.tl_model.specs.declared.event.Act.TheVariants.{Lose, Shut, Unsave};
ghost use Rattle.tl_model.specs.Actors.{is_idle, open_save};
ghost use Rattle.tl_model.specs.Past.{command_with, events_with, without_tickets};
ghost use Rattle.tl_model.specs.Rules.{is_lawful, is_legal, may_claim, put_has_its_bytes};
ghost use Rattle.tl_model.specs.Values.{value};
ghost use Rattle.tl_cluster.specs.Called.{IsFitting};
ghost use Rattle.tl_cluster.specs.Kept.{IsSavedFor};
ghost use Rattle.tl_cluster.specs.Saves.{saved_block, saving};
ghost use Rattle.tl_desk.specs.Finds.{Post, Stays, Turns, is_any};
ghost use Rattle.tl_desk.specs.Turns.{AreOutputs, AreValues, Begins, Calls, Claims, Collects};
ghost use Rattle.tl_desk.specs.Turns.{Finishes, GivesBack, IsReading, IsSavedBlock};
ghost use Rattle.tl_desk.specs.Turns.{IsUnlessLost, Looks, Serves, with_act};

use std::alloc::Global;
use tl_cluster::{Finish, Look, SaveJob, Work};
use tl_io::Ticket;
use tl_model::{Command, Reply, Saved};
use tl_types::{Actor, Block, NoMemory, Shared, WorkerId};

/// What one actor does with a cluster. Each call but `rest` is a turn of the cluster, in which no
/// other actor has it. Contracts see what the desk's holder has seen of the journal: after a call
/// that is what it had seen, then events of other actors, and then the turn's.
pub trait Desk<T: Ticket>: Sized + Drop {
    // What no call changes: of which cluster the desk is, whose, and with which header.
    ghost Home: { Type 0 };

    ghost home: { Self → Home };

    ghost post: { Home → Post };

    // What its holder has seen of the journal, the newest event first.
    ghost seen: { Self → List (EventOf T) };

    // Whether the holder has seen the whole journal whenever no call is under way.
    ghost whole: { Bool };

    /// The actor whose desk it is.
    fn actor(&self) -> Actor
        ensures { result ≡ (post (home self.now)).actor };

    /// What is true of all that is seen: it is lawful, and legal where the bytes are told, so that
    /// nothing is owed after it; and it is shorter than 2^64.
    fn stands(&self)
        ensures lawful { is_lawful (post (home self.now)).header (seen self.now) ≡ true }
        ensures legal { T.tells ≡ true → is_legal (post (home self.now)).header
            (events_with T.content (seen self.now)) ≡ true }
        ensures count { length (seen self.now) < 2 ^ 64 };

    /// Makes an idle client's call: answers its number in the history and its reply, and records
    /// it. An accepted put is recorded as saved; a free takes the file that it names out of its
    /// memory. `Err` is want of memory, and does nothing.
    fn call(&mut self, alloc: Global, command: Command<T>) -> Result<(u64, Reply), NoMemory>
        requires client { (post (home self.old)).actor.0 < 8 }
        requires idle { is_idle (without_tickets (seen self.old)) (post (home self.old)).actor
            ≡ true }
        requires fitting { IsFitting command }
        requires bytes { T.tells ≡ true →
            put_has_its_bytes (command_with T.content command) ≡ true }
        ensures ok { IfOk result (Calls whole (post (home self.old)).actor command
            (seen self.old) (seen self.new)) }
        ensures err { OnErr result (Stays whole (post (home self.old)).actor
            (seen self.old) (seen self.new) is_any) }
        ensures home { home self.new ≡ home self.old };

    /// Looks for the file of the open read. Where a memory has it, the read is served.
    fn look(&mut self) -> Result<Look<T>, NoMemory>
        requires actor { (post (home self.old)).actor.0 < 16 }
        requires reading { (f : FileId) × IsReading (seen self.old) (post (home self.old)).actor f }
        ensures ok { (f : FileId) → IsReading (seen self.old) (post (home self.old)).actor f →
            IfOk result (Looks whole T.tells T.content (post (home self.old)).actor f
            (seen self.old) (seen self.new)) }
        ensures err { OnErr result (Stays whole (post (home self.old)).actor
            (seen self.old) (seen self.new) is_any) }
        ensures home { home self.new ≡ home self.old };

    /// Serves the open read by the block that was loaded for it from the checkpoint store, which
    /// comes to the worker; or by the one that a memory has by then.
    fn loaded(&mut self, worker: WorkerId, block: Shared<Block>) -> Result<Shared<Block>, NoMemory>
        requires actor { (post (home self.old)).actor.0 < 16 }
        requires worker { worker.0 < (post (home self.old)).header.workers }
        requires reading { IsReading (seen self.old) (post (home self.old)).actor block.file }
        requires saved { IsSavedBlock (seen self.old) block }
        requires value { T.tells ≡ true →
            block.outcome ≡ value (events_with T.content (seen self.old)) block.file }
        ensures ok { IfOk result (Serves whole T.tells T.content (post (home self.old)).actor
            worker block (seen self.old) (seen self.new)) }
        ensures err { OnErr result (Stays whole (post (home self.old)).actor
            (seen self.old) (seen self.new) is_any) }
        ensures home { home self.new ≡ home self.old };

    /// Gives up the open read.
    fn shut(&mut self)
        requires actor { (post (home self.old)).actor.0 < 16 }
        requires reading { (f : FileId) × IsReading (seen self.old) (post (home self.old)).actor f }
        ensures shut { (f : FileId) → IsReading (seen self.old) (post (home self.old)).actor f →
            Turns whole (post (home self.old)).actor (seen self.old) (seen self.new) is_any
            (with_act (post (home self.old)).actor (Shut f)) }
        ensures home { home self.new ≡ home self.old };

    /// Takes up the job that is next, if one is, to be run on the worker.
    fn claim(&mut self, alloc: Global, worker: WorkerId) -> Result<Option<Work<T>>, NoMemory>
        requires actor { (post (home self.old)).actor.0 < 16 }
        requires worker { worker.0 < (post (home self.old)).header.workers }
        requires idle { may_claim (without_tickets (seen self.old)) (post (home self.old)).actor
            ≡ true }
        ensures ok { IfOk result (Claims whole T.tells T.content (post (home self.old)) worker
            (seen self.old) (seen self.new)) }
        ensures err { OnErr result (Stays whole (post (home self.old)).actor
            (seen self.old) (seen self.new) is_any) }
        ensures home { home self.new ≡ home self.old };

    /// Ends a job that was run: its outputs, one block for each in order, come into the worker's
    /// memory, but for those that are in some memory. Nothing is done where the worker was lost
    /// since the claim. Want of memory hands both back.
    fn done(
        &mut self,
        alloc: Global,
        work: Work<T>,
        blocks: Vec<Shared<Block>>,
    ) -> Result<Finish, (Work<T>, Vec<Shared<Block>>)>
        requires actor { (post (home self.old)).actor.0 < 16 }
        requires own { work.actor ≡ (post (home self.old)).actor }
        requires worker { work.worker.0 < (post (home self.old)).header.workers }
        requires claim { IsUnlessLost (seen self.old) work }
        requires outputs { AreOutputs (seen self.old) work.rec blocks.items }
        requires values { AreValues T.tells T.content (seen self.old) blocks.items }
        ensures ok { IfOk result (Finishes whole work (seen self.old) (seen self.new)) }
        ensures back { IfErr result (λ back. (back.0 ≡ work) × (back.1 ≡ blocks)) }
        ensures err { OnErr result (Stays whole (post (home self.old)).actor
            (seen self.old) (seen self.new) is_any) }
        ensures home { home self.new ≡ home self.old };

    /// Gives a job back that was not run to its end. Nothing is done where the worker was lost
    /// since the claim.
    fn back(&mut self, work: Work<T>)
        requires actor { (post (home self.old)).actor.0 < 16 }
        requires own { work.actor ≡ (post (home self.old)).actor }
        requires worker { work.worker.0 < (post (home self.old)).header.workers }
        requires claim { IsUnlessLost (seen self.old) work }
        ensures back { GivesBack whole work (seen self.old) (seen self.new) }
        ensures home { home self.new ≡ home self.old };

    /// Takes up the file that is saved next, if there is one, with a block of it.
    fn save_begin(&mut self) -> Result<Option<SaveJob>, NoMemory>
        requires actor { (post (home self.old)).actor.0 < 16 }
        requires idle { is_idle (without_tickets (seen self.old)) (post (home self.old)).actor
            ≡ true }
        ensures ok { IfOk result (Begins whole T.tells T.content (post (home self.old))
            (seen self.old) (seen self.new)) }
        ensures err { OnErr result (Stays whole (post (home self.old)).actor
            (seen self.old) (seen self.new) is_any) }
        ensures home { home self.new ≡ home self.old };

    /// Ends a save: what is kept of the file's block in the checkpoint store. It takes no memory.
    fn saved(&mut self, job: SaveJob, saved: Saved<T>)
        requires actor { (post (home self.old)).actor.0 < 16 }
        requires own { job.actor ≡ (post (home self.old)).actor }
        requires open { open_save (without_tickets (seen self.old)) job.actor
            ≡ Some job.block.file }
        requires kept { IsSavedFor T.tells T.content
            (saved_block job.block) job.block.outcome saved }
        requires value { T.tells ≡ true → job.block.outcome
            ≡ value (events_with T.content (seen self.old)) job.block.file }
        ensures saved { Turns whole job.actor (seen self.old) (seen self.new) is_any
            (saving job) }
        ensures home { home self.new ≡ home self.old };

    /// Gives a save up. It takes no memory.
    fn unsave(&mut self, job: SaveJob)
        requires actor { (post (home self.old)).actor.0 < 16 }
        requires own { job.actor ≡ (post (home self.old)).actor }
        requires open { open_save (without_tickets (seen self.old)) job.actor
            ≡ Some job.block.file }
        ensures unsaved { Turns whole job.actor (seen self.old) (seen self.new) is_any
            (with_act job.actor (Unsave job.block.file)) }
        ensures home { home self.new ≡ home self.old };

    /// The worker loses its memory: the blocks on it are held no more, and each claim on it is
    /// void.
    fn lose(&mut self, worker: WorkerId) -> Result<(), NoMemory>
        requires actor { (post (home self.old)).actor.0 < 16 }
        requires worker { worker.0 < (post (home self.old)).header.workers }
        ensures ok { OnOk result (Turns whole (post (home self.old)).actor
            (seen self.old) (seen self.new) is_any
            (with_act (post (home self.old)).actor (Lose worker))) }
        ensures err { OnErr result (Stays whole (post (home self.old)).actor
            (seen self.old) (seen self.new) is_any) }
        ensures home { home self.new ≡ home self.old };

    /// Lets go the `n` least records that are kept and not needed, or all where there are fewer;
    /// answers how many.
    fn collect(&mut self, n: u32) -> Result<u32, NoMemory>
        requires actor { (post (home self.old)).actor.0 < 16 }
        ensures ok { IfOk result (Collects whole (post (home self.old)).actor n
            (seen self.old) (seen self.new)) }
        ensures err { OnErr result (Stays whole (post (home self.old)).actor
            (seen self.old) (seen self.new) is_any) }
        ensures home { home self.new ≡ home self.old };

    /// Waits for good. It returns only where the holder sees the whole journal, and does nothing.
    fn rest(&mut self)
        ensures whole { whole ≡ true }
        ensures same { self.new ≡ self.old };
}
