//! The turns of a read.

ghost use Rattle.std.specs.Prelude.{◌≡◌, ◌<◌, ◌≤◌, ◌+◌, ◌∷◌, true, reverse, IsSome, IfOk, OnErr};
ghost use Rattle.tl_model.specs.Actors.{OpenRead, open_read};
ghost use Rattle.tl_model.specs.Past.{events_with, without_tickets};
ghost use Rattle.tl_model.specs.Values.{value};
ghost use Rattle.tl_core.specs.Answers.{past_of, with_event, IsSavedBlock, Loaded, Looked, FoundInStore};
ghost use Rattle.tl_core.specs.Puts.{kept_put};

use crate::cluster::{Cluster, ROOM};
use crate::look::Look;
use crate::puts::{kept_put, saved_put};
use crate::resident::{Resident, find, push_within};
use tl_io::Ticket;
use tl_ledger::Ledger;
use tl_model::{Act, Event};
use tl_types::{Actor, Block, Digest, FileId, NoMemory, Shared, WorkerId};
use tl_walk::open_read;

impl<T: Ticket> Cluster<T> {
    /// Looks for the file of the actor's open read. Where a memory has it, the read is served.
    pub fn look(&mut self, actor: Actor) -> Result<Look<T>, NoMemory>
        requires actor { actor.0 < 16 }
        requires reading { IsSome (open_read (past_of self.old) actor) }
        ensures ok { (read : OpenRead) → open_read (past_of self.old) actor ≡ Some read →
            IfOk result (λ look. Looked T.tells T.content self.old self.new actor read.file look) }
        ensures err { OnErr result (self.new ≡ self.old) }
    {
        let file = file_read(self.journal.events(), actor);
        match find(&self.residents, file) {
            Some(resident) => {
                let block = resident.block.try_clone()?;
                let act = Act::Served(file, block.get().digest());
                self.journal.append(Event { actor, act });
                Ok(Look::Have(block))
            }
            None => look_in_store(self.journal.events(), file),
        }
    }

    /// Serves the actor's open read by the block that was loaded for it from the checkpoint store,
    /// which comes to the worker; or by the one that is held, where the file is in some memory.
    pub fn loaded(
        &mut self,
        actor: Actor,
        worker: WorkerId,
        block: Shared<Block>,
    ) -> Result<Shared<Block>, NoMemory>
        requires actor { actor.0 < 16 }
        requires worker { worker.0 < self.old.header.workers }
        requires reading { IsSome (open_read (past_of self.old) actor) }
        requires file { (read : OpenRead) → open_read (past_of self.old) actor ≡ Some read → block.file ≡ read.file }
        requires saved { IsSavedBlock self.old block }
        requires value { T.tells ≡ true → block.outcome ≡ value (events_with T.content self.old.events) block.file }
        ensures ok { IfOk result (Loaded self.old self.new actor worker block) }
        ensures err { OnErr result (self.new ≡ self.old) }
    {
        let file = block.get().file();
        match find(&self.residents, file) {
            Some(resident) => {
                let held = resident.block.try_clone()?;
                let act = Act::Served(file, held.get().digest());
                self.journal.append(Event { actor, act });
                Ok(held)
            }
            None => {
                let answer = block.try_clone()?;
                let digest = block.get().digest();
                self.residents.reserve(1)?;
                self.journal.reserve(ROOM)?;
                push_within(&mut self.residents, Resident { worker, block });
                record_load(&mut self.journal, actor, worker, file, digest);
                Ok(answer)
            }
        }
    }

    /// Gives up the actor's open read.
    pub fn shut(&mut self, actor: Actor)
        requires actor { actor.0 < 16 }
        requires reading { IsSome (open_read (past_of self.old) actor) }
        ensures { (read : OpenRead) → open_read (past_of self.old) actor ≡ Some read →
            self.new ≡ with_event actor (Act.Shut read.file) self.old }
    {
        let file = file_read(self.journal.events(), actor);
        self.journal.append(Event {
            actor,
            act: Act::Shut(file),
        });
    }
}

// The file of the read that the actor has open.
fn file_read<T>(events: &[Event<T>], actor: Actor) -> FileId
    requires { IsSome (open_read (without_tickets (reverse events.now)) actor) }
    ensures { (read : OpenRead) → open_read (without_tickets (reverse events.now)) actor ≡ Some read → result ≡ read.file }
{
    match open_read(events, actor) {
        Some(read) => read.file(),
        None => unreachable!(),
    }
}

// What the checkpoint store has of the file.
fn look_in_store<T: Ticket>(events: &[Event<T>], file: FileId) -> Result<Look<T>, NoMemory>
    ensures { IfOk result (FoundInStore T.content (kept_put (reverse events.now) file)) }
{
    match kept_put(events, file) {
        Some(put) => Ok(Look::Saved(saved_put(put)?)),
        None => Ok(Look::NotYet),
    }
}

// Records that the file was loaded on the worker, and served.
fn record_load<T: Ticket>(
    journal: &mut Ledger<T>,
    actor: Actor,
    worker: WorkerId,
    file: FileId,
    digest: Digest,
)
    requires { 2 ≤ journal.old.spare }
    ensures events { journal.new.events ≡ record { actor = actor; act = Act.Served file digest } ∷ record { actor = actor; act = Act.Load worker file } ∷ journal.old.events }
    ensures header { journal.new.header ≡ journal.old.header }
    ensures spare { journal.old.spare ≤ journal.new.spare + 2 }
{
    journal.append(Event {
        actor,
        act: Act::Load(worker, file),
    });
    journal.append(Event {
        actor,
        act: Act::Served(file, digest),
    });
}
