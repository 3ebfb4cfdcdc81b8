//! The main events of a read.

ghost use Rattle.std.specs.Prelude.{◌≡◌, ◌<◌, ◌∷◌, Some, true, false, IfOk, IsSome, OnErr, OnOk};
ghost use Rattle.tl_types.specs.Block.{FileOutcome};
ghost use Rattle.tl_types.specs.Outcome.{digest_of};
ghost use Rattle.tl_model.specs.Actors.{OpenRead as Opened, open_read};
ghost use Rattle.tl_model.specs.Past.{events_with, without_tickets};
ghost use Rattle.tl_model.specs.Residency.{is_resident, saved_as};
ghost use Rattle.tl_model.specs.Rules.{is_lawful};
ghost use Rattle.tl_model.specs.Values.{value};
ghost use Rattle.tl_cluster.specs.Looks.{InStore};
ghost use Rattle.tl_cluster.specs.Stands.{Agrees, IsReading, IsRoomierOnly, Stands};
ghost use Rattle.tl_cluster.specs.Saves.{saved_block};
ghost use Rattle.tl_cluster.specs.Main.{IsLoaded, with_served, with_shut};
ghost use Rattle.tl_cluster.specs.State.{held};

use crate::copying::look_at;
use crate::look::Look;
use crate::parts::Parts;
use tl_io::Ticket;
use tl_model::{Act, Event};
use tl_steps::OpenRead;
use tl_types::{Actor, Block, Digest, FileId, NoMemory, Shared, WorkerId};

impl<T: Ticket> Parts<T> {
    /// The file of the read that the actor has open.
    pub(crate) fn file_read(&self, actor: Actor) -> FileId
        requires lawful { is_lawful self.now.header self.now.events ≡ true }
        requires reading { IsSome (open_read (without_tickets self.now.events) actor) }
        ensures { (read : Opened) → open_read (without_tickets self.now.events) actor
            ≡ Some read →
            result ≡ read.file }
    {
        match self.reading(actor) {
            Some(read) => read.file(),
            None => unreachable!(),
        }
    }

    // The read that the actor has open, if it has one.
    fn reading(&self, actor: Actor) -> Option<OpenRead>
        requires { is_lawful self.now.header self.now.events ≡ true }
        ensures { result ≡ open_read (without_tickets self.now.events) actor }
    {
        self.ledger.reading(actor)
    }

    /// The block of a file that is in some memory.
    pub(crate) fn block(&self, file: FileId) -> Result<Option<Shared<Block>>, NoMemory>
        ensures { IfOk result (λ block. block ≡ held file self.now.workers) }
    {
        match self.fleet.find(file) {
            Some((_, block)) => Ok(Some(block.try_clone()?)),
            None => Ok(None),
        }
    }

    /// What is kept of a file that is in no memory.
    pub(crate) fn look_in_store(&self, file: FileId) -> Result<Look<T>, NoMemory>
        requires stands { Stands T.tells T.content self.now }
        requires nowhere { is_resident (without_tickets self.now.events) file ≡ false }
        ensures { IfOk result (InStore T.tells T.content self.now.events file) }
    {
        look_at(self.vault.get(file))
    }

    /// Serves the actor's open read by a block that is held, of this digest.
    pub(crate) fn serve(&mut self, actor: Actor, file: FileId, digest: Digest)
        requires actor { actor.0 < 16 }
        requires stands { Stands T.tells T.content self.old }
        requires reading { IsReading (without_tickets self.old.events) actor file }
        requires held { (block : FileOutcome) × (held file self.old.workers ≡ Some block)
            × (digest.0 ≡ digest_of block.outcome) }
        ensures served { self.new ≡ with_served actor file digest self.old }
        ensures agrees { Agrees T.tells T.content self.new }
    {
        self.fleet.touch(file);
        self.ledger.append(Event {
            actor,
            act: Act::Served(file, digest),
        });
    }

    /// Gives the actor's open read up.
    pub(crate) fn give_up(&mut self, actor: Actor, file: FileId)
        requires actor { actor.0 < 16 }
        requires stands { Stands T.tells T.content self.old }
        requires reading { IsReading (without_tickets self.old.events) actor file }
        ensures shut { self.new ≡ with_shut actor file self.old }
        ensures agrees { Agrees T.tells T.content self.new }
    {
        self.ledger.append(Event {
            actor,
            act: Act::Shut(file),
        });
    }

    /// Brings the block of a file that is in no memory to the worker, and serves the actor's
    /// open read by it. `Err` changes nothing that contracts of a cluster see.
    pub(crate) fn load(
        &mut self,
        actor: Actor,
        worker: WorkerId,
        block: Shared<Block>,
    ) -> Result<(), NoMemory>
        requires actor { actor.0 < 16 }
        requires worker { worker.0 < self.old.header.workers }
        requires stands { Stands T.tells T.content self.old }
        requires reading { IsReading (without_tickets self.old.events) actor block.file }
        requires saved { saved_as (without_tickets self.old.events) block.file ≡ Some
            (saved_block block) }
        requires value { T.tells ≡ true → block.outcome ≡ value
            (events_with T.content self.old.events) block.file }
        requires nowhere { is_resident (without_tickets self.old.events) block.file ≡ false }
        ensures loaded { OnOk result (IsLoaded actor worker block self.old self.new) }
        ensures agrees { OnOk result (Agrees T.tells T.content self.new) }
        ensures err { OnErr result (IsRoomierOnly T.tells T.content self.old self.new) }
    {
        self.reserve(1)?;
        let file = block.get().file();
        let digest = block.get().digest();
        if self.fleet.install(worker, block).is_err() {
            return Err(NoMemory);
        }
        self.fleet.touch(file);
        self.ledger.append(Event {
            actor,
            act: Act::Load(worker, file),
        });
        self.ledger.append(Event {
            actor,
            act: Act::Served(file, digest),
        });
        Ok(())
    }
}
