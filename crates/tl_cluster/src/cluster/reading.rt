//! The turns of a read.

ghost use Rattle.std.specs.Prelude.{◌≡◌, ◌<◌, ◌∷◌, true, IsSome, IfOk, OnErr};
ghost use Rattle.tl_model.specs.Actors.{OpenRead, open_read};
ghost use Rattle.tl_model.specs.declared.event.Act.TheVariants.{Shut};
ghost use Rattle.tl_model.specs.Values.{value};
ghost use Rattle.tl_cluster.specs.Looks.{IsSavedBlock, Loaded, Looked};
ghost use Rattle.tl_cluster.specs.State.{past_of, told_of};
ghost use Rattle.tl_cluster.specs.Turned.{Turned, as_held};

use crate::cluster::Cluster;
use crate::look::Look;
use tl_io::Ticket;
use tl_types::{Actor, Block, NoMemory, Shared, WorkerId};

impl<T: Ticket> Cluster<T> {
    /// Looks for the file of the actor's open read. Where a memory has it, the read is served.
    pub fn look(&mut self, actor: Actor) -> Result<Look<T>, NoMemory>
        requires actor { actor.0 < 16 }
        requires reading { IsSome (open_read (past_of self.old) actor) }
        ensures ok { (read : OpenRead) → open_read (past_of self.old) actor ≡ Some read →
            IfOk result (Looked T.tells T.content self.old self.new actor read.file) }
        ensures err { OnErr result (self.new ≡ self.old) }
    {
        let file = self.parts.file_read(actor);
        match self.parts.block(file)? {
            Some(block) => {
                self.parts.serve(actor, file, block.get().digest());
                self.parts.settle(actor);
                Ok(Look::Have(block))
            }
            None => self.parts.look_in_store(file),
        }
    }

    /// Serves the actor's open read by the block that was loaded for it from the checkpoint store,
    /// which comes to the worker; or by the one that is held, where the file is in some memory.
    pub fn loaded(
        &mut self,
        actor: Actor,
        worker: WorkerId,
        block: Shared<Block>,
    ) -> Result<Shared<Block>, NoMemory>
        requires actor { actor.0 < 16 }
        requires worker { worker.0 < self.old.header.workers }
        requires reading { IsSome (open_read (past_of self.old) actor) }
        requires file { (read : OpenRead) → open_read (past_of self.old) actor ≡ Some read →
            block.file ≡ read.file }
        requires saved { IsSavedBlock self.old block }
        requires value { T.tells ≡ true →
            block.outcome ≡ value (told_of T.content self.old) block.file }
        ensures ok { IfOk result (Loaded self.old self.new actor worker block) }
        ensures err { OnErr result (self.new ≡ self.old) }
    {
        let file = block.get().file();
        match self.parts.block(file)? {
            Some(held) => {
                self.parts.serve(actor, file, held.get().digest());
                self.parts.settle(actor);
                Ok(held)
            }
            None => {
                let answer = block.try_clone()?;
                self.parts.load(actor, worker, block)?;
                self.parts.settle(actor);
                Ok(answer)
            }
        }
    }

    /// Gives up the actor's open read.
    pub fn shut(&mut self, actor: Actor)
        requires actor { actor.0 < 16 }
        requires reading { IsSome (open_read (past_of self.old) actor) }
        ensures { (read : OpenRead) → open_read (past_of self.old) actor ≡ Some read →
            Turned actor self.old
            (record { actor = actor; act = Shut read.file } ∷ self.old.events)
            (as_held self.old) self.new }
    {
        let file = self.parts.file_read(actor);
        self.parts.give_up(actor, file);
        self.parts.settle(actor);
    }
}
