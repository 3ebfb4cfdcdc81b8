//! The turns of a save.

ghost use Rattle.std.specs.Prelude.{◌≡◌, ◌<◌, ◌∷◌, true, Some, IfOk, OnErr};
ghost use Rattle.tl_model.specs.declared.event.Act.TheVariants.{Unsave};
ghost use Rattle.tl_model.specs.Actors.{is_idle, open_save};
ghost use Rattle.tl_model.specs.Values.{value};
ghost use Rattle.tl_cluster.specs.Kept.{IsSavedFor};
ghost use Rattle.tl_cluster.specs.Saves.{Begun, saved_block, saving};
ghost use Rattle.tl_cluster.specs.State.{past_of, told_of};
ghost use Rattle.tl_cluster.specs.Turned.{Turned, as_held};

use crate::cluster::Cluster;
use crate::saving::SaveJob;
use tl_io::Ticket;
use tl_model::Saved;
use tl_types::{Actor, NoMemory};

impl<T: Ticket> Cluster<T> {
    /// Takes up the file that is saved next, if there is one, with the block that is held of it.
    pub fn save_begin(&mut self, actor: Actor) -> Result<Option<SaveJob>, NoMemory>
        requires actor { actor.0 < 16 }
        requires idle { is_idle (past_of self.old) actor ≡ true }
        ensures ok { IfOk result (Begun self.old self.new actor) }
        ensures err { OnErr result (self.new ≡ self.old) }
    {
        match self.parts.next_save() {
            Some(file) => {
                let Some(block) = self.parts.block(file)? else {
                    unreachable!();
                };
                self.parts.ready_to_save(file)?;
                let place = self.parts.count();
                self.parts.begin_save(actor, file);
                self.parts.settle(actor);
                Ok(Some(SaveJob {
                    actor,
                    place,
                    block,
                }))
            }
            None => Ok(None),
        }
    }

    /// Ends a save: what is kept of the file's block in the checkpoint store. It takes no memory.
    pub fn saved(&mut self, job: SaveJob, saved: Saved<T>)
        requires actor { job.actor.0 < 16 }
        requires open { open_save (past_of self.old) job.actor ≡ Some job.block.file }
        requires kept { IsSavedFor T.tells T.content
            (saved_block job.block) job.block.outcome saved }
        requires value { T.tells ≡ true →
            job.block.outcome ≡ value (told_of T.content self.old) job.block.file }
        ensures { Turned job.actor self.old (saving job self.old.events)
            (as_held self.old) self.new }
    {
        self.parts.end_save(job.actor, job.block.get(), saved);
        self.parts.settle(job.actor);
    }

    /// Gives a save up. It takes no memory.
    pub fn unsave(&mut self, job: SaveJob)
        requires actor { job.actor.0 < 16 }
        requires open { open_save (past_of self.old) job.actor ≡ Some job.block.file }
        ensures { Turned job.actor self.old
            (record { actor = job.actor; act = Unsave job.block.file } ∷ self.old.events)
            (as_held self.old) self.new }
    {
        self.parts.give_up_save(job.actor, job.block.get().file());
        self.parts.settle(job.actor);
    }
}
