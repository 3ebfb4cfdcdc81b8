//! The loss of a worker.

ghost use Rattle.std.specs.Prelude.{◌≡◌, ◌<◌, ◌∷◌, None, OnOk, OnErr, if◌then◌else◌};
ghost use Rattle.tl_model.specs.Residency.{is_resident_on};
ghost use Rattle.tl_types.specs.declared.file_id.FileId.{FileId};
ghost use Rattle.tl_core.specs.Answers.{past_of};
ghost use Rattle.tl_core.specs.Residents.{held};

use crate::cluster::{Cluster, ROOM};
use crate::resident::empty;
use tl_io::Ticket;
use tl_model::{Act, Event};
use tl_types::{Actor, NoMemory, WorkerId};

impl<T: Ticket> Cluster<T> {
    /// The worker loses its memory: the blocks on it are held no more, and every other is as before.
    pub fn lose(&mut self, actor: Actor, worker: WorkerId) -> Result<(), NoMemory>
        requires actor { actor.0 < 16 }
        requires worker { worker.0 < self.old.header.workers }
        ensures header { self.new.header ≡ self.old.header }
        ensures events { OnOk result (self.new.events ≡ record { actor = actor; act = Act.Lose worker } ∷ self.old.events) }
        ensures held { OnOk result ((f : FileId) →
            held f self.new.residents ≡ (if is_resident_on (past_of self.old) f worker then None else held f self.old.residents)) }
        ensures err { OnErr result (self.new ≡ self.old) }
    {
        self.journal.reserve(ROOM)?;
        self.journal.append(Event {
            actor,
            act: Act::Lose(worker),
        });
        empty(&mut self.residents, worker);
        Ok(())
    }
}
