//! The loss of a worker.

ghost use Rattle.std.specs.Prelude.{◌≡◌, ◌<◌, ◌∷◌, OnErr, OnOk};
ghost use Rattle.tl_model.specs.declared.event.Act.TheVariants.{Lose};
ghost use Rattle.tl_cluster.specs.Losses.{without_worker};
ghost use Rattle.tl_cluster.specs.Turned.{Turned};

use crate::cluster::Cluster;
use tl_io::Ticket;
use tl_types::{Actor, NoMemory, WorkerId};

impl<T: Ticket> Cluster<T> {
    /// The worker loses its memory: the blocks on it are held no more, and each claim on it is
    /// void.
    pub fn lose(&mut self, actor: Actor, worker: WorkerId) -> Result<(), NoMemory>
        requires actor { actor.0 < 16 }
        requires worker { worker.0 < self.old.header.workers }
        ensures ok { OnOk result (Turned actor self.old
            (record { actor = actor; act = Lose worker } ∷ self.old.events)
            (without_worker worker self.old) self.new) }
        ensures err { OnErr result (self.new ≡ self.old) }
    {
        self.parts.reserve(0)?;
        self.parts.lose(actor, worker);
        self.parts.settle(actor);
        Ok(())
    }
}
