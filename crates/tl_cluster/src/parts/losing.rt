//! The main event of a loss.

ghost use Rattle.std.specs.Prelude.{◌≡◌, ◌+◌, ◌<◌, ◌≤◌};
ghost use Rattle.tl_fleet.specs.Workers.{held_count};
ghost use Rattle.tl_cluster.specs.Main.{with_lost};
ghost use Rattle.tl_cluster.specs.Stands.{Agrees, Stands};

use crate::parts::Parts;
use tl_io::Ticket;
use tl_model::{Act, Event};
use tl_types::{Actor, WorkerId};

impl<T: Ticket> Parts<T> {
    /// Empties the worker, and counts the loss.
    pub(crate) fn lose(&mut self, actor: Actor, worker: WorkerId)
        requires actor { actor.0 < 16 }
        requires worker { worker.0 < self.old.header.workers }
        requires stands { Stands T.tells T.content self.old }
        requires room { 51 + held_count self.old.workers ≤ self.old.spare }
        ensures lost { self.new ≡ with_lost actor worker self.old }
        ensures agrees { Agrees T.tells T.content self.new }
    {
        self.ledger.append(Event {
            actor,
            act: Act::Lose(worker),
        });
        let _count = self.ledger.len();
        self.fleet.lose(worker);
    }
}
