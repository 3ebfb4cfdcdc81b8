//! The turn that lets records go.

ghost use Rattle.std.specs.Prelude.{◌≡◌, ◌<◌, IfOk, OnErr};
ghost use Rattle.tl_cluster.specs.Collected.{Collected};

use crate::cluster::Cluster;
use tl_io::Ticket;
use tl_types::{Actor, NoMemory};

impl<T: Ticket> Cluster<T> {
    /// Lets go of the `n` least records that are kept and not needed, one after another, or of all
    /// where there are fewer; answers of how many. `Err` is want of memory, and changes nothing.
    pub fn collect(&mut self, actor: Actor, n: u32) -> Result<u32, NoMemory>
        requires actor { actor.0 < 16 }
        ensures collected { IfOk result (Collected actor n self.old self.new) }
        ensures err { OnErr result (self.new ≡ self.old) }
    {
        self.parts.collect(actor, n)
    }
}
