//! The turn of a client's call.

ghost use Rattle.std.specs.Prelude.{◌≡◌, ◌<◌, true, IfOk, OnErr};
ghost use Rattle.tl_model.specs.Actors.{is_idle};
ghost use Rattle.tl_model.specs.Past.{command_with};
ghost use Rattle.tl_model.specs.Rules.{put_has_its_bytes};
ghost use Rattle.tl_cluster.specs.Called.{Called, IsFitting};
ghost use Rattle.tl_cluster.specs.State.{past_of};

use crate::cluster::Cluster;
use std::alloc::Global;
use tl_io::Ticket;
use tl_model::{Command, Reply};
use tl_types::{Actor, NoMemory};

impl<T: Ticket> Cluster<T> {
    /// Makes an idle client's call: answers its number in the history and its reply, and records
    /// it. An accepted put is recorded as saved, and is kept in the checkpoint store under a ticket
    /// of its own. A free takes the file that it names out of its memory, where it is in one. `Err`
    /// is want of memory, and changes nothing.
    pub fn call(
        &mut self,
        alloc: Global,
        actor: Actor,
        command: Command<T>,
    ) -> Result<(u64, Reply), NoMemory>
        requires client { actor.0 < 8 }
        requires idle { is_idle (past_of self.old) actor ≡ true }
        requires fitting { IsFitting command }
        requires bytes { T.tells ≡ true →
            put_has_its_bytes (command_with T.content command) ≡ true }
        ensures ok { IfOk result (Called self.old self.new actor command) }
        ensures err { OnErr result (self.new ≡ self.old) }
    {
        let answer = self.parts.call(alloc, actor, command)?;
        self.parts.settle(actor);
        Ok(answer)
    }
}
