//! How records are let go.

ghost use Rattle.std.specs.Prelude.{◌≡◌, ◌+◌, ◌<◌, ◌≤◌, true, false, Some, None, IfOk, OnErr};
ghost use Rattle.tl_fleet.specs.Workers.{held_count};
ghost use Rattle.tl_model.specs.Needs.{garbage};
ghost use Rattle.tl_model.specs.Past.{without_tickets};
ghost use Rattle.tl_cluster.specs.Collected.{Collected, HasRoomToCollect, IsLetGo};
ghost use Rattle.tl_cluster.specs.Jobs.{state_of};
ghost use Rattle.tl_cluster.specs.Main.{with_let_go};
ghost use Rattle.tl_cluster.specs.Stands.{Agrees, Stands};

use crate::parts::Parts;
use tl_io::Ticket;
use tl_model::{Act, Event};
use tl_types::{Actor, NoMemory, RecordId};

impl<T: Ticket> Parts<T> {
    /// Lets go of the `n` least records that are kept and not needed, one after another, or of all
    /// where there are fewer; answers of how many. All room is made before the first.
    pub(crate) fn collect(&mut self, actor: Actor, n: u32) -> Result<u32, NoMemory>
        requires actor { actor.0 < 16 }
        requires stands { Stands T.tells T.content self.old }
        ensures collected { IfOk result
            (Collected actor n (state_of self.old) (state_of self.new)) }
        ensures stands { Stands T.tells T.content self.new }
        ensures err { OnErr result (self.new ≡ self.old) }
    {
        let most = n.min(self.ledger.accepted().0);
        self.reserve(most as usize)?;
        Ok(self.collect_most(actor, n))
    }

    // The same, where there is room.
    fn collect_most(&mut self, actor: Actor, n: u32) -> u32
        requires actor { actor.0 < 16 }
        requires stands { Stands T.tells T.content self.old }
        requires room { HasRoomToCollect n self.old }
        ensures collected { Collected actor n (state_of self.old) (state_of self.new) result }
        ensures stands { Stands T.tells T.content self.new }
    {
        for count in 0..n {
            if !self.collect_one(actor) {
                return count;
            }
        }
        n
    }

    // Lets go of the least record that is kept and not needed, if there is one; answers whether
    // there was.
    fn collect_one(&mut self, actor: Actor) -> bool
        requires actor { actor.0 < 16 }
        requires stands { Stands T.tells T.content self.old }
        requires room { 51 + held_count self.old.workers ≤ self.old.spare }
        ensures more { result ≡ true → IsLetGo T.tells T.content actor self.old self.new }
        ensures none { result ≡ false → (self.new ≡ self.old)
            × (garbage (without_tickets self.old.events) ≡ None) }
    {
        match self.garbage() {
            Some(made) => {
                self.let_go(actor, made);
                self.settle(actor);
                true
            }
            None => false,
        }
    }

    // The least record that is kept and not needed, if there is one. It changes nothing that
    // contracts see.
    fn garbage(&mut self) -> Option<RecordId>
        requires { Stands T.tells T.content self.old }
        ensures least { result ≡ garbage (without_tickets self.old.events) }
        ensures same { self.new ≡ self.old }
    {
        self.ledger.garbage()
    }

    // Lets go of the least record that is kept and not needed.
    fn let_go(&mut self, actor: Actor, made: RecordId)
        requires actor { actor.0 < 16 }
        requires stands { Stands T.tells T.content self.old }
        requires least { garbage (without_tickets self.old.events) ≡ Some made }
        requires room { 51 + held_count self.old.workers ≤ self.old.spare }
        ensures let_go { self.new ≡ with_let_go actor made self.old }
        ensures agrees { Agrees T.tells T.content self.new }
    {
        self.ledger.append(Event {
            actor,
            act: Act::Collect(made),
        });
    }
}
