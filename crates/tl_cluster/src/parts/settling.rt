//! The drops that settle the workers' memories.

ghost use Rattle.std.specs.Prelude.{◌≡◌, ◌<◌, true, false};
ghost use Rattle.tl_model.specs.Past.{without_tickets};
ghost use Rattle.tl_model.specs.Rules.{last_actor_is};
ghost use Rattle.tl_model.specs.Eviction.{Sizes};
ghost use Rattle.tl_model.specs.Rules.{all_permitted, lawful_judge};
ghost use Rattle.tl_fleet.specs.Order.{StandsInOrder, due};
ghost use Rattle.tl_fleet.specs.Workers.{dropped, first_to_drop};
ghost use Rattle.tl_cluster.specs.Stands.{Agrees, Stands};
ghost use Rattle.tl_cluster.specs.Turned.{IsDrop, Settled, is_protected};

use crate::parts::Parts;
use crate::protected::Protected;
use tl_fleet::Fleet;
use tl_io::Ticket;
use tl_ledger::Ledger;
use tl_model::{Act, Event};
use tl_types::{Actor, FileId, WorkerId};

impl<T: Ticket> Parts<T> {
    /// Drops files, each the one that is due, as long as a worker must drop one.
    pub(crate) fn settle(&mut self, actor: Actor)
        requires actor { actor.0 < 16 }
        requires agrees { Agrees T.tells T.content self.old }
        requires last { last_actor_is (without_tickets self.old.events) actor ≡ true }
        ensures stands { Stands T.tells T.content self.new }
        ensures settled { Settled actor self.old self.new }
    {
        while self.drop_one(actor) {}
    }

    // Drops the file that is due, if one is; answers whether one was.
    fn drop_one(&mut self, actor: Actor) -> bool
        requires actor { actor.0 < 16 }
        requires agrees { Agrees T.tells T.content self.old }
        requires last { last_actor_is (without_tickets self.old.events) actor ≡ true }
        ensures more { result ≡ true → IsDrop T.tells T.content actor self.old self.new }
        ensures none { result ≡ false → (self.new ≡ self.old) × Stands T.tells T.content self.new }
    {
        match drop_due(&self.ledger, &mut self.fleet) {
            Some((worker, file)) => {
                let act = Act::Drop(worker, file);
                self.ledger.append(Event { actor, act });
                true
            }
            None => false,
        }
    }
}

// Drops the file that is due, if one is.
fn drop_due<T: Ticket>(ledger: &Ledger<T>, fleet: &mut Fleet) -> Option<(WorkerId, FileId)>
    requires { all_permitted lawful_judge ledger.now.header ledger.now.events ≡ true }
    ensures dropped { fleet.new ≡ dropped result fleet.old }
    ensures first { first_to_drop (is_protected ledger.now.events) fleet.old ≡ result }
    ensures due { (sizes : Sizes) → StandsInOrder sizes ledger.now.header
        (without_tickets ledger.now.events) fleet.old →
        due sizes ledger.now.header (without_tickets ledger.now.events) ≡ result }
{
    let protected = Protected { ledger };
    fleet.settle_one(&protected)
}
