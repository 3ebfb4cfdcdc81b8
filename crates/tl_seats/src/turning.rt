//! How an actor takes its turn, and how it ends it.

ghost use Rattle.std.specs.Prelude.{◌≡◌, ◌<◌, ◌^◌, false, true, length};
ghost use Rattle.tl_types.specs.declared.actor.Actor.{Actor};
ghost use Rattle.tl_model.specs.Past.{events_with};
ghost use Rattle.tl_model.specs.Rules.{is_lawful, is_legal};
ghost use Rattle.tl_turn.specs.Log.{IsAddedBy};
ghost use Rattle.tl_desk.specs.Finds.{Finds};
ghost use Rattle.tl_seats.specs.Seats.{number_of};

use crate::named::Named;
use crate::shared::Shared;
use std::sync::Wait;
use tl_cluster::Cluster;
use tl_io::Ticket;
use tl_turn::{Seat, Turn};

/// Waits for the seat's turn, and takes the cluster. Events of others alone came since the seat's
/// last turn.
pub(crate) fn enter<R: Wait, T: Ticket, N: Named>(
    rt: &R,
    turn: &Turn<Shared<T, N>>,
    seat: &mut Seat<Shared<T, N>>,
) -> Cluster<T>
    requires of { seat.old.turn ≡ turn.now }
    requires away { seat.old.holds ≡ false }
    ensures turn { seat.new.turn ≡ turn.now }
    ensures number { seat.new.number ≡ seat.old.number }
    ensures seen { seat.new.seen ≡ result.events }
    ensures holds { seat.new.holds ≡ true }
    ensures header { result.header ≡ N.header }
    ensures found { (actor : Actor) → seat.old.number ≡ actor.0 →
        Finds false actor seat.old.seen result.events }
{
    turn.enter(rt, seat).into_cluster()
}

/// Ends the seat's turn with the cluster, to which it added events of its own alone.
pub(crate) fn leave<T: Ticket, N: Named>(
    turn: &Turn<Shared<T, N>>,
    seat: &mut Seat<Shared<T, N>>,
    cluster: Cluster<T>,
)
    requires of { seat.old.turn ≡ turn.now }
    requires holds { seat.old.holds ≡ true }
    requires header { cluster.header ≡ N.header }
    requires added { IsAddedBy number_of seat.old.number seat.old.seen cluster.events }
    ensures turn { seat.new.turn ≡ turn.now }
    ensures number { seat.new.number ≡ seat.old.number }
    ensures seen { seat.new.seen ≡ cluster.events }
    ensures holds { seat.new.holds ≡ false }
    ensures lawful { is_lawful N.header cluster.events ≡ true }
    ensures legal { T.tells ≡ true →
        is_legal N.header (events_with T.content cluster.events) ≡ true }
    ensures count { length cluster.events < 2 ^ 64 }
{
    cluster.stands();
    let _count = cluster.journal().len();
    turn.leave(seat, Shared::new(cluster));
}
