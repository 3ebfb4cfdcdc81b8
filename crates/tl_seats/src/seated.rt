//! An actor that takes turns at a cluster.

ghost use Rattle.std.specs.Prelude.{◌≡◌, ◌<◌, ◌^◌, false, true, length};
ghost use Rattle.tl_model.specs.Past.{events_with};
ghost use Rattle.tl_model.specs.Rules.{is_lawful, is_legal};

use crate::named::Named;
use crate::shared::Shared;
use std::sync::Wait;
use tl_io::Ticket;
use tl_turn::{Seat, Turn};
use tl_types::Actor;

/// The desk of the actor with its seat's number, over a seat that holds no turn. What the seat has
/// seen is lawful with the header that `N` names, and legal where the bytes are told.
#[derive(Drop)]
pub struct Seated<'a, R: Wait, T: Ticket, N: Named> {
    pub(crate) rt: &'a R,
    pub(crate) turn: &'a Turn<Shared<T, N>>,
    pub(crate) seat: Seat<Shared<T, N>>,
    pub(crate) actor: Actor,
    ghost of: { seat.turn ≡ turn.now },
    ghost number: { seat.number ≡ actor.0 },
    ghost away: { seat.holds ≡ false },
    ghost lawful: { is_lawful N.header seat.seen ≡ true },
    ghost legal: { T.tells ≡ true →
        is_legal N.header (events_with T.content seat.seen) ≡ true },
    ghost count: { length seat.seen < 2 ^ 64 },
}

impl<'a, R: Wait, T: Ticket, N: Named> Seated<'a, R, T, N> {
    /// The seat's desk. The seat is of this lock, and may have seen nothing yet.
    pub fn new(
        rt: &'a R,
        turn: &'a Turn<Shared<T, N>>,
        seat: Seat<Shared<T, N>>,
    ) -> Seated<'a, R, T, N>
        requires of { seat.turn ≡ turn.now }
        requires away { seat.holds ≡ false }
        requires lawful { is_lawful N.header seat.seen ≡ true }
        requires legal { T.tells ≡ true →
            is_legal N.header (events_with T.content seat.seen) ≡ true }
        requires count { length seat.seen < 2 ^ 64 }
        ensures turn { result.turn ≡ turn.entry }
        ensures seat { result.seat ≡ seat }
        ensures actor { result.actor.0 ≡ seat.number }
    {
        let actor = Actor(seat.number());
        Seated {
            rt,
            turn,
            seat,
            actor,
        }
    }

    /// The seat, of which a desk can be made again.
    pub fn into_seat(self) -> Seat<Shared<T, N>>
        ensures seat { result ≡ self.entry.seat }
        ensures of { result.turn ≡ self.entry.turn.now }
        ensures number { result.number ≡ self.entry.actor.0 }
        ensures away { result.holds ≡ false }
        ensures lawful { is_lawful N.header result.seen ≡ true }
        ensures legal { T.tells ≡ true →
            is_legal N.header (events_with T.content result.seen) ≡ true }
        ensures count { length result.seen < 2 ^ 64 }
    {
        self.seat
    }
}
