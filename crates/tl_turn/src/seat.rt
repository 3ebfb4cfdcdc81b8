//! A seat, through which a thread takes part.
ghost use Rattle.std.specs.Prelude.{◌≡◌};

use crate::law::Pass;
use crate::told::Told;
use std::marker::Model;

/// A place at one turn, for one thread at a time. It takes no part in the turn of another `Turn` than its own.
///
/// Contracts see it as a `SeatView`: its turn, its number, the log as it last saw it, the entries that it made and
/// whether it holds the turn. One that is dropped is never joined, so its turn cannot be closed.
#[derive(Drop)]
pub struct Seat<S: Told> {
    pub(crate) number: u8,
    pub(crate) pass: Pass<S>,
}

impl<S: Told> Model for Seat<S> {
    ghost use Rattle.tl_turn.specs.Views.{SeatView};

    ghost Value = { SeatView S.Entry };

    ghost use Rattle.tl_turn.specs.Plays.{is_serving, IsSeat};

    ghost view = { λ s. record {
      turn = s.pass.table_id;
      number = s.number;
      seen = s.pass.me.0.seen;
      mine = s.pass.me.0.mine;
      holds = is_serving s.pass.me.0.role;
    } };

    ghost invariant = { λ s. IsSeat S.maker s.number s.pass.me };
}

impl<S: Told> Seat<S> {
    /// How many seats were made before it, which its entries carry.
    pub fn number(&self) -> u8
        ensures { result ≡ self.now.number }
    {
        self.number
    }
}
