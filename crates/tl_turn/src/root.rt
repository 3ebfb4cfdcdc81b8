//! The root of a turn, which makes its seats.
ghost use Rattle.std.specs.Prelude.{◌≡◌, ◌+◌, ◌<◌, [], ◌∷◌, false};
ghost use mathlib.Core.List.{IsSuffix};
ghost use Rattle.tl_turn.specs.Log.{longer, entries_by};

use crate::law::{COUNT, MakeSeat, Pass, TakeIn, TellBoth, TellOwn};
use crate::seat::Seat;
use crate::told::Told;
use crate::turn::Turn;
use std::marker::Model;

/// Makes the seats of one turn and takes them in again.
///
/// Contracts see it as a `RootView`: its turn, the log as it or a joined seat last saw it, how many seats it made, and
/// the number of each joined seat with the entries that it made.
#[derive(Drop)]
pub struct Root<S: Told> {
    pub(crate) made: u8,
    pub(crate) pass: Pass<S>,
}

impl<S: Told> Model for Root<S> {
    ghost use Rattle.tl_turn.specs.Views.{RootView};

    ghost Value = { RootView S.Entry };

    ghost use Rattle.tl_turn.specs.Plays.{IsRooted};

    ghost view = { λ r. record {
      turn = r.pass.table_id;
      seen = r.pass.me.0.seen;
      made = r.made;
      joined = r.pass.me.0.joined;
    } };

    ghost invariant = { λ r. IsRooted r.made r.pass.me };
}

impl<S: Told> Root<S> {
    /// Makes a seat. Its number is how many were made before it. It has made nothing and has seen what the root has,
    /// in which no entry has its number.
    pub fn seat(&mut self, turn: &Turn<S>) -> Seat<S>
        requires of { self.old.turn ≡ turn.now }
        requires few { self.old.made < 64 }
        ensures root { self.new ≡ record self.old { made = self.old.made + 1 } }
        ensures seat { result ≡ record {
          turn = turn.now;
          number = self.old.made;
          seen = self.old.seen;
          mine = [];
          holds = false;
        } }
        ensures mine { entries_by S.maker self.old.made self.old.seen ≡ [] }
    {
        let shelf = &turn.table.shared;
        let number = self.made;
        let mut pass = shelf.split_seat::<MakeSeat>(&mut self.pass);
        self.made += 1;
        shelf.load::<TellOwn>(&mut pass, COUNT);
        Seat { number, pass }
    }

    /// Takes in a seat that holds no turn. What the root has then seen is the longer of what both had seen, and the
    /// other is its older end.
    pub fn join(&mut self, turn: &Turn<S>, seat: Seat<S>)
        requires of { (self.old.turn ≡ turn.now) × (seat.turn ≡ turn.now) }
        requires away { seat.holds ≡ false }
        ensures root { self.new ≡ record self.old {
          seen = longer self.old.seen seat.seen;
          joined = (seat.number, seat.mine) ∷ self.old.joined;
        } }
        ensures seen { IsSuffix self.old.seen self.new.seen × IsSuffix seat.seen self.new.seen }
        ensures own { entries_by S.maker seat.number seat.seen ≡ seat.mine }
    {
        let shelf = &turn.table.shared;
        let Seat { number: _, pass } = seat;
        shelf.join_seat::<TakeIn>(&mut self.pass, pass);
        shelf.load::<TellBoth>(&mut self.pass, COUNT);
    }
}
