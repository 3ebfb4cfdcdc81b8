//! The lock.
ghost use Rattle.std.specs.Prelude.{◌≡◌, ℕ, ◌^◌, ◌<◌, ◌≤◌, [], true, false, length, All, IfOk, IfErr};
ghost use mathlib.Core.List.{IsSuffix};
ghost use Rattle.tl_turn.specs.Log.{kept_of, entries_by, IsAddedBy};

use crate::law::{Law, STATE};
use crate::root::Root;
use crate::seat::Seat;
use crate::steps::{give_and_pass, wait_and_take};
use crate::told::Told;
use crate::view::View;
use atomic_table::Table;
use std::alloc::{AllocFailed, Global};
use std::marker::Model;
use std::sync::Wait;

/// A state that one seat at a time has. Contracts see it as its name, a `TurnId`, which no other turn has.
#[derive(Drop)]
pub struct Turn<S: Told> {
    pub(crate) table: Table<Option<S>, View<S::Entry>, (), Law, Global>,
}

impl<S: Told> Model for Turn<S> {
    ghost use Rattle.tl_turn.specs.Views.{TurnId};

    ghost Value = { TurnId };

    ghost use Rattle.tl_turn.specs.Plays.{IsLock};

    ghost view = { λ t. t.table.shared.table_id };

    ghost invariant = { λ t. IsLock t.table.shared.table_id };
}

impl<S: Told> Turn<S> {
    /// A turn over a state with an empty log, and its root, which has seen nothing. `Err` is want of memory, and hands
    /// the state back.
    pub fn new(alloc: Global, state: S) -> Result<(Turn<S>, Root<S>), S>
        requires { S.log state ≡ [] }
        ensures ok { IfOk result (λ new. new.1 ≡ record { turn = new.0; seen = []; made = 0; joined = [] }) }
        ensures err { IfErr result (λ back. back ≡ state) }
    {
        let mut slots = Vec::new(alloc);
        if let Err(AllocFailed { value }) = slots.push(Some(state)) {
            slots.destroy_empty();
            return Err(value.unwrap());
        }
        match Table::new(alloc, &[0, 0, 0], slots, &()) {
            Ok((table, pass)) => Ok((Turn { table }, Root { made: 0, pass })),
            Err(refused) => {
                let mut slots = refused.slots;
                let state = slots.pop().unwrap().unwrap();
                slots.destroy_empty();
                Err(state)
            }
        }
    }

    /// Waits until it is the seat's turn, and hands out the state. Its log ends with all that the seat had seen, and
    /// the entries with the seat's number are those that it made, all of which it had seen.
    pub fn enter<R: Wait>(&self, rt: &R, seat: &mut Seat<S>) -> S
        requires of { seat.old.turn ≡ self.now }
        requires away { seat.old.holds ≡ false }
        ensures seat { seat.new ≡ record seat.old { seen = S.log result; holds = true } }
        ensures seen { IsSuffix seat.old.seen (S.log result) }
        ensures mine { entries_by S.maker seat.old.number (S.log result) ≡ seat.old.mine }
        ensures own { entries_by S.maker seat.old.number seat.old.seen ≡ seat.old.mine }
        ensures room { length (S.log result) < 2 ^ 64 }
    {
        wait_and_take(rt, &self.table.shared, &mut seat.pass)
    }

    /// Ends the seat's turn, and wakes those that wait. The log is the one that `enter` found, with new entries of this
    /// seat alone before it, fewer than 2^64 in all.
    pub fn leave(&self, seat: &mut Seat<S>, state: S)
        requires of { seat.old.turn ≡ self.now }
        requires holds { seat.old.holds ≡ true }
        requires log { IsAddedBy S.maker seat.old.number seat.old.seen (S.log state) }
        requires room { length (S.log state) < 2 ^ 64 }
        ensures { seat.new ≡ record seat.old {
          seen = S.log state;
          mine = entries_by S.maker seat.old.number (S.log state);
          holds = false;
        } }
    {
        give_and_pass(&self.table.shared, &mut seat.pass, state);
    }

    /// The state, once every seat was joined. Its log is the one that the root has seen. The entries of each number are
    /// those that the root keeps of that seat, and there are no others.
    pub fn close(self, root: Root<S>) -> S
        requires of { root.turn ≡ self }
        requires joined { length root.joined ≡ root.made }
        ensures log { S.log result ≡ root.seen }
        ensures each { All (λ seat. entries_by S.maker seat.0 (S.log result) ≡ seat.1) root.joined }
        ensures whole { (number : ℕ) → entries_by S.maker number (S.log result) ≡ kept_of number root.joined }
        ensures others { (number : ℕ) → root.made ≤ number → entries_by S.maker number (S.log result) ≡ [] }
        ensures room { length (S.log result) < 2 ^ 64 }
    {
        let Turn { table } = self;
        let Root { made: _, pass } = root;
        let mut closed = table.close_with(pass);
        let state = closed.take(STATE);
        closed.free();
        state.unwrap()
    }
}
