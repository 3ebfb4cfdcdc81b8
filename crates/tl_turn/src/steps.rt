//! The steps of a turn on the table, over plain passes.
ghost use Rattle.std.specs.Prelude.{◌≡◌, ◌^◌, ◌<◌, ◌∷◌, [], true, length, None};
ghost use mathlib.Core.List.{IsSuffix};
ghost use Rattle.tl_turn.specs.Log.{entries_by, IsAddedBy};
ghost use Rattle.tl_turn.specs.Plays.{is_away, is_serving, gone, IsAtTurn, IsLock};

use crate::law::{COUNT, Draw, Extend, Learn, Look, Pass, PassOn, SERVING, STATE, Shelf, TICKET};
use crate::told::Told;
use std::sync::Wait;

// Takes a ticket, sleeps until it is served, and takes the state out. A seat sleeps only while the word that it sleeps
// on is the one that it saw, and that word changes before sleepers are woken.
pub(crate) fn wait_and_take<S: Told, R: Wait>(rt: &R, shelf: &Shelf<S>, pass: &mut Pass<S>) -> S
    requires table { (pass.old.table_id ≡ shelf.now.table_id) × IsLock shelf.now.table_id }
    requires away { (is_away pass.old.me.0.role ≡ true) × (pass.old.me.1 ≡ []) }
    ensures table { pass.new.table_id ≡ pass.old.table_id }
    ensures turn { IsAtTurn pass.old.me.0 (S.log result) pass.new.me }
    ensures seen { IsSuffix pass.old.me.0.seen (S.log result) }
    ensures mine { entries_by S.maker pass.old.me.0.number (S.log result) ≡ pass.old.me.0.mine }
    ensures room { length (S.log result) < 2 ^ 64 }
{
    let ticket = shelf.fetch_add::<Draw>(pass, TICKET, 1);
    for _ in rt.forever() {
        let serving = shelf.load::<Look>(pass, SERVING);
        if serving == ticket {
            return shelf.exchange(pass, STATE, None).unwrap();
        }
        shelf.park(rt, SERVING, (serving % (1 << 32)) as u32);
    }
    unreachable!()
}

// Puts the state back and serves the next ticket.
pub(crate) fn give_and_pass<S: Told>(shelf: &Shelf<S>, pass: &mut Pass<S>, state: S)
    requires table { (pass.old.table_id ≡ shelf.now.table_id) × IsLock shelf.now.table_id }
    requires turn { (is_serving pass.old.me.0.role ≡ true) × (pass.old.me.1 ≡ (0, None) ∷ []) }
    requires log { IsAddedBy S.maker pass.old.me.0.number pass.old.me.0.seen (S.log state) }
    requires room { length (S.log state) < 2 ^ 64 }
    ensures table { pass.new.table_id ≡ pass.old.table_id }
    ensures away { pass.new.me ≡ (
      gone pass.old.me.0 (S.log state) (entries_by S.maker pass.old.me.0.number (S.log state)),
      [],
    ) }
{
    let known = shelf.load::<Learn>(pass, COUNT);
    let added = state.entries() - known;
    match shelf.exchange(pass, STATE, Some(state)) {
        None => {}
        Some(_) => unreachable!(),
    }
    shelf.fetch_add::<Extend>(pass, COUNT, added);
    let served = shelf.fetch_add::<PassOn>(pass, SERVING, 1);
    wake_waiting(shelf, served);
}

// Wakes those that wait after the ticket `served`. Who draws a ticket after this look finds it served, and doesn't sleep.
fn wake_waiting<S: Told>(shelf: &Shelf<S>, served: u64)
    requires { IsLock shelf.now.table_id }
{
    if shelf.peek(TICKET) != served.wrapping_add(1) {
        shelf.wake_all(SERVING);
    }
}
