//! The rule of the lock's table, and what each step tells. These types are for the proofs alone.
use crate::told::Told;
use crate::view::View;
use atomic_table::{Join, Play, Shared, Split, TableRule};

/// The word with the number of entries.
pub(crate) const COUNT: usize = 0;

/// The word with the number of tickets drawn.
pub(crate) const TICKET: usize = 1;

/// The word with the number of tickets served, on which seats sleep.
pub(crate) const SERVING: usize = 2;

/// The slot of the state.
pub(crate) const STATE: usize = 0;

/// The lock's table as threads share it.
pub(crate) type Shelf<S> = Shared<Option<S>, View<<S as Told>::Entry>, (), Law>;

/// What one thread knows of it.
pub(crate) type Pass<S> = atomic_table::Seat<Option<S>, View<<S as Told>::Entry>>;

pub struct Law;

impl<S: Told> TableRule<Option<S>, View<S::Entry>, ()> for Law {
    ghost use Rattle.tl_turn.specs.Law.{Kept};
    ghost use Rattle.tl_turn.specs.Plays.{new_root};

    ghost holds = { λ _. Kept S.maker S.log };

    ghost first = { λ _. new_root };
}

pub(crate) struct Draw;

impl<S: Told> Play<Option<S>, View<S::Entry>> for Draw {
    ghost use Rattle.tl_turn.specs.Plays.{drew};

    ghost then = { λ _. drew };
}

pub(crate) struct Look;

impl<S: Told> Play<Option<S>, View<S::Entry>> for Look {
    ghost use Rattle.tl_turn.specs.Plays.{looked};

    ghost then = { λ _. looked S.maker S.log };
}

pub(crate) struct Learn;

impl<S: Told> Play<Option<S>, View<S::Entry>> for Learn {
    ghost use Rattle.tl_turn.specs.Plays.{learned};

    ghost then = { λ _. learned };
}

pub(crate) struct Extend;

impl<S: Told> Play<Option<S>, View<S::Entry>> for Extend {
    ghost use Rattle.tl_turn.specs.Plays.{extended};

    ghost then = { λ _. extended S.maker S.log };
}

pub(crate) struct PassOn;

impl<S: Told> Play<Option<S>, View<S::Entry>> for PassOn {
    ghost use Rattle.tl_turn.specs.Plays.{passed};

    ghost then = { λ _. passed };
}

pub(crate) struct TellOwn;

impl<S: Told> Play<Option<S>, View<S::Entry>> for TellOwn {
    ghost use Rattle.tl_turn.specs.Plays.{told_own};

    ghost then = { λ _. told_own S.maker };
}

pub(crate) struct TellBoth;

impl<S: Told> Play<Option<S>, View<S::Entry>> for TellBoth {
    ghost use Rattle.tl_turn.specs.Plays.{told_both};

    ghost then = { λ _. told_both };
}

pub(crate) struct MakeSeat;

impl<E> Split<View<E>> for MakeSeat {
    ghost use Rattle.tl_turn.specs.Plays.{with_seat_made, seat_made};

    ghost left = { with_seat_made };

    ghost right = { seat_made };
}

pub(crate) struct TakeIn;

impl<E> Join<View<E>> for TakeIn {
    ghost use Rattle.tl_turn.specs.Plays.{with_seat_joined, spent};

    ghost both = { with_seat_joined };

    ghost spent = { spent };
}
