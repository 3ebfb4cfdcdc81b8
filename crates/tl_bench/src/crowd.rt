//! The seats of one turn.
ghost use Rattle.std.specs.Prelude.{◌≡◌, ◌+◌, ◌≤◌, [], false, length, All, IfOk, OnOk, vec_len};

use crate::book::Book;
use std::alloc::{AllocError, Global};
use tl_turn::{Root, Seat, Turn};

/// Makes so many seats, in the order of their numbers.
pub fn seats_of(
    alloc: Global,
    turn: &Turn<Book>,
    root: &mut Root<Book>,
    many: u8,
) -> Result<Vec<Seat<Book>>, AllocError>
    requires few { many ≤ 64 }
    requires fresh { (root.old.turn ≡ turn.now) × (root.old.made ≡ 0) × (root.old.joined ≡ []) }
    ensures seats { IfOk result (λ seats. (vec_len seats ≡ many) × All (λ seat. (seat.turn ≡ turn.now) × (seat.holds ≡ false)) seats.items) }
    ensures root { OnOk result ((root.new.turn ≡ turn.now) × (root.new.made ≡ many) × (root.new.joined ≡ [])) }
{
    let mut seats = Vec::new(alloc);
    for _ in 0..many {
        seats.push(root.seat(turn))?;
    }
    Ok(seats)
}

/// Takes in each of the seats.
pub fn join_all(turn: &Turn<Book>, root: &mut Root<Book>, mut seats: Vec<Seat<Book>>)
    requires { (root.old.turn ≡ turn.now) × All (λ seat. (seat.turn ≡ turn.now) × (seat.holds ≡ false)) seats.items }
    ensures { (root.new.turn ≡ turn.now) × (root.new.made ≡ root.old.made) × (length root.new.joined ≡ length root.old.joined + vec_len seats) }
{
    while let Some(seat) = seats.pop() {
        root.join(turn, seat);
    }
}
