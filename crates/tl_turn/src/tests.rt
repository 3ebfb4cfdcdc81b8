ghost use Rattle.std.specs.Prelude.{◌≡◌, ◌+◌, ◌*◌, ◌^◌, ◌<◌, ◌≤◌, ℕ, [], ◌∷◌, false, length, All, IfOk, OnOk, OnErr, vec_len};

use crate::{Root, Seat, Told, Turn};
use std::alloc::{AllocError, Global};
use std::collections::LinkedList;
use std::sync::Wait;
use std::test::Fail;
use std::thread;

/// Numbered entries, the newest first.
#[derive(Drop)]
struct Book {
    entries: LinkedList<(u8, u64)>,
}

impl Told for Book {
    type Entry = (u8, u64);

    ghost maker = { λ entry. entry.0 };

    ghost log = { λ book. book.entries };

    fn entries(&self) -> u64 {
        self.entries.len() as u64
    }
}

impl Book {
    fn new(alloc: Global) -> Book
        ensures { result.entries ≡ [] }
    {
        Book {
            entries: LinkedList::new(alloc),
        }
    }

    fn add(&mut self, by: u8, value: u64) -> Result<(), AllocError>
        ensures ok { OnOk result (self.new.entries ≡ (by, value) ∷ self.old.entries) }
        ensures err { OnErr result (self.new.entries ≡ self.old.entries) }
    {
        self.entries.push_front((by, value))?;
        Ok(())
    }
}

// One turn, in which the seat adds an entry. It returns how many entries the seat found.
fn take_turn<R: Wait>(
    rt: &R,
    turn: &Turn<Book>,
    seat: &mut Seat<Book>,
    value: u64,
) -> Result<usize, AllocError>
    requires { (seat.old.turn ≡ turn.now) × (seat.old.holds ≡ false) }
    ensures { (seat.new.turn ≡ turn.now) × (seat.new.holds ≡ false) }
{
    let mut book = turn.enter(rt, seat);
    let found = book.entries.len();
    let added = book.add(seat.number(), value);
    turn.leave(seat, book);
    added?;
    Ok(found)
}

// A hundred turns, in which the seat counts up from 0.
fn count_up<R: Wait>(rt: &R, turn: &Turn<Book>, mut seat: Seat<Book>) -> Seat<Book>
    requires { (seat.turn ≡ turn.now) × (seat.holds ≡ false) }
    ensures { (result.turn ≡ turn.now) × (result.holds ≡ false) }
{
    for value in 0..100u64 {
        let _ = take_turn(rt, turn, &mut seat, value);
    }
    seat
}

fn eight_seats(
    alloc: Global,
    turn: &Turn<Book>,
    root: &mut Root<Book>,
) -> Result<Vec<Seat<Book>>, AllocError>
    requires { (root.old.turn ≡ turn.now) × (root.old.made ≡ 0) × (root.old.joined ≡ []) }
    ensures seats { IfOk result (λ seats. (vec_len seats ≡ 8) × All (λ seat. (seat.turn ≡ turn.now) × (seat.holds ≡ false)) seats.items) }
    ensures root { OnOk result ((root.new.turn ≡ turn.now) × (root.new.made ≡ 8) × (root.new.joined ≡ [])) }
{
    let mut seats = Vec::new(alloc);
    for _ in 0..8u8 {
        seats.push(root.seat(turn))?;
    }
    Ok(seats)
}

fn join_all(turn: &Turn<Book>, root: &mut Root<Book>, mut seats: Vec<Seat<Book>>)
    requires { (root.old.turn ≡ turn.now) × All (λ seat. (seat.turn ≡ turn.now) × (seat.holds ≡ false)) seats.items }
    ensures { (root.new.turn ≡ turn.now) × (root.new.made ≡ root.old.made) × (length root.new.joined ≡ length root.old.joined + vec_len seats) }
{
    while let Some(seat) = seats.pop() {
        root.join(turn, seat);
    }
}

#[test]
fn two_seats_in_turn(rt: HostRuntime) -> Result<(), Fail> {
    let Ok((turn, mut root)) = Turn::new(rt.alloc(), Book::new(rt.alloc())) else {
        panic!(rt; "no memory")
    };
    let mut first = root.seat(&turn);
    let mut second = root.seat(&turn);
    assert_eq!(rt; take_turn(&rt, &turn, &mut first, 7)?, 0);
    assert_eq!(rt; take_turn(&rt, &turn, &mut second, 9)?, 1);
    root.join(&turn, first);
    root.join(&turn, second);
    let mut book = turn.close(root);
    assert_eq!(rt; book.entries.pop_front(), Some((1, 9)));
    assert_eq!(rt; book.entries.pop_front(), Some((0, 7)));
    assert!(rt; book.entries.is_empty());
    Ok(())
}

#[test]
fn eight_threads_of_a_hundred_turns(rt: HostRuntime) -> Result<(), Fail> {
    let Ok((turn, mut root)) = Turn::new(rt.alloc(), Book::new(rt.alloc())) else {
        panic!(rt; "no memory")
    };
    let seats = eight_seats(rt.alloc(), &turn, &mut root)?;
    let shared = &turn;
    let seats = thread::map_vec(
        &rt,
        seats,
        &|seat: Seat<Book>| -> Seat<Book>
            requires { (seat.turn ≡ shared.now) × (seat.holds ≡ false) }
            ensures { (result.turn ≡ shared.entry.now) × (result.holds ≡ false) }
        { count_up(&rt, shared, seat) },
    )?;
    join_all(&turn, &mut root, seats);
    let book = turn.close(root);
    assert_eq!(rt; book.entries.len(), 800);
    let mut left = [100u64; 8];
    for (by, value) in &book.entries {
        let next = left
            .get_mut(usize::from(*by))
            .expect(&rt, "a number that was made");
        assert!(rt; *next > 0, "more than a hundred by {by}");
        *next -= 1;
        assert_eq!(rt; *value, *next, "by {by}");
    }
    Ok(())
}
