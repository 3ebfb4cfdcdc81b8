//! Turns at a log, by threads that wait for each other.
ghost use Rattle.std.specs.Prelude.{◌≡◌, ◌≤◌, false, IfOk};

use crate::book::Book;
use crate::crowd::{join_all, seats_of};
use crate::pace::Pace;
use std::alloc::{AllocError, Global};
use std::io;
use std::rt::Clock;
use std::sync::{Mutex, Wait};
use std::thread::{self, Threads};
use std::time::Instant;
use tl_turn::{Seat, Told, Turn};

/// Has each of so many seats take so many turns, and prints how many entries they made; on standard error how long the
/// turns took, and as many under a `Mutex`. Both times have the starts and ends of the threads in them.
pub(crate) fn measure<R: Threads + Wait + Sync + Clock + Print + Eprint>(
    rt: &R,
    alloc: Global,
    seats: u8,
    turns: u32,
) -> io::Result<()>
    requires { seats ≤ 64 }
{
    let count = u64::from(seats) * u64::from(turns);
    let start = Instant::now(rt)?;
    let entries = entries_by_turn(rt, alloc, seats, turns)?;
    let turning = Pace {
        count,
        time: start.elapsed(rt)?,
    };
    let start = Instant::now(rt)?;
    let under_mutex = entries_by_mutex(rt, alloc, seats, turns)?;
    let locking = Pace {
        count,
        time: start.elapsed(rt)?,
    };
    println!(rt; "turns {seats} {turns} entries {entries}")?;
    eprintln!(rt; "  turns: {turning}")?;
    eprintln!(rt; "  mutex: {locking}, entries {under_mutex}")
}

/// How many entries a log has after each of so many seats took so many turns.
pub(crate) fn entries_by_turn<R: Threads + Wait + Sync>(
    rt: &R,
    alloc: Global,
    seats: u8,
    turns: u32,
) -> Result<u64, AllocError>
    requires { seats ≤ 64 }
{
    let Ok((turn, mut root)) = Turn::new(alloc, Book::new(alloc)) else {
        return Err(AllocError);
    };
    let seats = seats_of(alloc, &turn, &mut root, seats)?;
    let shared = &turn;
    let seats = thread::map_vec(
        rt,
        seats,
        &|seat: Seat<Book>| -> Seat<Book>
            requires { (seat.turn ≡ shared.now) × (seat.holds ≡ false) }
            ensures { (result.turn ≡ shared.entry.now) × (result.holds ≡ false) }
        { take_turns(rt, shared, seat, turns) },
    )?;
    join_all(&turn, &mut root, seats);
    Ok(turn.close(root).entries())
}

// So many turns of one seat. Where memory runs out a turn adds nothing.
fn take_turns<R: Wait>(rt: &R, turn: &Turn<Book>, mut seat: Seat<Book>, turns: u32) -> Seat<Book>
    requires { (seat.turn ≡ turn.now) × (seat.holds ≡ false) }
    ensures { (result.turn ≡ turn.now) × (result.holds ≡ false) }
{
    for value in 0..turns {
        let _ = take_turn(rt, turn, &mut seat, value);
    }
    seat
}

// One turn, in which the seat adds an entry.
fn take_turn<R: Wait>(
    rt: &R,
    turn: &Turn<Book>,
    seat: &mut Seat<Book>,
    value: u32,
) -> Result<(), AllocError>
    requires { (seat.old.turn ≡ turn.now) × (seat.old.holds ≡ false) }
    ensures { (seat.new.turn ≡ turn.now) × (seat.new.holds ≡ false) }
{
    let mut book = turn.enter(rt, seat);
    let added = book.add(seat.number(), value);
    turn.leave(seat, book);
    added
}

/// How many entries a log under a `Mutex` has after each of so many threads added so many.
pub(crate) fn entries_by_mutex<R: Threads + Wait + Sync>(
    rt: &R,
    alloc: Global,
    seats: u8,
    turns: u32,
) -> Result<u64, AllocError> {
    let book = Mutex::new(Book::new(alloc));
    let shared = &book;
    let mut numbers = Vec::new(alloc);
    for number in 0..seats {
        numbers.push(number)?;
    }
    thread::map_vec(
        rt,
        numbers,
        &|number: u8| lock_often(rt, shared, number, turns),
    )?;
    Ok(book.into_inner().entries())
}

// Adds so many entries of one number, each under the lock. Where memory runs out an entry is left out.
fn lock_often<R: Wait>(rt: &R, book: &Mutex<Book>, number: u8, turns: u32) {
    for value in 0..turns {
        let _ = book.lock(rt).add(number, value);
    }
}
