//! What each actor has under way: an open read and an open claim.

ghost use Rattle.std.specs.Prelude.{◌≡◌, map};
ghost use Rattle.std.specs.List.{list_any};
ghost use Rattle.tl_model.specs.Past.{act_with, event_with};
ghost use Rattle.tl_model.specs.Actors.{actors, claim_after, claim_after_loss, claims_record, is_on, read_after, reads_file};
ghost use Rattle.tl_steps.specs.Steps.{claim_step, is_read_at, is_running_at, new_seat, read_step, seat_after};

use crate::same::{same_actor, same_file, same_record, same_worker};
use std::marker::Model;
use tl_model::{Act, Command, Event, Reply};
use tl_types::{Actor, FileId, Prio, RecordId, WorkerId};

/// A read that was opened: of this file, with this priority.
#[derive(Clone, Copy, Debug)]
pub struct OpenRead {
    file: FileId,
    prio: Prio,
}

impl Model for OpenRead {
    ghost use Rattle.tl_model.specs.Actors.{OpenRead as Opened};

    ghost Value = { Opened };

    ghost view = { λ r. record { file = r.file; prio = r.prio } };

    ghost inverse = { λ r. record { file = r.file; prio = r.prio } };
}

impl OpenRead {
    /// The file that is read.
    pub fn file(&self) -> FileId
        ensures { result ≡ self.now.file }
    {
        self.file
    }

    /// The priority of the read.
    pub fn prio(&self) -> Prio
        ensures { result ≡ self.now.prio }
    {
        self.prio
    }
}

/// A job that was claimed on a worker.
#[derive(Clone, Copy, Debug)]
pub struct OpenClaim {
    worker: WorkerId,
    made: RecordId,
}

impl Model for OpenClaim {
    ghost use Rattle.tl_model.specs.Actors.{OpenClaim as Claimed};

    ghost Value = { Claimed };

    ghost view = { λ c. record { worker = c.worker; made = c.made } };

    ghost inverse = { λ c. record { worker = c.worker; made = c.made } };
}

/// An actor with the read and the claim that it has open.
#[derive(Clone, Copy, Debug)]
pub struct Seat {
    pub actor: Actor,
    pub read: Option<OpenRead>,
    pub claim: Option<OpenClaim>,
}

/// The number of actors.
pub const SEATS: usize = 16;

/// Everyone who makes events, with nothing open.
pub fn new_seats() -> [Seat; SEATS]
    ensures { result ≡ map new_seat actors }
{
    [
        new_seat(0),
        new_seat(1),
        new_seat(2),
        new_seat(3),
        new_seat(4),
        new_seat(5),
        new_seat(6),
        new_seat(7),
        new_seat(8),
        new_seat(9),
        new_seat(10),
        new_seat(11),
        new_seat(12),
        new_seat(13),
        new_seat(14),
        new_seat(15),
    ]
}

// The actor of a number, with nothing open.
fn new_seat(number: u8) -> Seat
    ensures { result ≡ new_seat (record { 0 = number }) }
{
    Seat {
        actor: Actor(number),
        read: None,
        claim: None,
    }
}

/// Whether a read on the file is open.
pub fn is_read(seats: &[Seat], file: FileId) -> bool
    ensures { result ≡ is_read_at seats.now file }
{
    seats.iter().any(|seat| reads_file(file, seat.read))
}

// Whether the read is one of the file.
fn reads_file(file: FileId, read: Option<OpenRead>) -> bool
    ensures { result ≡ reads_file file read }
{
    match read {
        Some(read) => same_file(file, read.file),
        None => false,
    }
}

/// Whether a claim on the record is open.
pub fn is_running(seats: &[Seat], made: RecordId) -> bool
    ensures { result ≡ is_running_at seats.now made }
{
    seats.iter().any(|seat| claims_record(made, seat.claim))
}

// Whether the claim is one of the record.
fn claims_record(made: RecordId, claim: Option<OpenClaim>) -> bool
    ensures { result ≡ claims_record made claim }
{
    match claim {
        Some(claim) => same_record(made, claim.made),
        None => false,
    }
}

/// What each actor has open after an event.
pub fn note_seats<T>(seats: &mut [Seat], event: &Event<T>)
    ensures { seats.new ≡ map (seat_after (event_with (λ _. tt) event.now)) seats.old }
{
    for seat in seats.iter_mut() {
        *seat = seat_after(event, *seat);
    }
}

// What an actor has open after an event.
fn seat_after<T>(event: &Event<T>, before: Seat) -> Seat
    ensures { result ≡ seat_after (event_with (λ _. tt) event.now) before }
{
    Seat {
        actor: before.actor,
        read: read_step(event, before.actor, before.read),
        claim: claim_step(event, before.actor, before.claim),
    }
}

// The actor's read after an event, where it was `before` before it.
fn read_step<T>(event: &Event<T>, actor: Actor, before: Option<OpenRead>) -> Option<OpenRead>
    ensures { result ≡ read_step (event_with (λ _. tt) event.now) actor before }
{
    if same_actor(actor, event.actor) {
        read_after(&event.act, before)
    } else {
        before
    }
}

// The read after an act of its actor.
fn read_after<T>(act: &Act<T>, before: Option<OpenRead>) -> Option<OpenRead>
    ensures { result ≡ read_after (act_with (λ _. tt) act.now) before }
{
    match act {
        Act::Call(Command::Read { prio, .. }, Reply::Opened(file)) => Some(OpenRead {
            file: *file,
            prio: *prio,
        }),
        Act::Served(_, _) | Act::Shut(_) => None,
        _ => before,
    }
}

// The actor's claim after an event, where it was `before` before it.
fn claim_step<T>(event: &Event<T>, actor: Actor, before: Option<OpenClaim>) -> Option<OpenClaim>
    ensures { result ≡ claim_step (event_with (λ _. tt) event.now) actor before }
{
    let own = if same_actor(actor, event.actor) {
        claim_after(&event.act, before)
    } else {
        before
    };
    claim_after_loss(&event.act, own)
}

// The claim after an act of its actor.
fn claim_after<T>(act: &Act<T>, before: Option<OpenClaim>) -> Option<OpenClaim>
    ensures { result ≡ claim_after (act_with (λ _. tt) act.now) before }
{
    match act {
        Act::Claim(worker, made) => Some(OpenClaim {
            worker: *worker,
            made: *made,
        }),
        Act::Done(_, _) | Act::Back(_) => None,
        _ => before,
    }
}

// The claim after an act of anyone: a worker's loss closes it.
fn claim_after_loss<T>(act: &Act<T>, before: Option<OpenClaim>) -> Option<OpenClaim>
    ensures { result ≡ claim_after_loss (act_with (λ _. tt) act.now) before }
{
    match act {
        Act::Lose(worker) => {
            if is_on(*worker, &before) {
                None
            } else {
                before
            }
        }
        _ => before,
    }
}

// Whether the claim is one on the worker.
fn is_on(worker: WorkerId, claim: &Option<OpenClaim>) -> bool
    ensures { result ≡ is_on worker claim.now }
{
    match claim {
        Some(claim) => same_worker(worker, claim.worker),
        None => false,
    }
}
