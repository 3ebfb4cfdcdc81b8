//! What each actor has under way: an open read, claim or save.

ghost use Rattle.std.specs.Prelude.{◌≡◌, reverse};
ghost use Rattle.tl_model.specs.Past.{act_with, event_with, without_tickets};
ghost use Rattle.tl_model.specs.Actors.{claim_after, claim_after_loss, claims_record, is_being_saved, is_idle, is_on, is_read, is_running, open_claim, open_read, open_save, read_after, reads_file, save_after, saves_file};
ghost use Rattle.tl_walk.specs.Steps.{plain, read_step, claim_step, save_step};

use crate::open::{OpenClaim, OpenRead};
use crate::same::{same_actor, same_file, same_record, same_worker};
use tl_model::{Act, Command, Event, Reply};
use tl_types::{Actor, FileId, RecordId, WorkerId};

// Everyone who makes events.
const ACTORS: [Actor; 16] = [
    Actor(0),
    Actor(1),
    Actor(2),
    Actor(3),
    Actor(4),
    Actor(5),
    Actor(6),
    Actor(7),
    Actor(8),
    Actor(9),
    Actor(10),
    Actor(11),
    Actor(12),
    Actor(13),
    Actor(14),
    Actor(15),
];

/// The read that the actor has open after these events, if it has one.
pub fn open_read<T>(events: &[Event<T>], actor: Actor) -> Option<OpenRead>
    ensures { result ≡ open_read (without_tickets (reverse events.now)) actor }
{
    let mut open = None;
    for event in events {
        open = read_step(event, actor, open);
    }
    open
}

// The actor's read after an event, where it was `before` before it.
fn read_step<T>(event: &Event<T>, actor: Actor, before: Option<OpenRead>) -> Option<OpenRead>
    ensures { result ≡ read_step (plain event.now) actor before }
{
    if same_actor(actor, event.actor) {
        read_after(&event.act, before)
    } else {
        before
    }
}

// The read after an act of its actor.
fn read_after<T>(act: &Act<T>, before: Option<OpenRead>) -> Option<OpenRead>
    ensures { result ≡ read_after (act_with (λ _. tt) act.now) before }
{
    match act {
        Act::Call(Command::Read { prio, .. }, Reply::Opened(file)) => {
            Some(OpenRead::new(*file, *prio))
        }
        Act::Served(_, _) | Act::Shut(_) => None,
        _ => before,
    }
}

/// The claim that the actor has open after these events, if it has one.
pub fn open_claim<T>(events: &[Event<T>], actor: Actor) -> Option<OpenClaim>
    ensures { result ≡ open_claim (without_tickets (reverse events.now)) actor }
{
    let mut open = None;
    for event in events {
        open = claim_step(event, actor, open);
    }
    open
}

// The actor's claim after an event, where it was `before` before it.
fn claim_step<T>(event: &Event<T>, actor: Actor, before: Option<OpenClaim>) -> Option<OpenClaim>
    ensures { result ≡ claim_step (plain event.now) actor before }
{
    let own = if same_actor(actor, event.actor) {
        claim_after(&event.act, before)
    } else {
        before
    };
    claim_after_loss(&event.act, own)
}

// The claim after an act of its actor.
fn claim_after<T>(act: &Act<T>, before: Option<OpenClaim>) -> Option<OpenClaim>
    ensures { result ≡ claim_after (act_with (λ _. tt) act.now) before }
{
    match act {
        Act::Claim(worker, made) => Some(OpenClaim::new(*worker, *made)),
        Act::Done(_, _) | Act::Back(_) => None,
        _ => before,
    }
}

// The claim after an act of anyone: a worker's loss closes it.
fn claim_after_loss<T>(act: &Act<T>, before: Option<OpenClaim>) -> Option<OpenClaim>
    ensures { result ≡ claim_after_loss (act_with (λ _. tt) act.now) before }
{
    match act {
        Act::Lose(worker) => {
            if is_on(*worker, &before) {
                None
            } else {
                before
            }
        }
        _ => before,
    }
}

// Whether the claim is one on the worker.
fn is_on(worker: WorkerId, claim: &Option<OpenClaim>) -> bool
    ensures { result ≡ is_on worker claim.now }
{
    match claim {
        Some(claim) => same_worker(worker, claim.worker()),
        None => false,
    }
}

/// The file of the save that the actor has open after these events, if it has one.
pub fn open_save<T>(events: &[Event<T>], actor: Actor) -> Option<FileId>
    ensures { result ≡ open_save (without_tickets (reverse events.now)) actor }
{
    let mut open = None;
    for event in events {
        open = save_step(event, actor, open);
    }
    open
}

// The actor's save after an event, where it was `before` before it.
fn save_step<T>(event: &Event<T>, actor: Actor, before: Option<FileId>) -> Option<FileId>
    ensures { result ≡ save_step (plain event.now) actor before }
{
    if same_actor(actor, event.actor) {
        save_after(&event.act, before)
    } else {
        before
    }
}

// The save after an act of its actor.
fn save_after<T>(act: &Act<T>, before: Option<FileId>) -> Option<FileId>
    ensures { result ≡ save_after (act_with (λ _. tt) act.now) before }
{
    match act {
        Act::Save(file) => Some(*file),
        Act::Saved(_, _, _) | Act::Unsave(_) => None,
        _ => before,
    }
}

/// Whether a read on the file is open after these events.
pub fn is_read<T>(events: &[Event<T>], file: FileId) -> bool
    ensures { result ≡ is_read (without_tickets (reverse events.now)) file }
{
    ACTORS
        .iter()
        .any(|actor| reads_file(file, open_read(events, *actor)))
}

// Whether the read is one of the file.
fn reads_file(file: FileId, read: Option<OpenRead>) -> bool
    ensures { result ≡ reads_file file read }
{
    match read {
        Some(read) => same_file(file, read.file()),
        None => false,
    }
}

/// Whether a claim on the record is open after these events.
pub fn is_running<T>(events: &[Event<T>], made: RecordId) -> bool
    ensures { result ≡ is_running (without_tickets (reverse events.now)) made }
{
    ACTORS
        .iter()
        .any(|actor| claims_record(made, open_claim(events, *actor)))
}

// Whether the claim is one of the record.
fn claims_record(made: RecordId, claim: Option<OpenClaim>) -> bool
    ensures { result ≡ claims_record made claim }
{
    match claim {
        Some(claim) => same_record(made, claim.made()),
        None => false,
    }
}

/// Whether a save of the file is open after these events.
pub fn is_being_saved<T>(events: &[Event<T>], file: FileId) -> bool
    ensures { result ≡ is_being_saved (without_tickets (reverse events.now)) file }
{
    ACTORS
        .iter()
        .any(|actor| saves_file(file, open_save(events, *actor)))
}

// Whether the save is one of the file.
fn saves_file(file: FileId, save: Option<FileId>) -> bool
    ensures { result ≡ saves_file file save }
{
    match save {
        Some(saved) => same_file(file, saved),
        None => false,
    }
}

/// Whether the actor has nothing open after these events.
pub fn is_idle<T>(events: &[Event<T>], actor: Actor) -> bool
    ensures { result ≡ is_idle (without_tickets (reverse events.now)) actor }
{
    open_read(events, actor).is_none()
        && open_claim(events, actor).is_none()
        && open_save(events, actor).is_none()
}
