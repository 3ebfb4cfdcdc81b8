ghost use Rattle.std.specs.Prelude.{◌≡◌, ◌<◌, ◌∷◌, ◌++◌, [], map, length, vec_len, vec_capacity, IfSome, OnOk, OnErr, List, None, true, false};
ghost use Rattle.tl_model.specs.declared.event.Event.{Event as EventOf};
ghost use Rattle.tl_model.specs.declared.header.Header.{Header as HeaderOf};
ghost use Rattle.tl_model.specs.Past.{Past, act_with, event_with, without_tickets};
ghost use Rattle.tl_model.specs.Needs.{garbage};
ghost use Rattle.tl_model.specs.Plan.{is_task};
ghost use Rattle.tl_model.specs.Rules.{all_permitted, lawful_judge};
ghost use Rattle.tl_steps.specs.Steps.{UnnamesOnly, added, left_room};
ghost use Rattle.tl_gc.specs.declared.kept.Kept.{Kept as KeptOf};
ghost use Rattle.tl_gc.specs.Data.{found_garbage, gc_after, records_after, with_kept};
ghost use Rattle.tl_gc.specs.Standing.{HasRoom, HasRoomForAll, StandsFor};

use crate::kept::{Kept, kept_of, note_records};
use crate::needs::find_garbage;
use std::alloc::Global;
use std::marker::Model;
use tl_model::{Act, Event, Facts, Header, Record};
use tl_steps::{SEATS, Seat, accepts, new_seats, note_seats};
use tl_types::{FileId, NoMemory, RecordId};

/// Which record may be let go. Contracts see what is kept of records and actors, and the record for which
/// there is a place; `StandsFor` says for which past it stands. It is kept in step with a journal event by
/// event. What is needed is found anew at each question, in places that contracts do not see.
#[derive(Debug, Drop)]
pub struct Gc {
    kept: Vec<Kept>,
    seats: [Seat; SEATS],
    next: Option<Kept>,
    needed: Vec<bool>,
}

impl Model for Gc {
    ghost use Rattle.std.specs.Prelude.{◌≡◌, ◌<◌, IfSome, vec_len, vec_capacity};
    ghost use Rattle.tl_gc.specs.Data.{GcData};

    ghost Value = { GcData };

    ghost view = { λ g. record { kept = g.kept.items; seats = g.seats; next = g.next } };

    ghost invariant = { λ g. (vec_len g.needed ≡ vec_len g.kept) × IfSome g.next (λ _. (vec_len g.kept < vec_capacity g.kept) × (vec_len g.needed < vec_capacity g.needed)) };
}

impl Gc {
    /// It stands for the empty journal.
    pub fn new(alloc: Global, _header: Header) -> Gc
        ensures stands { StandsFor result [] }
        ensures next { result.next ≡ None }
    {
        Gc {
            kept: Vec::new(alloc),
            seats: new_seats(),
            next: None,
            needed: Vec::new(alloc),
        }
    }

    /// Makes the place for the record of the next number. The last one made counts. `Err` changes
    /// nothing.
    pub fn room(&mut self, alloc: Global, rec: &Record) -> Result<(), NoMemory>
        ensures room { OnOk result (HasRoom self.new rec.now) }
        ensures stands { (past : Past) → StandsFor self.old past → StandsFor self.new past }
        ensures kept { self.new.kept ≡ self.old.kept }
        ensures seats { self.new.seats ≡ self.old.seats }
        ensures err { OnErr result (self.new ≡ self.old) }
    {
        let kept = kept_of(alloc, rec)?;
        self.kept.reserve(1)?;
        self.needed.reserve(1)?;
        self.next = Some(kept);
        Ok(())
    }

    /// Takes note of an event that the rules permit after the past. The record that it adds, if it adds
    /// one, has room. `gone` is the file that it leaves without a name, if there is one. It takes no
    /// memory.
    pub fn note<T>(&mut self, event: &Event<T>, gone: Option<FileId>)
        ensures stands { (header : HeaderOf) (past : List (EventOf T)) → StandsFor self.old (without_tickets past) →
            HasRoomForAll self.old (added (without_tickets past) (act_with (λ _. tt) event.now.act)) →
            UnnamesOnly (without_tickets past) (event_with (λ _. tt) event.now) gone →
            all_permitted lawful_judge header (event.now ∷ past) ≡ true → StandsFor self.new (without_tickets (event.now ∷ past)) }
        ensures room { self.new.next ≡ left_room (act_with (λ _. tt) event.now.act) self.old.next }
    {
        self.note_event(event, gone);
    }

    /// The least record that is kept and not needed. `None` exactly where there is none. It takes no
    /// memory.
    pub fn garbage<F: Facts>(&mut self, facts: &F) -> Option<RecordId>
        ensures garbage { (past : Past) → StandsFor self.old past → F.speaks_of facts.now past → result ≡ garbage past }
        ensures same { self.new ≡ self.old }
    {
        self.find(facts)
    }

    // What is kept after an event that leaves this file without a name.
    fn note_event<T>(&mut self, event: &Event<T>, gone: Option<FileId>)
        ensures { self.new ≡ gc_after (event_with (λ _. tt) event.now) gone self.old }
    {
        note_all(
            &mut self.kept,
            &mut self.seats,
            &mut self.next,
            &mut self.needed,
            event,
            gone,
        );
    }

    // The first record of those kept that may be let go.
    fn find<F: Facts>(&mut self, facts: &F) -> Option<RecordId>
        ensures found { (past : Past) → F.speaks_of facts.now past →
            result ≡ found_garbage self.old.seats self.old.kept (map (λ (k : KeptOf). is_task past k.made) self.old.kept) }
        ensures same { self.new ≡ self.old }
    {
        find_in(&self.kept, &mut self.needed, &self.seats, facts)
    }
}

// The first of these records that may be let go.
fn find_in<F: Facts>(
    kept: &[Kept],
    needed: &mut Vec<bool>,
    seats: &[Seat],
    facts: &F,
) -> Option<RecordId>
    requires { vec_len needed.old ≡ length kept.now }
    ensures found { (past : Past) → F.speaks_of facts.now past →
        result ≡ found_garbage seats.now kept.now (map (λ (k : KeptOf). is_task past k.made) kept.now) }
    ensures len { vec_len needed.new ≡ vec_len needed.old }
    ensures capacity { vec_capacity needed.new ≡ vec_capacity needed.old }
{
    find_garbage(kept, needed, seats, facts)
}

// Takes note of an event.
fn note_all<T>(
    kept: &mut Vec<Kept>,
    seats: &mut [Seat; SEATS],
    next: &mut Option<Kept>,
    needed: &mut Vec<bool>,
    event: &Event<T>,
    gone: Option<FileId>,
)
    requires lengths { vec_len needed.old ≡ vec_len kept.old }
    requires places { IfSome next.old (λ _. (vec_len kept.old < vec_capacity kept.old) × (vec_len needed.old < vec_capacity needed.old)) }
    ensures after { record { kept = kept.new.items; seats = seats.new; next = next.new }
        ≡ gc_after (event_with (λ _. tt) event.now) gone (record { kept = kept.old.items; seats = seats.old; next = next.old }) }
    ensures lengths { vec_len needed.new ≡ vec_len kept.new }
    ensures places { IfSome next.new (λ _. (vec_len kept.new < vec_capacity kept.new) × (vec_len needed.new < vec_capacity needed.new)) }
{
    note_seats(seats, event);
    change_records(kept, &event.act, gone);
    if accepts(&event.act) {
        add_next(kept, needed, next);
    }
}

// The records after an act.
fn change_records<T>(kept: &mut Vec<Kept>, act: &Act<T>, gone: Option<FileId>)
    ensures kept { kept.new.items ≡ records_after (act_with (λ _. tt) act.now) gone kept.old.items }
    ensures len { vec_len kept.new ≡ vec_len kept.old }
    ensures capacity { vec_capacity kept.new ≡ vec_capacity kept.old }
{
    note_records(kept, act, gone);
}

// Adds the record for which there is a place, if there is one.
fn add_next(kept: &mut Vec<Kept>, needed: &mut Vec<bool>, next: &mut Option<Kept>)
    requires lengths { vec_len needed.old ≡ vec_len kept.old }
    requires places { IfSome next.old (λ _. (vec_len kept.old < vec_capacity kept.old) × (vec_len needed.old < vec_capacity needed.old)) }
    ensures kept { kept.new.items ≡ with_kept next.old kept.old.items }
    ensures lengths { vec_len needed.new ≡ vec_len kept.new }
    ensures next { next.new ≡ None }
{
    if let Some(rec) = next.take() {
        push_record(kept, rec);
        push_place(needed);
    }
}

// Appends a record to a vector that has room for it.
fn push_record(kept: &mut Vec<Kept>, rec: Kept)
    requires { vec_len kept.old < vec_capacity kept.old }
    ensures { kept.new.items ≡ kept.old.items ++ rec ∷ [] }
{
    if kept.push(rec).is_err() {
        unreachable!();
    }
}

// Appends a place to a vector that has room for it.
fn push_place(needed: &mut Vec<bool>)
    requires { vec_len needed.old < vec_capacity needed.old }
    ensures { needed.new.items ≡ needed.old.items ++ false ∷ [] }
{
    if needed.push(false).is_err() {
        unreachable!();
    }
}
