ghost use Rattle.std.specs.Prelude.{◌≡◌, ◌<◌, ◌∷◌, ◌++◌, [], ℕ, ◌^◌, map, length, vec_len, vec_capacity, IfSome, IsNone, OnOk, OnErr, List, Some, None, true, ◌↔◌};
ghost use Rattle.tl_model.specs.declared.event.Event.{Event as EventOf};
ghost use Rattle.tl_model.specs.declared.header.Header.{Header as HeaderOf};
ghost use Rattle.tl_model.specs.Past.{Past, act_with, event_with, without_tickets};
ghost use Rattle.tl_model.specs.Plan.{claims, is_ready, is_task, next, prio, prio as prio_after, ready};
ghost use Rattle.tl_model.specs.Rules.{all_permitted, lawful_judge};
ghost use Rattle.tl_prio.specs.Data.{HasClaims, choice_in, kept_after, none_waiting, order_after, prio_from, with_kept};
ghost use Rattle.tl_prio.specs.Standing.{GotNoMore, HasRoom, HasRoomForAll, StandsBefore, StandsFor};
ghost use Rattle.tl_steps.specs.Steps.{added, left_room, next_of, seat_after};
ghost use Rattle.tl_types.specs.declared.record_id.RecordId.{RecordId as RecordOf};
ghost use Rattle.tl_types.specs.declared.worker_id.WorkerId.{WorkerId as WorkerOf};

use crate::choice::{Choice, choose, made_of, prio_of};
use crate::kept::{Kept, kept_of, note_records};
use crate::number::least;
use crate::turns::Turns;
use std::alloc::Global;
use std::marker::Model;
use tl_model::{Act, Event, Facts, Header, OrderRule, Record};
use tl_steps::{SEATS, Seat, accepts, new_seats, note_seats};
use tl_types::{FileId, NoMemory, Prio, RecordId};

/// Which record is run next, and the records' priorities. Contracts see what is kept of records, files and
/// actors, by which rule priorities take turns and how many claims each has had, and the record for which
/// there is a place; `StandsFor` says for which past it stands. It is kept in step with a journal event by
/// event; a claim is counted by `claimed` before it is noted.
#[derive(Debug, Drop)]
pub struct Order {
    records: Vec<Kept>,
    seats: [Seat; SEATS],
    turns: Turns,
    next: Option<Kept>,
    // A number a record, of which contracts see nothing.
    waiting: Vec<Prio>,
}

impl Model for Order {
    ghost use Rattle.std.specs.Prelude.{◌≡◌, ◌<◌, IfSome, vec_len, vec_capacity};
    ghost use Rattle.tl_prio.specs.Data.{OrderData};

    ghost Value = { OrderData };

    ghost view = { λ o.
        record { records = o.records.items; seats = o.seats; turns = o.turns; next = o.next } };

    ghost invariant = { λ o. (vec_len o.records ≡ vec_len o.waiting) ×
        IfSome o.next (λ _.
        (vec_len o.records < vec_capacity o.records)
        × (vec_len o.waiting < vec_capacity o.waiting)) };
}

impl Order {
    /// It stands for the empty journal, and keeps the header's rule.
    pub fn new(alloc: Global, header: Header) -> Order
        ensures stands { StandsFor result [] }
        ensures rule { result.turns.rule ≡ header.order }
        ensures next { result.next ≡ None }
    {
        Order {
            records: Vec::new(alloc),
            seats: new_seats(),
            turns: Turns::new(header.order),
            next: None,
            waiting: Vec::new(alloc),
        }
    }

    /// Makes the place for the record of the next number. The last one made counts. `Err` changes
    /// nothing.
    pub fn room(&mut self, alloc: Global, rec: &Record) -> Result<(), NoMemory>
        ensures room { OnOk result (HasRoom self.new rec.now) }
        ensures stands { (past : Past) → StandsFor self.old past → StandsFor self.new past }
        ensures records { self.new.records ≡ self.old.records }
        ensures seats { self.new.seats ≡ self.old.seats }
        ensures turns { self.new.turns ≡ self.old.turns }
        ensures err { OnErr result (self.new ≡ self.old) }
    {
        let kept = kept_of(alloc, rec)?;
        self.records.reserve(1)?;
        self.waiting.reserve(1)?;
        self.next = Some(kept);
        Ok(())
    }

    /// Counts a claim that is noted next, of a record that has this priority before it. It takes no memory.
    /// The count is exact in a journal of fewer than 2^64 events.
    pub fn claimed(&mut self, prio: Prio)
        ensures stands { (past : Past) (worker : WorkerOf) (made : RecordOf) →
            StandsFor self.old past → prio ≡ prio_after past made → length past < 2 ^ 64 →
            StandsBefore (Act.Claim worker made) self.new past }
        ensures rule { self.new.turns.rule ≡ self.old.turns.rule }
        ensures room { self.new.next ≡ self.old.next }
    {
        self.turns.claimed(prio);
    }

    /// Takes note of an event that the rules permit after the past. A claim was counted right before. The
    /// record that the event adds, if it adds one, has room. It takes no memory. The file that the event
    /// leaves without a name, if there is one, changes nothing here.
    pub fn note<T>(&mut self, event: &Event<T>, _gone: Option<FileId>)
        ensures stands { (header : HeaderOf) (past : List (EventOf T)) →
            let act = act_with (λ _. tt) event.now.act in
            StandsBefore act self.old (without_tickets past) →
            HasRoomForAll self.old (added (without_tickets past) act) →
            all_permitted lawful_judge header (event.now ∷ past) ≡ true →
            StandsFor self.new (without_tickets (event.now ∷ past)) }
        ensures rule { self.new.turns.rule ≡ self.old.turns.rule }
        ensures room { self.new.next ≡ left_room (act_with (λ _. tt) event.now.act) self.old.next }
    {
        self.note_event(event);
    }

    /// The ready record of least number among those whose priority has its turn by the kept rule: under
    /// strict order the greatest, under shares the one that got the least of its share. `None` exactly where
    /// no record is ready. It takes no memory, and changes nothing that contracts see.
    pub fn next<F: Facts>(&mut self, facts: &F) -> Option<RecordId>
        ensures next { (past : Past) → StandsFor self.old past → F.speaks_of facts.now past →
            result ≡ next self.old.turns.rule past }
        ensures none { (past : Past) → StandsFor self.old past → F.speaks_of facts.now past →
            IsNone result ↔ (ready past ≡ []) }
        ensures shares { (past : Past) (made other : RecordOf) →
            StandsFor self.old past → F.speaks_of facts.now past →
            self.old.turns.rule ≡ OrderRule.Shares →
            result ≡ Some made → is_ready past other ≡ true →
            GotNoMore past (prio past made) (prio past other) }
        ensures same { self.new ≡ self.old }
    {
        let choice = self.found_choice(facts);
        made_of(choice)
    }

    /// The record's priority, and the least where no record is of this number. It takes no memory, and
    /// changes nothing that contracts see.
    pub fn prio<F: Facts>(&mut self, facts: &F, made: RecordId) -> Prio
        ensures prio { (past : Past) → StandsFor self.old past → F.speaks_of facts.now past →
            result ≡ prio past made }
        ensures same { self.new ≡ self.old }
    {
        self.found_prio(facts, made)
    }

    // The choice among what is kept.
    fn found_choice<F: Facts>(&mut self, facts: &F) -> Option<Choice>
        ensures found { (past : Past) →
            F.speaks_of facts.now past → HasClaims self.old.turns (claims past) →
            let start = none_waiting self.old.records in
            result ≡ choice_in self.old.turns.rule past self.old.seats self.old.records start }
        ensures same { self.new ≡ self.old }
    {
        choose_in(
            facts,
            &self.turns,
            &self.seats,
            &self.records,
            &mut self.waiting,
        )
    }

    // The priority by what is kept.
    fn found_prio<F: Facts>(&mut self, facts: &F, made: RecordId) -> Prio
        ensures found { (past : Past) → F.speaks_of facts.now past →
            let kept = self.old.records in
            result ≡ prio_from (is_task past) self.old.seats kept (none_waiting kept) made kept }
        ensures same { self.new ≡ self.old }
    {
        prio_in(facts, &self.seats, &self.records, &mut self.waiting, made)
    }

    // What is kept after an event.
    fn note_event<T>(&mut self, event: &Event<T>)
        ensures { self.new ≡ order_after (event_with (λ _. tt) event.now) self.old }
    {
        note_all(
            &mut self.records,
            &mut self.seats,
            &mut self.next,
            &mut self.waiting,
            event,
        );
    }
}

// Takes note of an event.
fn note_all<T>(
    records: &mut Vec<Kept>,
    seats: &mut [Seat; SEATS],
    next: &mut Option<Kept>,
    waiting: &mut Vec<Prio>,
    event: &Event<T>,
)
    requires lengths { vec_len records.old ≡ vec_len waiting.old }
    requires places { IfSome next.old (λ _.
        (vec_len records.old < vec_capacity records.old)
        × (vec_len waiting.old < vec_capacity waiting.old)) }
    ensures records { let act = act_with (λ _. tt) event.now.act in
        let kept = map (kept_after act) records.old.items in
        records.new.items ≡ with_kept (next_of act next.old) kept }
    ensures seats { seats.new ≡ map (seat_after (event_with (λ _. tt) event.now)) seats.old }
    ensures next { next.new ≡ left_room (act_with (λ _. tt) event.now.act) next.old }
    ensures lengths { vec_len records.new ≡ vec_len waiting.new }
    ensures places { IfSome next.new (λ _.
        (vec_len records.new < vec_capacity records.new)
        × (vec_len waiting.new < vec_capacity waiting.new)) }
{
    note_seats(seats, event);
    change_records(records, &event.act);
    if accepts(&event.act) {
        add_next(records, next, waiting);
    }
}

// The records after an act.
fn change_records<T>(records: &mut Vec<Kept>, act: &Act<T>)
    ensures records { records.new.items ≡ map (kept_after (act_with (λ _. tt) act.now)) records.old.items }
    ensures len { vec_len records.new ≡ vec_len records.old }
    ensures capacity { vec_capacity records.new ≡ vec_capacity records.old }
{
    note_records(records, act);
}

// Adds the record for which there is a place, if there is one.
fn add_next(records: &mut Vec<Kept>, next: &mut Option<Kept>, waiting: &mut Vec<Prio>)
    requires lengths { vec_len records.old ≡ vec_len waiting.old }
    requires places { IfSome next.old (λ _.
        (vec_len records.old < vec_capacity records.old)
        × (vec_len waiting.old < vec_capacity waiting.old)) }
    ensures records { records.new.items ≡ with_kept next.old records.old.items }
    ensures lengths { vec_len records.new ≡ vec_len waiting.new }
    ensures next { next.new ≡ None }
{
    if let Some(kept) = next.take() {
        push_kept(records, kept);
        push_place(waiting);
    }
}

// Appends a record to a vector that has room for it.
fn push_kept(records: &mut Vec<Kept>, kept: Kept)
    requires { vec_len records.old < vec_capacity records.old }
    ensures { records.new.items ≡ records.old.items ++ kept ∷ [] }
{
    if records.push(kept).is_err() {
        unreachable!();
    }
}

// Appends a number to a vector that has room for it.
fn push_place(waiting: &mut Vec<Prio>)
    requires { vec_len waiting.old < vec_capacity waiting.old }
    ensures { waiting.new.items ≡ waiting.old.items ++ 0 ∷ [] }
{
    if waiting.push(least()).is_err() {
        unreachable!();
    }
}

// The choice, for which there is a number a record.
fn choose_in<F: Facts>(
    facts: &F,
    turns: &Turns,
    seats: &[Seat],
    records: &[Kept],
    waiting: &mut Vec<Prio>,
) -> Option<Choice>
    requires { length records.now ≡ vec_len waiting.old }
    ensures found { (past : Past) → F.speaks_of facts.now past → HasClaims turns.now (claims past) →
        result ≡ choice_in turns.now.rule past seats.now records.now (none_waiting records.now) }
    ensures len { vec_len waiting.new ≡ vec_len waiting.old }
    ensures capacity { vec_capacity waiting.new ≡ vec_capacity waiting.old }
{
    choose(facts, turns, seats, records, waiting)
}

// The priority, for which there is a number a record.
fn prio_in<F: Facts>(
    facts: &F,
    seats: &[Seat],
    records: &[Kept],
    waiting: &mut Vec<Prio>,
    made: RecordId,
) -> Prio
    requires { length records.now ≡ vec_len waiting.old }
    ensures found { (past : Past) → F.speaks_of facts.now past →
        let start = none_waiting records.now in
        result ≡ prio_from (is_task past) seats.now records.now start made records.now }
    ensures len { vec_len waiting.new ≡ vec_len waiting.old }
    ensures capacity { vec_capacity waiting.new ≡ vec_capacity waiting.old }
{
    prio_of(facts, seats, records, waiting, made)
}
