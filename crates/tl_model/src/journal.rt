ghost use Rattle.std.specs.Prelude.{◌≡◌, ◌-◌, ◌<◌, ◌≤◌, ◌∷◌, ◌++◌, [], length, reverse, vec_len, vec_capacity, OnOk, OnErr};
ghost use Rattle.std.specs.Option.{option_copied};
ghost use Rattle.tl_model.specs.Journal.{event_at, call_count, calls_in};

use crate::event::{Act, Event};
use crate::header::Header;
use std::alloc::Global;
use std::marker::Model;
use tl_types::NoMemory;

/// All events of a run. Contracts see the header, the events with the newest first, and how many
/// more may be appended without asking for memory.
#[derive(Debug, Drop)]
pub struct Journal<T> {
    header: Header,
    events: Vec<Event<T>>,
    calls: u64,
    spare: usize,
}

impl<T> Model for Journal<T> {
    ghost use Rattle.std.specs.Prelude.{◌≡◌, ◌+◌, ◌≤◌, reverse, vec_len, vec_capacity};
    ghost use Rattle.tl_model.specs.Journal.{Ledger, call_count};
    ghost use Rattle.std.specs.Coded.{codes};
    ghost use Rattle.tl_lang.specs.contracts.expr.Expr as expr;

    ghost Value = { Ledger T };

    ghost coded = { Prim.hlevel (codes, expr.the_row.coded, T.code) };

    ghost view = { λ j. record { header = j.header; events = reverse j.events.items; spare = j.spare } };

    ghost invariant = { λ j. (vec_len j.events + j.spare ≤ vec_capacity j.events)
        × (j.calls ≡ call_count (reverse j.events.items)) };
}

impl<T> Journal<T> {
    /// A journal of no events.
    pub fn new(alloc: Global, header: Header) -> Journal<T>
        ensures header { result.header ≡ header }
        ensures events { result.events ≡ [] }
        ensures spare { result.spare ≡ 0 }
    {
        Journal {
            header,
            events: Vec::new(alloc),
            calls: 0,
            spare: 0,
        }
    }

    /// Makes room for `n` more events at least.
    pub fn reserve(&mut self, n: usize) -> Result<(), NoMemory>
        ensures room { OnOk result (n ≤ self.new.spare) }
        ensures never_less { self.old.spare ≤ self.new.spare }
        ensures events { self.new.events ≡ self.old.events }
        ensures header { self.new.header ≡ self.old.header }
        ensures err { OnErr result (self.new ≡ self.old) }
    {
        self.events.reserve(n)?;
        self.spare = self.spare.max(n);
        Ok(())
    }

    /// How many events there are.
    pub fn len(&self) -> u64
        ensures { result ≡ length self.now.events }
    {
        self.events.len() as u64
    }

    /// How many of the events are calls.
    pub fn calls(&self) -> u64
        ensures { result ≡ call_count self.now.events }
    {
        self.calls
    }

    pub fn header(&self) -> &Header
        ensures { result.now ≡ self.now.header }
    {
        &self.header
    }

    /// The events, the first of them first.
    pub fn events(&self) -> &[Event<T>]
        ensures { reverse result.now ≡ self.now.events }
    {
        self.events.as_slice()
    }

    /// The event at a place, counted from the first; `None` exactly where there is none.
    pub fn get(&self, place: u64) -> Option<&Event<T>>
        ensures { option_copied result ≡ event_at self.now.events place }
    {
        self.events.get(place as usize)
    }
}

impl<T: Drop> Journal<T> {
    /// Appends an event, for which there must be room.
    pub fn append(&mut self, event: Event<T>)
        requires { 0 < self.old.spare }
        ensures events { self.new.events ≡ event ∷ self.old.events }
        ensures spare { self.new.spare ≡ self.old.spare - 1 }
        ensures header { self.new.header ≡ self.old.header }
    {
        let calls = self.calls + calls_in(&event.act);
        push_within(&mut self.events, event);
        self.calls = calls;
        self.spare -= 1;
    }
}

// Appends an event to a vector that has room for it.
fn push_within<T: Drop>(events: &mut Vec<Event<T>>, event: Event<T>)
    requires { vec_len events.old < vec_capacity events.old }
    ensures items { events.new.items ≡ events.old.items ++ event ∷ [] }
    ensures capacity { vec_capacity events.old ≤ vec_capacity events.new }
{
    if events.push(event).is_err() {
        unreachable!();
    }
}

// How many calls an act is.
fn calls_in<T>(act: &Act<T>) -> u64
    ensures { result ≡ calls_in act.now }
{
    match act {
        Act::Call(_, _) => 1,
        _ => 0,
    }
}
