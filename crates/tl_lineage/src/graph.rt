ghost use Rattle.std.specs.Prelude.{◌≡◌, ◌-◌, ◌<◌, ◌≤◌, ◌∷◌, ◌++◌, [], length, vec_len, vec_capacity, OnOk, OnErr};
ghost use Rattle.std.specs.Option.{option_copied};
ghost use Rattle.tl_model.specs.History.{id_of};
ghost use Rattle.tl_lineage.specs.Slots.{reader_count, record_of, removed, with_removed};
ghost use Rattle.tl_lineage.specs.declared.slot.Slot.TheVariants.{Kept};

use crate::slot::Slot;
use std::alloc::Global;
use std::marker::Model;
use std::mem;
use tl_model::Record;
use tl_types::{FileId, NoMemory, RecordId};

/// The greatest count of records.
pub const RECORDS_LIMIT: u32 = 1_048_576;

/// The records ever added, some of them removed. Contracts see a slot for each, by number, and for
/// how many more there is a place.
#[derive(Debug, Drop)]
pub struct Graph {
    slots: Vec<Slot>,
    spare: usize,
}

impl Model for Graph {
    ghost use Rattle.std.specs.Prelude.{◌+◌, ◌≤◌, vec_len, vec_capacity};
    ghost use Rattle.std.specs.Coded.{codes};
    ghost use Rattle.tl_lang.specs.contracts.expr.Expr as expr;
    ghost use Rattle.tl_lineage.specs.Slots.{Lineage};

    ghost Value = { Lineage };

    ghost coded = { Prim.hlevel (codes, expr.the_row.coded) };

    ghost view = { λ g. record { slots = g.slots.items; spare = g.spare } };

    ghost invariant = { λ g. (vec_len g.slots + g.spare ≤ vec_capacity g.slots) × (vec_len g.slots ≤ 1048576) };
}

impl Graph {
    /// A graph of no records.
    pub fn new(alloc: Global) -> Graph
        ensures slots { result.slots ≡ [] }
        ensures spare { result.spare ≡ 0 }
    {
        Graph {
            slots: Vec::new(alloc),
            spare: 0,
        }
    }

    /// Makes the place for the record of the next number. Its size doesn't matter. `Err` changes
    /// nothing.
    pub fn room(&mut self, _rec: &Record) -> Result<(), NoMemory>
        ensures room { OnOk result (0 < self.new.spare) }
        ensures never_less { self.old.spare ≤ self.new.spare }
        ensures slots { self.new.slots ≡ self.old.slots }
        ensures err { OnErr result (self.new ≡ self.old) }
    {
        self.slots.reserve(1)?;
        self.spare = self.spare.max(1);
        Ok(())
    }

    /// Adds the record of the next number, for which there is a place. It takes no memory.
    pub fn add(&mut self, rec: Record)
        requires room { 0 < self.old.spare }
        requires next { (id_of rec).0 ≡ length self.old.slots }
        requires limit { length self.old.slots < RECORDS_LIMIT }
        ensures slots { self.new.slots ≡ self.old.slots ++ Kept rec ∷ [] }
        ensures spare { self.new.spare ≡ self.old.spare - 1 }
    {
        push_within(&mut self.slots, Slot::Kept(rec));
        self.spare -= 1;
    }

    /// The record of a number; `None` exactly where none was added or it was removed.
    pub fn get(&self, r: RecordId) -> Option<&Record>
        ensures { option_copied result ≡ record_of r.0 self.now.slots }
    {
        record_at(self.slots.as_slice(), r)
    }

    /// How many of all the records ever added have the file among their inputs, removed ones too.
    pub fn readers_of(&self, f: FileId) -> u32
        ensures { result ≡ reader_count f self.now.slots }
    {
        self.slots.iter().filter(|slot| slot.has_read(f)).count() as u32
    }

    /// Removes the record of a number, where it is there.
    pub fn remove(&mut self, r: RecordId)
        ensures slots { self.new.slots ≡ with_removed r.0 self.old.slots }
        ensures spare { self.new.spare ≡ self.old.spare }
    {
        remove_at(&mut self.slots, r.0 as usize);
    }
}

// The record in the slot of a number.
fn record_at(slots: &[Slot], r: RecordId) -> Option<&Record>
    ensures { option_copied result ≡ record_of r.0 slots.now }
{
    slots.get(r.0 as usize)?.record()
}

// Removes the record in the slot of a number, where there is one.
fn remove_at(slots: &mut Vec<Slot>, n: usize)
    ensures slots { slots.new.items ≡ with_removed n slots.old.items }
    ensures capacity { vec_capacity slots.new ≡ vec_capacity slots.old }
{
    if let Some(slot) = slots.get_mut(n) {
        empty(slot);
    }
}

// Removes the record in a slot.
fn empty(slot: &mut Slot)
    ensures { slot.new ≡ removed slot.old }
{
    let full = mem::replace(slot, Slot::PutRemoved);
    *slot = full.removed();
}

// Appends a slot to a vector that has room for it.
fn push_within(slots: &mut Vec<Slot>, slot: Slot)
    requires { vec_len slots.old < vec_capacity slots.old }
    ensures items { slots.new.items ≡ slots.old.items ++ slot ∷ [] }
    ensures capacity { vec_capacity slots.old ≤ vec_capacity slots.new }
{
    if slots.push(slot).is_err() {
        unreachable!();
    }
}
