ghost use Rattle.std.specs.Prelude.{◌≡◌, ℕ, ◌<◌, ◌^◌, ◌∷◌, ◌++◌, [], map, length, vec_len, vec_capacity, IfSome, OnOk, OnErr, List, None, true};
ghost use Rattle.tl_model.specs.declared.event.Event.{Event as EventOf};
ghost use Rattle.tl_model.specs.declared.header.Header.{Header as HeaderOf};
ghost use Rattle.tl_model.specs.Checkpoints.{next_save};
ghost use Rattle.tl_model.specs.Past.{Past, act_with, event_with, without_tickets};
ghost use Rattle.tl_model.specs.Rules.{all_permitted, lawful_judge};
ghost use Rattle.tl_edge.specs.Data.{choice, edge_after, files_after, next_number, taken_up, with_each, with_files, with_inputs};
ghost use Rattle.tl_edge.specs.declared.change.Change.TheVariants.{TakeUp};
ghost use Rattle.tl_edge.specs.Standing.{HasRoom, HasRoomForAll, StandsFor};
ghost use Rattle.tl_steps.specs.Steps.{UnnamesOnly, added, left_room};

use crate::acts::note_files;
use crate::change::{Change, next_number};
use crate::choice::choice;
use crate::kept::{Kept, kept_of};
use crate::outputs::{Outputs, change_each};
use crate::save::{Save, new_saves, note_saves};
use std::alloc::Global;
use std::marker::Model;
use tl_model::{Act, Event, Header, Record};
use tl_steps::{SEATS, accepts};
use tl_types::{FileId, Items, NoMemory};

/// Which file is saved next. Contracts see what is kept of records, files and saves, how many events were
/// noted, and the record for which there is a place; `StandsFor` says for which past it stands. It is kept
/// in step with a journal event by event.
#[derive(Debug, Drop)]
pub struct Edge {
    inputs: Vec<Items<FileId>>,
    files: Vec<Outputs>,
    saves: [Save; SEATS],
    count: u64,
    hot: u32,
    next: Option<Kept>,
}

impl Model for Edge {
    ghost use Rattle.std.specs.Prelude.{◌≡◌, ◌<◌, IfSome, vec_len, vec_capacity};
    ghost use Rattle.tl_edge.specs.Data.{EdgeData};

    ghost Value = { EdgeData };

    ghost view = { λ e. record { inputs = e.inputs.items; files = e.files.items; saves = e.saves; count = e.count; hot = e.hot; next = e.next } };

    ghost invariant = { λ e. IfSome e.next (λ _. (vec_len e.inputs < vec_capacity e.inputs) × (vec_len e.files < vec_capacity e.files)) };
}

impl Edge {
    /// It stands for the empty journal.
    pub fn new(alloc: Global, header: Header) -> Edge
        ensures stands { StandsFor header result [] }
        ensures next { result.next ≡ None }
    {
        Edge {
            inputs: Vec::new(alloc),
            files: Vec::new(alloc),
            saves: new_saves(),
            count: 0,
            hot: header.hot,
            next: None,
        }
    }

    /// Makes the place for the record of the next number. The last one made counts. `Err` changes
    /// nothing.
    pub fn room(&mut self, alloc: Global, rec: &Record) -> Result<(), NoMemory>
        ensures room { OnOk result (HasRoom self.new rec.now) }
        ensures stands { (header : HeaderOf) (past : Past) → StandsFor header self.old past → StandsFor header self.new past }
        ensures inputs { self.new.inputs ≡ self.old.inputs }
        ensures files { self.new.files ≡ self.old.files }
        ensures saves { self.new.saves ≡ self.old.saves }
        ensures count { self.new.count ≡ self.old.count }
        ensures hot { self.new.hot ≡ self.old.hot }
        ensures err { OnErr result (self.new ≡ self.old) }
    {
        let kept = kept_of(alloc, rec)?;
        self.inputs.reserve(1)?;
        self.files.reserve(1)?;
        self.next = Some(kept);
        Ok(())
    }

    /// Takes note of an event that the rules permit after the past, which with it has fewer than 2^64
    /// events. The record that it adds, if it adds one, has room. `gone` is the file that it leaves without
    /// a name, if there is one. It takes no memory.
    pub fn note<T>(&mut self, event: &Event<T>, gone: Option<FileId>)
        ensures stands { (header : HeaderOf) (past : List (EventOf T)) → StandsFor header self.old (without_tickets past) →
            HasRoomForAll self.old (added (without_tickets past) (act_with (λ _. tt) event.now.act)) →
            UnnamesOnly (without_tickets past) (event_with (λ _. tt) event.now) gone →
            all_permitted lawful_judge header (event.now ∷ past) ≡ true → length (event.now ∷ past) < 2 ^ 64 →
            StandsFor header self.new (without_tickets (event.now ∷ past)) }
        ensures room { self.new.next ≡ left_room (act_with (λ _. tt) event.now.act) self.old.next }
    {
        self.note_event(event, gone);
    }

    /// The file that is saved next: the first of those that are to be saved. `None` exactly where there is
    /// none.
    pub fn pick(&self) -> Option<FileId>
        ensures { (header : HeaderOf) (past : Past) → StandsFor header self.now past → result ≡ next_save header past }
    {
        self.choose()
    }

    // What is kept after an event that leaves this file without a name.
    fn note_event<T>(&mut self, event: &Event<T>, gone: Option<FileId>)
        ensures { self.new ≡ edge_after (event_with (λ _. tt) event.now) gone self.old }
    {
        note_all(
            &mut self.inputs,
            &mut self.files,
            &mut self.saves,
            &mut self.count,
            &mut self.next,
            event,
            gone,
        );
    }

    // The choice among what is kept.
    fn choose(&self) -> Option<FileId>
        ensures { result ≡ choice self.now.saves self.now.hot self.now.files }
    {
        choice(&self.saves, self.hot, &self.files)
    }
}

// Takes note of an event.
fn note_all<T>(
    inputs: &mut Vec<Items<FileId>>,
    files: &mut Vec<Outputs>,
    saves: &mut [Save; SEATS],
    count: &mut u64,
    next: &mut Option<Kept>,
    event: &Event<T>,
    gone: Option<FileId>,
)
    requires { IfSome next.old (λ _. (vec_len inputs.old < vec_capacity inputs.old) × (vec_len files.old < vec_capacity files.old)) }
    ensures after { (hot : ℕ) → record { inputs = inputs.new.items; files = files.new.items; saves = saves.new; count = count.new; hot = hot; next = next.new }
        ≡ edge_after (event_with (λ _. tt) event.now) gone (record { inputs = inputs.old.items; files = files.old.items; saves = saves.old; count = count.old; hot = hot; next = next.old }) }
    ensures places { IfSome next.new (λ _. (vec_len inputs.new < vec_capacity inputs.new) × (vec_len files.new < vec_capacity files.new)) }
{
    note_saves(saves, event);
    change_files(files, inputs, *count, gone, &event.act);
    if accepts(&event.act) {
        add_next(inputs, files, next);
    }
    *count = next_number(*count);
}

// The files after an act.
fn change_files<T>(
    files: &mut Vec<Outputs>,
    inputs: &[Items<FileId>],
    at: u64,
    gone: Option<FileId>,
    act: &Act<T>,
)
    ensures files { files.new.items ≡ files_after inputs.now at gone (act_with (λ _. tt) act.now) files.old.items }
    ensures len { vec_len files.new ≡ vec_len files.old }
    ensures capacity { vec_capacity files.new ≡ vec_capacity files.old }
{
    note_files(files, inputs, at, gone, act);
}

// Adds the record for which there is a place, if there is one.
fn add_next(inputs: &mut Vec<Items<FileId>>, files: &mut Vec<Outputs>, next: &mut Option<Kept>)
    requires { IfSome next.old (λ _. (vec_len inputs.old < vec_capacity inputs.old) × (vec_len files.old < vec_capacity files.old)) }
    ensures inputs { inputs.new.items ≡ with_inputs next.old inputs.old.items }
    ensures files { files.new.items ≡ with_files next.old (taken_up next.old files.old.items) }
    ensures next { next.new ≡ None }
{
    if let Some(kept) = next.take() {
        let Kept {
            inputs: read,
            outputs,
        } = kept;
        take_up(files, read.as_slice());
        push_inputs(inputs, read);
        push_outputs(files, outputs);
    }
}

// The files once a record has these as inputs.
fn take_up(files: &mut Vec<Outputs>, read: &[FileId])
    ensures files { files.new.items ≡ with_each TakeUp read.now files.old.items }
    ensures len { vec_len files.new ≡ vec_len files.old }
    ensures capacity { vec_capacity files.new ≡ vec_capacity files.old }
{
    change_each(files, read, Change::TakeUp);
}

// Appends the inputs of a record to a vector that has room for them.
fn push_inputs(inputs: &mut Vec<Items<FileId>>, read: Items<FileId>)
    requires { vec_len inputs.old < vec_capacity inputs.old }
    ensures { inputs.new.items ≡ inputs.old.items ++ read ∷ [] }
{
    if inputs.push(read).is_err() {
        unreachable!();
    }
}

// Appends the files of a record to a vector that has room for them.
fn push_outputs(files: &mut Vec<Outputs>, outputs: Outputs)
    requires { vec_len files.old < vec_capacity files.old }
    ensures { files.new.items ≡ files.old.items ++ outputs ∷ [] }
{
    if files.push(outputs).is_err() {
        unreachable!();
    }
}
