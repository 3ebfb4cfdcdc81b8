ghost use Rattle.std.specs.Prelude.{◌≡◌, ◌-◌, ◌<◌, ◌≤◌, ◌∷◌, [], None, IfOk, OnOk, OnErr};
ghost use Rattle.std.specs.Prelude.{true, length, reverse, if◌then◌else◌};
ghost use Rattle.std.specs.Option.{option_copied};
ghost use Rattle.tl_ledger.specs.Naming.{file_named};
ghost use Rattle.tl_model.specs.Actors.{open_read};
ghost use Rattle.tl_model.specs.Checkpoints.{next_save};
ghost use Rattle.tl_model.specs.History.{calls_of, is_pinned, names_of, record_at, records, reply_after};
ghost use Rattle.tl_model.specs.Journal.{call_count, calls_in};
ghost use Rattle.tl_model.specs.Needs.{garbage};
ghost use Rattle.tl_model.specs.Past.{without_tickets};
ghost use Rattle.tl_model.specs.Plan.{is_ready, is_task, is_wanted, next};
ghost use Rattle.tl_model.specs.Residency.{is_available, is_kept, place};
ghost use Rattle.tl_model.specs.Rules.{all_permitted, lawful_judge};
ghost use Rattle.tl_names.specs.Answers.{HasFewOutputs, IsNamesOf};

use crate::copying::copy_reply;
use crate::files::{deleted_file, gone_after, is_pinned};
use crate::parts::{Parts, make_room, note_call};
use crate::records::{file_named, record_for};
use std::alloc::Global;
use std::marker::Model;
use tl_edge::{a_delete_unnames_its_file, only_deletes_unname};
use tl_io::Ticket;
use tl_model::{Act, Command, Event, Header, Journal, Record, Reply};
use tl_names::Names;
use tl_steps::OpenRead;
use tl_types::{Actor, FileId, NoMemory, Path, RecordId, WorkerId};

/// The journal, and what is kept in step with it: the names of its history in tables, its records,
/// which of them are tasks, which is next, which file is saved next, and which record may be let
/// go. Contracts see the header, the events with the newest first, and how many more may be
/// appended without asking for memory.
#[derive(Drop)]
pub struct Ledger<T: Ticket> {
    journal: Journal<T>,
    names: Names,
    parts: Parts,
    // The number of the next record.
    next: RecordId,
}

impl<T: Ticket> Model for Ledger<T> {
    ghost use Rattle.std.specs.Coded.{codes};
    ghost use Rattle.tl_lang.specs.contracts.expr.Expr as expr;
    ghost use Rattle.tl_model.specs.History.{calls_of};
    ghost use Rattle.tl_model.specs.Journal.{Ledger as Events};
    ghost use Rattle.tl_ledger.specs.Following.{Follows};
    ghost use Rattle.tl_ledger.specs.Parts.{FollowPast};

    ghost Value = { Events T };

    ghost coded = { Prim.hlevel (codes, expr.the_row.coded, T.code) };

    ghost view = { λ l.
        let journal = l.journal in
        record { header = journal.header; events = journal.events; spare = journal.spare } };

    ghost invariant = { λ l. Follows l.names l.next.0 (calls_of l.journal.events)
        × FollowPast l.parts l.journal.header l.journal.events };
}

impl<T: Ticket> Ledger<T> {
    /// A journal of no events, whose names are `/` alone.
    pub fn new(alloc: Global, header: Header) -> Result<Ledger<T>, NoMemory>
        ensures header { IfOk result (λ ledger. ledger.header ≡ header) }
        ensures events { IfOk result (λ ledger. ledger.events ≡ []) }
        ensures spare { IfOk result (λ ledger. ledger.spare ≡ 0) }
    {
        Ok(Ledger {
            journal: Journal::new(alloc, header),
            names: Names::new(alloc)?,
            parts: Parts::new(alloc, header),
            next: RecordId(0),
        })
    }

    /// Makes room for `n` more events at least.
    pub fn reserve(&mut self, n: usize) -> Result<(), NoMemory>
        ensures room { OnOk result (n ≤ self.new.spare) }
        ensures never_less { self.old.spare ≤ self.new.spare }
        ensures events { self.new.events ≡ self.old.events }
        ensures header { self.new.header ≡ self.old.header }
        ensures err { OnErr result (self.new ≡ self.old) }
    {
        self.journal.reserve(n)
    }

    /// All that was done.
    pub fn journal(&self) -> &Journal<T>
        ensures header { result.now.header ≡ self.now.header }
        ensures events { result.now.events ≡ self.now.events }
        ensures spare { result.now.spare ≡ self.now.spare }
    {
        &self.journal
    }

    /// How many events there are.
    pub fn len(&self) -> u64
        ensures { result ≡ length self.now.events }
    {
        self.journal.len()
    }

    /// The events, the first of them first.
    pub fn events(&self) -> &[Event<T>]
        ensures { reverse result.now ≡ self.now.events }
    {
        self.journal.events()
    }

    /// The number of the next record: how many were accepted.
    pub fn accepted(&self) -> RecordId
        ensures { result.0 ≡ length (records (without_tickets self.now.events)) }
    {
        self.next
    }

    /// The names of this history, in tables.
    pub fn names(&self) -> &Names
        ensures { IsNamesOf result.now (calls_of self.now.events) }
    {
        &self.names
    }

    /// The file that a path names after this history.
    pub fn file_named(&self, path: &Path) -> Option<FileId>
        ensures { result ≡ file_named (names_of (calls_of self.now.events)) path.now }
    {
        file_named(&self.names, path)
    }

    /// Whether the file is pinned after this history.
    pub fn is_pinned(&self, file: FileId) -> bool
        ensures { result ≡ is_pinned (without_tickets self.now.events) file }
    {
        is_pinned(&self.names, file)
    }

    /// The record that is next, where all the events are permitted. It changes nothing that
    /// contracts see.
    pub fn next(&mut self) -> Option<RecordId>
        ensures next { all_permitted lawful_judge self.old.header self.old.events ≡ true →
            result ≡ next self.old.header.order (without_tickets self.old.events) }
        ensures same { self.new ≡ self.old }
    {
        self.parts.next()
    }

    /// The file that is saved next, where all the events are permitted. `None` exactly where none
    /// is to be saved.
    pub fn next_save(&self) -> Option<FileId>
        ensures { all_permitted lawful_judge self.now.header self.now.events ≡ true →
            result ≡ next_save self.now.header (without_tickets self.now.events) }
    {
        self.parts.next_save()
    }

    /// The least record that is kept and not needed, where all the events are permitted. `None`
    /// exactly where there is none. It changes nothing that contracts see.
    pub fn garbage(&mut self) -> Option<RecordId>
        ensures garbage { all_permitted lawful_judge self.old.header self.old.events ≡ true →
            result ≡ garbage (without_tickets self.old.events) }
        ensures same { self.new ≡ self.old }
    {
        self.parts.garbage()
    }

    /// Whether the record is a task, where all the events are permitted.
    pub fn is_task(&self, made: RecordId) -> bool
        ensures { all_permitted lawful_judge self.now.header self.now.events ≡ true →
            result ≡ is_task (without_tickets self.now.events) made }
    {
        self.parts.is_task(made)
    }

    /// Whether the record is a task that can be run, where all the events are permitted.
    pub fn is_ready(&self, made: RecordId) -> bool
        ensures { all_permitted lawful_judge self.now.header self.now.events ≡ true →
            result ≡ is_ready (without_tickets self.now.events) made }
    {
        self.parts.is_ready(made)
    }

    /// Whether the file is wanted, where all the events are permitted.
    pub fn is_wanted(&self, file: FileId) -> bool
        ensures { all_permitted lawful_judge self.now.header self.now.events ≡ true →
            result ≡ is_wanted (without_tickets self.now.events) file }
    {
        self.parts.is_wanted(file)
    }

    /// Whether the file is in memory or saved, where all the events are permitted.
    pub fn is_available(&self, file: FileId) -> bool
        ensures { all_permitted lawful_judge self.now.header self.now.events ≡ true →
            result ≡ is_available (without_tickets self.now.events) file }
    {
        self.parts.is_available(file)
    }

    /// The worker in whose memory the file is, if it is in one, where all the events are permitted.
    pub fn place(&self, file: FileId) -> Option<WorkerId>
        ensures { all_permitted lawful_judge self.now.header self.now.events ≡ true →
            result ≡ place (without_tickets self.now.events) file }
    {
        self.parts.place(file)
    }

    /// The read that the actor has open, if it has one, where all the events are permitted.
    pub fn reading(&self, actor: Actor) -> Option<OpenRead>
        ensures { all_permitted lawful_judge self.now.header self.now.events ≡ true →
            result ≡ open_read (without_tickets self.now.events) actor }
    {
        self.parts.reading(actor)
    }

    /// The record of a number, while it is kept, where all the events are permitted.
    pub fn record(&self, made: RecordId) -> Option<&Record>
        ensures { all_permitted lawful_judge self.now.header self.now.events ≡ true →
            option_copied result ≡ (if is_kept (without_tickets self.now.events) made
            then record_at (without_tickets self.now.events) made else None) }
    {
        self.parts.record(made)
    }

    /// Appends an event that is no call, for which there must be room.
    pub fn append(&mut self, event: Event<T>)
        requires room { 0 < self.old.spare }
        requires no_call { calls_in event.act ≡ 0 }
        ensures events { self.new.events ≡ event ∷ self.old.events }
        ensures spare { self.new.spare ≡ self.old.spare - 1 }
        ensures header { self.new.header ≡ self.old.header }
    {
        only_deletes_unname::<T>();
        self.parts.note(&event, None);
        self.journal.append(event);
        let _count = self.journal.len();
    }

    /// Makes a call, for which there must be room: answers its number in the history and the reply
    /// that the history determines, and records it. A job has at most 255 outputs.
    pub fn call(
        &mut self,
        alloc: Global,
        actor: Actor,
        command: Command<T>,
    ) -> Result<(u64, Reply), NoMemory>
        requires room { 0 < self.old.spare }
        requires few { HasFewOutputs command }
        ensures number { IfOk result (λ answer. answer.0 ≡ call_count self.old.events) }
        ensures reply { IfOk result (λ answer.
            answer.1 ≡ reply_after (calls_of self.old.events) command) }
        ensures events { IfOk result (λ answer. self.new.events
            ≡ record { actor = actor; act = Act.Call command answer.1 } ∷ self.old.events) }
        ensures spare { OnOk result (self.new.spare ≡ self.old.spare - 1) }
        ensures header { self.new.header ≡ self.old.header }
        ensures err { OnErr result (self.new ≡ self.old) }
    {
        only_deletes_unname::<T>();
        a_delete_unnames_its_file::<T>();
        let number = self.journal.calls();
        let rec = record_for(alloc, &self.names, self.next, &command)?;
        let deleted = deleted_file(&self.names, &command);
        make_room(alloc, &mut self.parts, &rec)?;
        let reply = self.names.apply(alloc, &command, self.next)?;
        let answer = copy_reply(alloc, &reply)?;
        let gone = gone_after(&reply, deleted);
        let event = Event {
            actor,
            act: Act::Call(command, reply),
        };
        self.next = note_call(&mut self.parts, self.next, &event, rec, gone);
        self.journal.append(event);
        let _count = self.journal.len();
        Ok((number, answer))
    }
}
