//! The main event of a call.

ghost use Rattle.std.specs.Prelude.{◌≡◌, ◌+◌, ◌<◌, ◌≤◌, true, is_some, IfOk, OnErr, OnOk, option_map};
ghost use Rattle.tl_types.specs.declared.file_id.FileId.{FileId as File};
ghost use Rattle.tl_fleet.specs.Order.{StandsInOrder};
ghost use Rattle.tl_fleet.specs.Workers.{held_count};
ghost use Rattle.tl_model.specs.Actors.{is_idle};
ghost use Rattle.tl_model.specs.Eviction.{Sizes};
ghost use Rattle.tl_model.specs.Past.{Past, command_with, without_tickets};
ghost use Rattle.tl_model.specs.Rules.{put_has_its_bytes};
ghost use Rattle.tl_model.specs.declared.header.Header.{Header};
ghost use Rattle.tl_names.specs.Answers.{HasFewOutputs};
ghost use Rattle.tl_vault.specs.Vault.{has_place, saved_of};
ghost use Rattle.tl_cluster.specs.Called.{IsFitting, file_to_free, freed, if_resident, made_of, with_freed, with_saved};
ghost use Rattle.tl_cluster.specs.Calls.{CanKeep, HasMoreRoom, HasPlace, IsAnswered, IsCopyOfPut, bytes_of, kept_after, workers_without};
ghost use Rattle.tl_cluster.specs.Stands.{Agrees, Stands};

use crate::parts::Parts;
use std::alloc::Global;
use tl_fleet::Fleet;
use tl_io::Ticket;
use tl_ledger::Ledger;
use tl_model::{Act, Command, Event, Reply, Saved};
use tl_types::{Actor, Digest, FileId, NoMemory};
use tl_vault::Vault;

// A ticket of its own for the bytes of a put, with their length and digest.
#[derive(Drop)]
pub(crate) struct PutCopy<T> {
    ticket: T,
    len: u64,
    digest: Digest,
}

impl<T: Ticket> Parts<T> {
    /// Makes a client's call and what follows it: the Saved of an accepted put, which is then kept
    /// in the checkpoint store, and the Free of the file that a free names, where it is in some
    /// memory. Answers the call's number in the history and its reply.
    pub(crate) fn call(
        &mut self,
        alloc: Global,
        actor: Actor,
        command: Command<T>,
    ) -> Result<(u64, Reply), NoMemory>
        requires client { actor.0 < 8 }
        requires idle { is_idle (without_tickets self.old.events) actor ≡ true }
        requires fitting { IsFitting command }
        requires bytes { T.tells ≡ true →
            put_has_its_bytes (command_with T.content command) ≡ true }
        requires stands { Stands T.tells T.content self.old }
        ensures answered { IfOk result (IsAnswered self.old self.new actor command) }
        ensures agrees { OnOk result (Agrees T.tells T.content self.new) }
        ensures err { OnErr result (HasMoreRoom T.tells T.content self.old self.new) }
    {
        let put = self.ready(&command)?;
        self.answer(alloc, actor, command, put)
    }

    // Makes room for a call and what follows it, and the copy of what it puts.
    fn ready(&mut self, command: &Command<T>) -> Result<Option<PutCopy<T>>, NoMemory>
        requires { Stands T.tells T.content self.old }
        ensures copy { IfOk result (IsCopyOfPut T.content command.now) }
        ensures place { IfOk result (HasPlace self.new) }
        ensures room { OnOk result (51 + held_count self.new.workers ≤ self.new.spare) }
        ensures same { HasMoreRoom T.tells T.content self.old self.new }
    {
        let put = copy_put(command)?;
        self.reserve(0)?;
        self.make_place(&put)?;
        Ok(put)
    }

    // Makes the place of a put's file.
    fn make_place(&mut self, put: &Option<PutCopy<T>>) -> Result<(), NoMemory>
        ensures place { OnOk result (HasPlace self.new put.now) }
        ensures same { self.new ≡ record self.old { vault = self.new.vault } }
        ensures kept { (f : File) → saved_of f self.new.vault ≡ saved_of f self.old.vault }
        ensures places { (f : File) → has_place f self.old.vault ≡ true →
            has_place f self.new.vault ≡ true }
    {
        if put.is_none() {
            return Ok(());
        }
        let file = FileId {
            rec: self.ledger.accepted(),
            out: 0,
        };
        add_place(&mut self.vault, file)
    }

    // Makes the call, and what follows it.
    fn answer(
        &mut self,
        alloc: Global,
        actor: Actor,
        command: Command<T>,
        put: Option<PutCopy<T>>,
    ) -> Result<(u64, Reply), NoMemory>
        requires client { actor.0 < 8 }
        requires idle { is_idle (without_tickets self.old.events) actor ≡ true }
        requires fitting { IsFitting command }
        requires bytes { T.tells ≡ true →
            put_has_its_bytes (command_with T.content command) ≡ true }
        requires stands { Stands T.tells T.content self.old }
        requires copy { IsCopyOfPut T.content command put }
        requires place { HasPlace self.old put }
        requires room { 51 + held_count self.old.workers ≤ self.old.spare }
        ensures answered { IfOk result (IsAnswered self.old self.new actor command) }
        ensures agrees { OnOk result (Agrees T.tells T.content self.new) }
        ensures err { OnErr result (self.new ≡ self.old) }
    {
        outputs_are_few(&command);
        let freed = file_held(&self.fleet, file_to_free(&self.ledger, &command));
        let (number, reply) = self.ledger.call(alloc, actor, command)?;
        keep_put(&mut self.ledger, &mut self.vault, actor, &reply, put);
        record_freed(&mut self.ledger, actor, freed);
        take_out(&mut self.fleet, freed);
        Ok((number, reply))
    }
}

// Makes the place of a file in the checkpoint store.
fn add_place<T: Ticket>(vault: &mut Vault<T>, file: FileId) -> Result<(), NoMemory>
    ensures place { OnOk result (has_place file vault.new ≡ true) }
    ensures kept { (f : File) → saved_of f vault.new ≡ saved_of f vault.old }
    ensures places { (f : File) → has_place f vault.old ≡ true → has_place f vault.new ≡ true }
{
    vault.room(file)
}

// A job has no more outputs than its program counts in a byte.
fn outputs_are_few<T>(command: &Command<T>)
    requires { IsFitting command.now }
    ensures { HasFewOutputs command.now }
{
    if let Command::Job { core, .. } = command {
        let _outputs = core.get().program.outputs();
    }
}

// The copy of what a command puts, if it is a put.
fn copy_put<T: Ticket>(command: &Command<T>) -> Result<Option<PutCopy<T>>, NoMemory>
    ensures { IfOk result (IsCopyOfPut T.content command.now) }
{
    match command {
        Command::Put {
            len,
            digest,
            ticket,
            ..
        } => Ok(Some(PutCopy {
            ticket: ticket.copy()?,
            len: *len,
            digest: *digest,
        })),
        _ => Ok(None),
    }
}

// The file that a free names.
fn file_to_free<T: Ticket>(ledger: &Ledger<T>, command: &Command<T>) -> Option<FileId>
    ensures { result ≡ file_to_free ledger.now.events command.now }
{
    match command {
        Command::Free { path } => ledger.file_named(path),
        _ => None,
    }
}

// The file, where it is in some memory.
fn file_held(fleet: &Fleet, file: Option<FileId>) -> Option<FileId>
    ensures { (sizes : Sizes) (header : Header) (past : Past) →
        StandsInOrder sizes header past fleet.now → result ≡ if_resident past file }
{
    match file {
        Some(file) if fleet.is_resident(file) => Some(file),
        _ => None,
    }
}

// Records the Saved that follows an accepted put, and keeps what was put in the checkpoint store.
fn keep_put<T: Ticket>(
    ledger: &mut Ledger<T>,
    vault: &mut Vault<T>,
    actor: Actor,
    reply: &Reply,
    put: Option<PutCopy<T>>,
)
    requires room { 1 ≤ ledger.old.spare }
    requires place { CanKeep reply.now put vault.old }
    ensures events { ledger.new.events
        ≡ with_saved actor (made_of reply.now (option_map bytes_of put)) ledger.old.events }
    ensures header { ledger.new.header ≡ ledger.old.header }
    ensures spare { ledger.old.spare ≤ ledger.new.spare + 1 }
    ensures kept { (f : File) →
        saved_of f vault.new ≡ kept_after reply.now put f (saved_of f vault.old) }
    ensures places { (f : File) → has_place f vault.new ≡ has_place f vault.old }
{
    if let (Reply::Made(made), Some(put)) = (reply, put) {
        let file = FileId { rec: *made, out: 0 };
        ledger.append(Event {
            actor,
            act: Act::Saved(file, put.len, put.digest),
        });
        let saved = Saved::Held {
            ticket: put.ticket,
            len: put.len,
            digest: put.digest,
        };
        vault.insert(file, saved);
    }
}

// Records that a file was freed.
fn record_freed<T: Ticket>(ledger: &mut Ledger<T>, actor: Actor, freed: Option<FileId>)
    requires { 1 ≤ ledger.old.spare }
    ensures events { ledger.new.events ≡ with_freed actor freed ledger.old.events }
    ensures header { ledger.new.header ≡ ledger.old.header }
    ensures spare { ledger.old.spare ≤ ledger.new.spare + 1 }
{
    if let Some(file) = freed {
        ledger.append(Event {
            actor,
            act: Act::Free(file),
        });
    }
}

// Takes a freed file out of its memory.
fn take_out(fleet: &mut Fleet, freed: Option<FileId>)
    ensures { fleet.new ≡ workers_without freed fleet.old }
{
    if let Some(file) = freed {
        fleet.free(file);
    }
}
