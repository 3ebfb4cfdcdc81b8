//! Clients' calls of the namespace.

ghost use Rattle.std.specs.Prelude.{◌≡◌, ◌+◌, ◌<◌, ◌≤◌, ◌∷◌, true, false, IfOk, OnErr};
ghost use Rattle.tl_model.specs.Actors.{is_idle};
ghost use Rattle.tl_model.specs.Past.{command_with};
ghost use Rattle.tl_model.specs.Rules.{put_has_its_bytes};
ghost use Rattle.tl_names.specs.Answers.{HasFewOutputs};
ghost use Rattle.tl_core.specs.Answers.{past_of};
ghost use Rattle.tl_core.specs.Called.{Called, IsFitting, put_made, bytes_put, file_to_free, made_of, with_freed, with_saved};

use crate::cluster::{Cluster, ROOM};
use crate::resident::{file_held, take_out};
use std::alloc::Global;
use std::marker::Model;
use tl_io::Ticket;
use tl_ledger::Ledger;
use tl_model::{Act, Command, Event, Reply};
use tl_types::{Actor, Digest, FileId, NoMemory};

impl<T: Ticket> Cluster<T> {
    /// Makes a client's call: answers its number in the history and its reply, and records it. An
    /// accepted put is recorded as saved. A free takes the file that it names out of the worker's memory, if it is in one.
    pub fn call(
        &mut self,
        alloc: Global,
        actor: Actor,
        command: Command<T>,
    ) -> Result<(u64, Reply), NoMemory>
        requires client { actor.0 < 8 }
        requires idle { is_idle (past_of self.old) actor ≡ true }
        requires fitting { IsFitting command }
        requires bytes { T.tells ≡ true → put_has_its_bytes (command_with T.content command) ≡ true }
        ensures ok { IfOk result (Called self.old self.new actor command) }
        ensures err { OnErr result (self.new ≡ self.old) }
    {
        self.journal.reserve(ROOM)?;
        outputs_are_few(&command);
        let bytes = bytes_put(&command);
        let freed = file_held(&self.residents, file_to_free(&self.journal, &command));
        let (number, reply) = self.journal.call(alloc, actor, command)?;
        record_saved(&mut self.journal, actor, made_of(&reply, bytes));
        record_freed(&mut self.journal, actor, freed);
        take_out(&mut self.residents, freed);
        Ok((number, reply))
    }
}

// A job has no more outputs than its program counts in a byte.
fn outputs_are_few<T>(command: &Command<T>)
    requires { IsFitting command.now }
    ensures { HasFewOutputs command.now }
{
    if let Command::Job { core, .. } = command {
        let _outputs = core.get().program.outputs();
    }
}

// The length and the digest of the bytes of a put.
#[derive(Clone, Copy)]
struct PutBytes {
    len: u64,
    digest: Digest,
}

impl Model for PutBytes {
    ghost use Rattle.tl_core.specs.Called.{PutBytes as Bytes};

    ghost Value = { Bytes };

    ghost view = { λ b. record { len = b.len; digest = b.digest } };

    ghost inverse = { λ b. record { len = b.len; digest = b.digest } };
}

// A file that a put made, with the length and the digest of its bytes.
#[derive(Clone, Copy)]
struct MadePut {
    file: FileId,
    len: u64,
    digest: Digest,
}

impl Model for MadePut {
    ghost use Rattle.tl_core.specs.Called.{MadePut as Made};

    ghost Value = { Made };

    ghost view = { λ m. record { file = m.file; len = m.len; digest = m.digest } };

    ghost inverse = { λ m. record { file = m.file; len = m.len; digest = m.digest } };
}

// What a command puts, if it is a put.
fn bytes_put<T>(command: &Command<T>) -> Option<PutBytes>
    ensures { result ≡ bytes_put command.now }
{
    match command {
        Command::Put { len, digest, .. } => Some(PutBytes {
            len: *len,
            digest: *digest,
        }),
        _ => None,
    }
}

// The file that is made of these bytes, where the put is accepted.
fn made_of(reply: &Reply, bytes: Option<PutBytes>) -> Option<MadePut>
    ensures { result ≡ made_of reply.now bytes }
{
    match (reply, bytes) {
        (Reply::Made(made), Some(put)) => Some(MadePut {
            file: FileId { rec: *made, out: 0 },
            len: put.len,
            digest: put.digest,
        }),
        _ => None,
    }
}

// The file that a free names.
fn file_to_free<T: Ticket>(journal: &Ledger<T>, command: &Command<T>) -> Option<FileId>
    ensures { result ≡ file_to_free journal.now.events command.now }
{
    match command {
        Command::Free { path } => journal.file_named(path),
        _ => None,
    }
}

// Records that a file was freed.
fn record_freed<T: Ticket>(journal: &mut Ledger<T>, actor: Actor, freed: Option<FileId>)
    requires { 1 ≤ journal.old.spare }
    ensures events { journal.new.events ≡ with_freed actor freed journal.old.events }
    ensures header { journal.new.header ≡ journal.old.header }
    ensures spare { journal.old.spare ≤ journal.new.spare + 1 }
{
    if let Some(file) = freed {
        journal.append(Event {
            actor,
            act: Act::Free(file),
        });
    }
}

// Records the Saved that follows an accepted put.
fn record_saved<T: Ticket>(journal: &mut Ledger<T>, actor: Actor, put: Option<MadePut>)
    requires { 1 ≤ journal.old.spare }
    ensures events { journal.new.events ≡ with_saved actor put journal.old.events }
    ensures header { journal.new.header ≡ journal.old.header }
    ensures spare { journal.old.spare ≤ journal.new.spare + 1 }
{
    if let Some(put) = put {
        journal.append(Event {
            actor,
            act: Act::Saved(put.file, put.len, put.digest),
        });
    }
}
