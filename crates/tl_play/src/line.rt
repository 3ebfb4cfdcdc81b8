//! A line of a script, done by its client.

ghost use Rattle.std.specs.Prelude.{◌≡◌, ◌≤◌};
ghost use Rattle.tl_script.specs.Commands.{IsOp};
ghost use Rattle.tl_work.specs.Setting.{setting};
ghost use Rattle.tl_play.specs.Ops.{IsFormLine, IsOpLine};

use std::alloc::Global;
use tl_clients::Client;
use tl_desk::{Desk, Gate};
use tl_io::Depot;
use tl_model::{Answer, ClientError, Form};
use tl_script::Op;
use tl_types::{Path, Prio};

/// Does the command of a line, which a script of the cluster's header may have. `gate` is told of
/// each claim.
pub fn do_line<K: Desk<D::Ticket>, D: Depot, G: Gate>(
    alloc: Global,
    client: &mut Client<K, D>,
    op: Op,
    gate: &G,
) -> Result<Answer, ClientError>
    requires { IsOp (K.post (K.home client.old.desk)).header op }
    ensures line { IsOpLine (setting K.whole D.Ticket.tells D.Ticket.content
        (K.post (K.home client.old.desk)) client.old.worker)
        (record { before = D.faults client.old.depot; now = D.faults client.new.depot })
        op (K.seen client.old.desk) (K.seen client.new.desk) result }
    ensures never_falls { D.faults client.old.depot ≤ D.faults client.new.depot }
    ensures home { K.home client.new.desk ≡ K.home client.old.desk }
    ensures worker { client.new.worker ≡ client.old.worker }
{
    match op {
        Op::Put { path, text } => client.put(alloc, &path, text.as_slice()),
        Op::Job {
            core,
            prio,
            inputs,
            outputs,
        } => client.submit(alloc, core, prio, inputs, outputs),
        Op::Read { path, prio, form } => read_as(alloc, client, &path, prio, form, gate),
        Op::Delete { path } => client.delete(alloc, &path),
        Op::Mkdir { path } => client.mkdir(alloc, &path),
        Op::Rename { from, to } => client.rename(alloc, &from, &to),
        Op::Pin { path } => client.pin(alloc, &path),
        Op::Unpin { path } => client.unpin(alloc, &path),
        Op::List { path } => client.list(alloc, &path),
        Op::Stat { path } => client.stat(alloc, &path),
        Op::Free { path } => client.free(alloc, &path),
        Op::Lose { worker } => client.lose(worker),
        Op::Work { worker, n } => client.work(alloc, worker, n, gate),
    }
}

// Reads a file: waits for it, or looks once.
fn read_as<K: Desk<D::Ticket>, D: Depot, G: Gate>(
    alloc: Global,
    client: &mut Client<K, D>,
    path: &Path,
    prio: Prio,
    form: Form,
    gate: &G,
) -> Result<Answer, ClientError>
    ensures line { IsFormLine (setting K.whole D.Ticket.tells D.Ticket.content
        (K.post (K.home client.old.desk)) client.old.worker)
        (record { before = D.faults client.old.depot; now = D.faults client.new.depot })
        path.now prio form (K.seen client.old.desk) (K.seen client.new.desk) result }
    ensures never_falls { D.faults client.old.depot ≤ D.faults client.new.depot }
    ensures home { K.home client.new.desk ≡ K.home client.old.desk }
    ensures worker { client.new.worker ≡ client.old.worker }
{
    match form {
        Form::Cat => client.read(alloc, path, prio, Form::Cat, gate),
        Form::Sum => client.read(alloc, path, prio, Form::Sum, gate),
        Form::Try => client.try_read(alloc, path, prio),
    }
}
