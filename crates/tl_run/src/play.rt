//! Doing the lines of a script, one after another.

ghost use Rattle.std.specs.Prelude.{◌≡◌, ◌<◌, ◌≤◌, [], IfOk};
ghost use Rattle.std.specs.List.{AllByRecursion};
ghost use Rattle.tl_core.specs.Answers.{past_of};
ghost use Rattle.tl_client.specs.Rest.{AllAtRest, IsAtRest, SameOpen};
ghost use Rattle.tl_script.specs.Commands.{IsOp};
ghost use Rattle.tl_run.specs.Plays.{IsLine, IsPiece, IsReadAs, PlaysOut, form_of, transcript, worker_of};

use crate::transcript::{Printed, print, transcript};
use std::alloc::Global;
use tl_client::{NameCommand, ask, lose, put, read, submit, try_read, work};
use tl_core::Cluster;
use tl_io::{MemTicket, SureDepot};
use tl_model::{Answer, Form, Header};
use tl_script::{Line, Op};
use tl_types::{Actor, NoMemory, Path, Prio, WorkerId};

/// A cluster on which lines were done, and what was printed of them.
#[derive(Drop)]
pub(crate) struct Finished {
    pub(crate) cluster: Cluster<MemTicket>,
    pub(crate) text: Vec<u8>,
}

/// Does the lines in order on a cluster of its own.
pub(crate) fn play(alloc: Global, header: Header, lines: Vec<Line>) -> Result<Finished, NoMemory>
    requires workers { 0 < header.workers }
    requires lines { AllByRecursion (IsLine header) lines.items }
    ensures header { IfOk result (λ finished. finished.cluster.header ≡ header) }
    ensures played { IfOk result (λ finished. PlaysOut header lines.items finished.cluster.events finished.text.items) }
{
    let mut depot = SureDepot::new();
    let mut cluster = at_rest(alloc, header)?;
    let mut printed = Vec::new(alloc);
    let mut rest = lines;
    rest.reverse();
    'lines: while let Some(line) = rest.pop() {
        let form = form_of(&line.op);
        let client = line.client;
        let answer = act(
            alloc,
            &mut cluster,
            &mut depot,
            header.workers,
            client,
            line.op,
        )?;
        print(alloc, &mut printed, client, answer, form)?;
    }
    cluster.stands();
    with_transcript(alloc, cluster, &printed)
}

// The cluster on which lines were done, with what was printed of them in the order of their clients.
fn with_transcript(
    alloc: Global,
    cluster: Cluster<MemTicket>,
    printed: &[Printed],
) -> Result<Finished, NoMemory>
    ensures cluster { IfOk result (λ finished. finished.cluster ≡ cluster) }
    ensures text { IfOk result (λ finished. finished.text.items ≡ transcript printed.now) }
{
    let text = transcript(alloc, printed)?;
    Ok(Finished { cluster, text })
}

// A cluster of no events.
fn at_rest(alloc: Global, header: Header) -> Result<Cluster<MemTicket>, NoMemory>
    ensures header { IfOk result (λ cluster. cluster.header ≡ header) }
    ensures events { IfOk result (λ cluster. cluster.events ≡ []) }
    ensures rest { IfOk result (λ cluster. AllAtRest (past_of cluster)) }
{
    Cluster::new(alloc, header)
}

// Does a client's command, of which nobody has anything under way.
fn act(
    alloc: Global,
    cluster: &mut Cluster<MemTicket>,
    depot: &mut SureDepot,
    workers: u8,
    client: u8,
    op: Op,
) -> Result<Answer, NoMemory>
    requires some { 0 < workers }
    requires workers { workers ≡ cluster.old.header.workers }
    requires client { client ≤ 7 }
    requires op { IsOp cluster.old.header op }
    requires rest { AllAtRest (past_of cluster.old) }
    ensures ok { IfOk result (IsPiece cluster.old.header cluster.old.events cluster.new.events client op) }
    ensures rest { AllAtRest (past_of cluster.new) }
    ensures header { cluster.new.header ≡ cluster.old.header }
{
    do_line(
        alloc,
        cluster,
        depot,
        Actor(client),
        WorkerId(client % workers),
        op,
    )
}

// How the answer of a command is printed.
fn form_of(op: &Op) -> Form
    ensures { result ≡ form_of op.now }
{
    match op {
        Op::Read { form, .. } => *form,
        _ => Form::Cat,
    }
}

// Does a client's command; its reads run what they need on the worker.
fn do_line(
    alloc: Global,
    cluster: &mut Cluster<MemTicket>,
    depot: &mut SureDepot,
    actor: Actor,
    worker: WorkerId,
    op: Op,
) -> Result<Answer, NoMemory>
    requires client { actor.0 < 8 }
    requires worker { worker ≡ worker_of cluster.old.header actor.0 }
    requires bound { worker.0 < cluster.old.header.workers }
    requires op { IsOp cluster.old.header op }
    requires rest { IsAtRest (past_of cluster.old) actor }
    ensures ok { IfOk result (IsPiece cluster.old.header cluster.old.events cluster.new.events actor.0 op) }
    ensures rest { IsAtRest (past_of cluster.new) actor }
    ensures same { SameOpen (past_of cluster.old) (past_of cluster.new) }
    ensures header { cluster.new.header ≡ cluster.old.header }
{
    match op {
        Op::Put { path, text } => put(alloc, cluster, depot, actor, &path, &text),
        Op::Job {
            core,
            prio,
            inputs,
            outputs,
        } => submit(alloc, cluster, actor, core, prio, inputs, outputs),
        Op::Read { path, prio, form } => {
            read_as(alloc, cluster, depot, actor, worker, &path, prio, form)
        }
        Op::Delete { path } => ask(alloc, cluster, actor, NameCommand::Delete { path }),
        Op::Mkdir { path } => ask(alloc, cluster, actor, NameCommand::Mkdir { path }),
        Op::Rename { from, to } => ask(alloc, cluster, actor, NameCommand::Rename { from, to }),
        Op::Pin { path } => ask(alloc, cluster, actor, NameCommand::Pin { path }),
        Op::Unpin { path } => ask(alloc, cluster, actor, NameCommand::Unpin { path }),
        Op::List { path } => ask(alloc, cluster, actor, NameCommand::List { path }),
        Op::Stat { path } => ask(alloc, cluster, actor, NameCommand::Stat { path }),
        Op::Free { path } => ask(alloc, cluster, actor, NameCommand::Free { path }),
        Op::Lose { worker } => lose(cluster, actor, worker),
        Op::Work { worker, n } => work(alloc, cluster, depot, actor, worker, n),
    }
}

// Reads a file: waits for it, or tries once.
fn read_as(
    alloc: Global,
    cluster: &mut Cluster<MemTicket>,
    depot: &mut SureDepot,
    actor: Actor,
    worker: WorkerId,
    path: &Path,
    prio: Prio,
    form: Form,
) -> Result<Answer, NoMemory>
    requires client { actor.0 < 8 }
    requires worker { worker.0 < cluster.old.header.workers }
    requires rest { IsAtRest (past_of cluster.old) actor }
    ensures ok { IfOk result (IsReadAs cluster.old.header.order cluster.old.events cluster.new.events actor worker path.now prio form) }
    ensures rest { IsAtRest (past_of cluster.new) actor }
    ensures same { SameOpen (past_of cluster.old) (past_of cluster.new) }
    ensures header { cluster.new.header ≡ cluster.old.header }
{
    match form {
        Form::Cat => read(alloc, cluster, depot, actor, worker, path, prio, Form::Cat),
        Form::Sum => read(alloc, cluster, depot, actor, worker, path, prio, Form::Sum),
        Form::Try => try_read(alloc, cluster, depot, actor, worker, path, prio),
    }
}
