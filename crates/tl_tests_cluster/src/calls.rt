//! Clusters whose tickets tell nothing, and clients' calls, written as in a script. What each call
//! asks of its caller is looked up first.

ghost use Rattle.std.specs.Prelude.{◌≡◌, ◌<◌, true, IfOk, OnOk};
ghost use Rattle.tl_model.specs.Actors.{is_idle};
ghost use Rattle.tl_model.specs.declared.header.Header.{Header as HeaderValue};
ghost use Rattle.tl_script.specs.Commands.{IsOp};
ghost use Rattle.tl_cluster.specs.Called.{IsFitting};
ghost use Rattle.tl_cluster.specs.State.{past_of};

use std::alloc::Global;
use std::test::Fail;
use tl_cluster::Cluster;
use tl_io::FalseTicket;
use tl_model::{Command, Header, OrderRule, Reply, Version};
use tl_script::{Op, parse_op};
use tl_spelling::journal_text;
use tl_types::{Actor, FileId, RecordId, sha256_digest};
use tl_walk::is_idle;

// A cluster whose tickets tell nothing.
pub(crate) type Untold = Cluster<FalseTicket>;

// So many workers, each of this capacity; a file is hot once it was read so often.
pub(crate) fn header(workers: u8, capacity: u64, hot: u32) -> Header {
    Header {
        workers,
        capacity,
        hot,
        order: OrderRule::Strict,
        version: Version::One,
    }
}

// The only file of a record.
pub(crate) fn file(made: u32) -> FileId {
    FileId {
        rec: RecordId(made),
        out: 0,
    }
}

// What an act on a new cluster of this header answers.
pub(crate) fn on_new<X: Drop, F: FnOnce(Global, &mut Untold) -> Result<X, Fail>>(
    alloc: Global,
    header: Header,
    act: F,
) -> Result<X, Fail>
    requires { F.IsAlwaysCallable act }
{
    let mut cluster = Cluster::new(alloc, header)?;
    act(alloc, &mut cluster)
}

// The call that a command of a script is.
fn called(op: Op) -> Result<Command<FalseTicket>, Fail>
    ensures { (header : HeaderValue) → IsOp header op
        → IfOk result (λ command. IsFitting command) }
{
    match op {
        Op::Put { path, text } => Ok(Command::Put {
            path,
            len: text.len() as u64,
            digest: sha256_digest(text.as_slice()),
            ticket: FalseTicket,
        }),
        Op::Job {
            core,
            prio,
            inputs,
            outputs,
        } => Ok(Command::Job {
            core,
            prio,
            inputs,
            outputs,
        }),
        Op::Read { path, prio, form } => Ok(Command::Read { path, prio, form }),
        Op::Delete { path } => Ok(Command::Delete { path }),
        Op::Mkdir { path } => Ok(Command::Mkdir { path }),
        Op::Pin { path } => Ok(Command::Pin { path }),
        Op::Free { path } => Ok(Command::Free { path }),
        _ => Err(Fail::from("no call of a test")),
    }
}

// The call that a text says.
fn command(alloc: Global, header: &Header, text: &str) -> Result<Command<FalseTicket>, Fail>
    ensures { IfOk result (λ command. IsFitting command) }
{
    let op = parse_op(alloc, text.as_bytes(), header)?;
    called(op)
}

// What a reply says.
#[derive(Clone, Copy, Debug, PartialEq, Eq)]
pub(crate) enum Answer {
    Made(RecordId),
    Opened(FileId),
    Fine,
    Exists,
    NoSuch,
    Other,
}

fn answer_of(reply: Reply) -> Answer {
    match reply {
        Reply::Made(made) => Answer::Made(made),
        Reply::Opened(file) => Answer::Opened(file),
        Reply::Fine => Answer::Fine,
        Reply::Exists => Answer::Exists,
        Reply::NoSuch => Answer::NoSuch,
        _ => Answer::Other,
    }
}

// The actor has nothing under way.
pub(crate) fn idle(cluster: &Untold, actor: Actor) -> Result<(), Fail>
    ensures { OnOk result (is_idle (past_of cluster.now) actor ≡ true) }
{
    if !is_idle(cluster.journal().events(), actor) {
        return Err(Fail::from("something is under way"));
    }
    Ok(())
}

// Makes the client's call that the text says; answers its number and what its reply says.
pub(crate) fn call(
    alloc: Global,
    cluster: &mut Untold,
    actor: Actor,
    text: &str,
) -> Result<(u64, Answer), Fail>
    requires { actor.0 < 8 }
{
    idle(cluster, actor)?;
    let command = command(alloc, cluster.journal().header(), text)?;
    let (number, reply) = cluster.call(alloc, actor, command)?;
    Ok((number, answer_of(reply)))
}

// Makes the client's calls that the texts say.
pub(crate) fn calls(
    alloc: Global,
    cluster: &mut Untold,
    actor: Actor,
    texts: &[&str],
) -> Result<(), Fail>
    requires { actor.0 < 8 }
{
    for text in texts {
        call(alloc, cluster, actor, text)?;
    }
    Ok(())
}

// Whether this is the text of the journal, in which each put is written as one of no bytes.
pub(crate) fn is_journal(alloc: Global, cluster: &Untold, wanted: &str) -> Result<bool, Fail> {
    let mut text = Vec::new(alloc);
    journal_text(&mut text, cluster.journal(), &[])?;
    Ok(text.as_slice() == wanted.as_bytes())
}
