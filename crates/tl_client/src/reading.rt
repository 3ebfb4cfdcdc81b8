//! Reads: one runs what is next until its file is there, and one does not wait.

ghost use Rattle.std.specs.Prelude.{◌≡◌, ◌<◌, None, Some, IfOk, OnOk, OnErr};
ghost use Rattle.tl_model.specs.declared.command.Command.TheVariants.{Read};
ghost use Rattle.tl_model.specs.declared.command.Form.TheVariants.{Try};
ghost use Rattle.tl_model.specs.Actors.{OpenRead, open_read};
ghost use Rattle.tl_model.specs.History.{calls_of, reply_after};
ghost use Rattle.tl_core.specs.Answers.{past_of};
ghost use Rattle.tl_client.specs.Pieces.{IsRead, IsReadThrough, IsTried, IsTriedNow};
ghost use Rattle.tl_client.specs.Rest.{IsAtRest, NothingRuns, ReadEnds, SameOpen, SameReads, SameSaves};

use crate::run::run_next;
use crate::serving::serve_now;
use std::alloc::Global;
use tl_core::Cluster;
use tl_io::{MemTicket, SureDepot};
use tl_model::{Answer, Command, Form, Reply};
use tl_types::{Actor, Block, FileId, NoMemory, Path, Prio, Shared, WorkerId};

/// Reads a file. As long as it is neither in a memory nor saved, the job that is next is run on the
/// worker. Where memory runs out the read is given up.
pub fn read(
    alloc: Global,
    cluster: &mut Cluster<MemTicket>,
    depot: &mut SureDepot,
    actor: Actor,
    worker: WorkerId,
    path: &Path,
    prio: Prio,
    form: Form,
) -> Result<Answer, NoMemory>
    requires client { actor.0 < 8 }
    requires worker { worker.0 < cluster.old.header.workers }
    requires rest { IsAtRest (past_of cluster.old) actor }
    ensures ok { IfOk result (IsRead cluster.old.header.order cluster.old.events cluster.new.events actor worker (Read path.now prio form)
        (reply_after (calls_of cluster.old.events) (Read path.now prio form))) }
    ensures rest { IsAtRest (past_of cluster.new) actor }
    ensures same { SameOpen (past_of cluster.old) (past_of cluster.new) }
    ensures header { cluster.new.header ≡ cluster.old.header }
{
    let command = Command::Read {
        path: path.clone()?,
        prio,
        form,
    };
    let (at, reply) = cluster.call(alloc, actor, command)?;
    match reply {
        Reply::Opened(file) => {
            let block = wait_for(alloc, cluster, depot, actor, worker, file)?;
            Ok(Answer::Read { at, block })
        }
        reply => Ok(Answer::Said { at, reply }),
    }
}

// Serves the actor's open read on the file, or gives it up where memory runs out.
fn wait_for(
    alloc: Global,
    cluster: &mut Cluster<MemTicket>,
    depot: &mut SureDepot,
    actor: Actor,
    worker: WorkerId,
    file: FileId,
) -> Result<Shared<Block>, NoMemory>
    requires actor { actor.0 < 16 }
    requires worker { worker.0 < cluster.old.header.workers }
    requires reading { (read : OpenRead) × (open_read (past_of cluster.old) actor ≡ Some read) × (read.file ≡ file) }
    requires rest { NothingRuns (past_of cluster.old) actor }
    ensures ok { IfOk result (IsReadThrough cluster.old.header.order cluster.old.events cluster.new.events actor worker file) }
    ensures ends { ReadEnds (past_of cluster.old) (past_of cluster.new) actor }
    ensures saves { SameSaves (past_of cluster.old) (past_of cluster.new) }
    ensures rest { NothingRuns (past_of cluster.new) actor }
    ensures header { cluster.new.header ≡ cluster.old.header }
{
    let served = serve(alloc, cluster, depot, actor, worker, file);
    if served.is_err() {
        cluster.shut(actor);
    }
    served
}

// Serves the actor's open read on the file.
fn serve(
    alloc: Global,
    cluster: &mut Cluster<MemTicket>,
    depot: &mut SureDepot,
    actor: Actor,
    worker: WorkerId,
    file: FileId,
) -> Result<Shared<Block>, NoMemory>
    requires actor { actor.0 < 16 }
    requires worker { worker.0 < cluster.old.header.workers }
    requires reading { (read : OpenRead) × (open_read (past_of cluster.old) actor ≡ Some read) × (read.file ≡ file) }
    requires rest { NothingRuns (past_of cluster.old) actor }
    ensures ok { IfOk result (IsReadThrough cluster.old.header.order cluster.old.events cluster.new.events actor worker file) }
    ensures closed { OnOk result (ReadEnds (past_of cluster.old) (past_of cluster.new) actor) }
    ensures open { OnErr result (SameReads (past_of cluster.old) (past_of cluster.new)) }
    ensures saves { SameSaves (past_of cluster.old) (past_of cluster.new) }
    ensures rest { NothingRuns (past_of cluster.new) actor }
    ensures header { cluster.new.header ≡ cluster.old.header }
{
    'rounds: loop {
        cluster.stands();
        match serve_now(alloc, cluster, depot, actor, worker, file)? {
            Some(block) => return Ok(block),
            None => {
                if !run_next(alloc, cluster, depot, actor, worker)? {
                    unreachable!()
                }
            }
        }
    }
}

/// Reads a file where it can be had at once. It is looked for one time; where it is neither in a
/// memory nor saved, or memory runs out, the read is given up.
pub fn try_read(
    alloc: Global,
    cluster: &mut Cluster<MemTicket>,
    depot: &mut SureDepot,
    actor: Actor,
    worker: WorkerId,
    path: &Path,
    prio: Prio,
) -> Result<Answer, NoMemory>
    requires client { actor.0 < 8 }
    requires worker { worker.0 < cluster.old.header.workers }
    requires rest { IsAtRest (past_of cluster.old) actor }
    ensures ok { IfOk result (IsTried cluster.old.events cluster.new.events actor worker (Read path.now prio Try)
        (reply_after (calls_of cluster.old.events) (Read path.now prio Try))) }
    ensures rest { IsAtRest (past_of cluster.new) actor }
    ensures same { SameOpen (past_of cluster.old) (past_of cluster.new) }
    ensures header { cluster.new.header ≡ cluster.old.header }
{
    let command = Command::Read {
        path: path.clone()?,
        prio,
        form: Form::Try,
    };
    let (at, reply) = cluster.call(alloc, actor, command)?;
    match reply {
        Reply::Opened(file) => {
            match try_for(alloc, cluster, depot, actor, worker, file)? {
                Some(block) => Ok(Answer::Read { at, block }),
                None => Ok(Answer::NotYet { at, file }),
            }
        }
        reply => Ok(Answer::Said { at, reply }),
    }
}

// Serves the actor's open read on the file, or gives it up where the file is neither in a memory nor
// saved, or memory runs out.
fn try_for(
    alloc: Global,
    cluster: &mut Cluster<MemTicket>,
    depot: &mut SureDepot,
    actor: Actor,
    worker: WorkerId,
    file: FileId,
) -> Result<Option<Shared<Block>>, NoMemory>
    requires actor { actor.0 < 16 }
    requires worker { worker.0 < cluster.old.header.workers }
    requires reading { (read : OpenRead) × (open_read (past_of cluster.old) actor ≡ Some read) × (read.file ≡ file) }
    requires rest { NothingRuns (past_of cluster.old) actor }
    ensures ok { IfOk result (IsTriedNow cluster.old.events cluster.new.events actor worker file) }
    ensures ends { ReadEnds (past_of cluster.old) (past_of cluster.new) actor }
    ensures saves { SameSaves (past_of cluster.old) (past_of cluster.new) }
    ensures rest { NothingRuns (past_of cluster.new) actor }
    ensures header { cluster.new.header ≡ cluster.old.header }
{
    match serve_now(alloc, cluster, depot, actor, worker, file) {
        Ok(Some(block)) => Ok(Some(block)),
        missing => {
            cluster.shut(actor);
            missing
        }
    }
}
