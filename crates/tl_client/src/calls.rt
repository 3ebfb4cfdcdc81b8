//! The calls of one turn.

ghost use Rattle.std.specs.Prelude.{◌≡◌, ◌<◌, ◌≤◌, ◌∷◌, length, IfOk, OnOk};
ghost use Rattle.tl_model.specs.declared.command.Command.TheVariants.{Job};
ghost use Rattle.tl_model.specs.declared.event.Act.{Act};
ghost use Rattle.tl_core.specs.Answers.{past_of};
ghost use Rattle.tl_client.specs.Pieces.{IsPut, IsSaid};
ghost use Rattle.tl_client.specs.Rest.{IsAtRest, SameOpen};

use std::alloc::Global;
use tl_core::Cluster;
use tl_io::{Depot, DepotError, MemTicket, SureDepot};
use tl_lang::JobSpecCore;
use tl_model::{Answer, Command};
use tl_types::{Actor, Bytes, Items, NoMemory, Path, Prio, Shared, WorkerId, sha256_digest};

/// Makes a file of bytes: they are saved in the depot, and then the put is called.
pub fn put(
    alloc: Global,
    cluster: &mut Cluster<MemTicket>,
    depot: &mut SureDepot,
    actor: Actor,
    path: &Path,
    bytes: &Bytes,
) -> Result<Answer, NoMemory>
    requires client { actor.0 < 8 }
    requires rest { IsAtRest (past_of cluster.old) actor }
    ensures ok { IfOk result (IsPut cluster.old.events cluster.new.events actor path.now bytes.now) }
    ensures rest { IsAtRest (past_of cluster.new) actor }
    ensures same { SameOpen (past_of cluster.old) (past_of cluster.new) }
    ensures header { cluster.new.header ≡ cluster.old.header }
{
    let command = Command::Put {
        path: path.clone()?,
        len: bytes.len() as u64,
        digest: sha256_digest(bytes.as_slice()),
        ticket: save(alloc, depot, bytes)?,
    };
    let (at, reply) = cluster.call(alloc, actor, command)?;
    Ok(Answer::Said { at, reply })
}

// The ticket under which the depot keeps the bytes.
fn save(alloc: Global, depot: &mut SureDepot, bytes: &Bytes) -> Result<MemTicket, NoMemory>
    ensures { IfOk result (λ ticket. ticket ≡ bytes.now) }
{
    match depot.save(alloc, bytes.as_slice()) {
        Ok(ticket) => Ok(ticket),
        Err(DepotError::NoMemory) => Err(NoMemory),
        Err(DepotError::Failed) => unreachable!(),
    }
}

/// Records a job. Its program must keep the kind rules for as many inputs and outputs as there are
/// paths.
pub fn submit(
    alloc: Global,
    cluster: &mut Cluster<MemTicket>,
    actor: Actor,
    core: Shared<JobSpecCore>,
    prio: Prio,
    inputs: Items<Path>,
    outputs: Items<Path>,
) -> Result<Answer, NoMemory>
    requires client { actor.0 < 8 }
    requires rest { IsAtRest (past_of cluster.old) actor }
    requires inputs { core.program.inputs ≡ length inputs }
    requires outputs { core.program.outputs ≡ length outputs }
    ensures ok { IfOk result (IsSaid cluster.old.events cluster.new.events actor (Job core prio inputs outputs)) }
    ensures rest { IsAtRest (past_of cluster.new) actor }
    ensures same { SameOpen (past_of cluster.old) (past_of cluster.new) }
    ensures header { cluster.new.header ≡ cluster.old.header }
{
    let command = Command::Job {
        core,
        prio,
        inputs,
        outputs,
    };
    let (at, reply) = cluster.call(alloc, actor, command)?;
    Ok(Answer::Said { at, reply })
}

/// The worker loses its memory.
pub fn lose(
    cluster: &mut Cluster<MemTicket>,
    actor: Actor,
    worker: WorkerId,
) -> Result<Answer, NoMemory>
    requires actor { actor.0 < 16 }
    requires worker { worker.0 < cluster.old.header.workers }
    requires rest { IsAtRest (past_of cluster.old) actor }
    ensures answer { IfOk result (λ answer. answer ≡ Answer.Lost worker) }
    ensures events { OnOk result (cluster.new.events ≡ record { actor = actor; act = Act.Lose worker } ∷ cluster.old.events) }
    ensures rest { IsAtRest (past_of cluster.new) actor }
    ensures same { SameOpen (past_of cluster.old) (past_of cluster.new) }
    ensures header { cluster.new.header ≡ cluster.old.header }
{
    cluster.lose(actor, worker)?;
    Ok(Answer::Lost(worker))
}
