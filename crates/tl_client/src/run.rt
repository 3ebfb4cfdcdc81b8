//! Running the job that is next.

ghost use Rattle.std.specs.Prelude.{◌≡◌, ◌<◌, length, map, IfOk};
ghost use Rattle.std.specs.List.{All};
ghost use Rattle.tl_lang.specs.Job.{job_mean};
ghost use Rattle.tl_lang.specs.Kinds.{KindsHold};
ghost use Rattle.tl_core.specs.Answers.{past_of};
ghost use Rattle.tl_client.specs.Feeds.{IsWholeFeed, blocks_from, fed_outcome};
ghost use Rattle.tl_client.specs.Pieces.{IsWorked, RanNext, RanUpTo};
ghost use Rattle.tl_client.specs.Rest.{IsAtRest, NothingRuns, SameOpen, SameReads, SameSaves};

use crate::evaluate::{blocks_of, evaluate};
use crate::feeds::outcomes_of;
use std::alloc::Global;
use tl_core::{Cluster, Work};
use tl_io::{MemTicket, SureDepot};
use tl_model::{Answer, Counted};
use tl_types::{Actor, Block, NoMemory, Shared, WorkerId};

/// Runs the job that is next on the worker, one after another, until `n` were run or none is next.
/// Answers how many were run. Where memory runs out, those stay done that were run before.
pub fn work(
    alloc: Global,
    cluster: &mut Cluster<MemTicket>,
    depot: &mut SureDepot,
    actor: Actor,
    worker: WorkerId,
    n: u32,
) -> Result<Answer, NoMemory>
    requires actor { actor.0 < 16 }
    requires worker { worker.0 < cluster.old.header.workers }
    requires rest { IsAtRest (past_of cluster.old) actor }
    ensures ok { IfOk result (IsWorked cluster.old.header.order cluster.old.events cluster.new.events actor worker n) }
    ensures rest { IsAtRest (past_of cluster.new) actor }
    ensures same { SameOpen (past_of cluster.old) (past_of cluster.new) }
    ensures header { cluster.new.header ≡ cluster.old.header }
{
    let count = run_up_to(alloc, cluster, depot, actor, worker, n)?;
    Ok(Answer::Count(Counted::Work, count))
}

// Runs what is next on the worker until that many were run or none is next; answers how many were.
fn run_up_to(
    alloc: Global,
    cluster: &mut Cluster<MemTicket>,
    depot: &mut SureDepot,
    actor: Actor,
    worker: WorkerId,
    n: u32,
) -> Result<u32, NoMemory>
    requires actor { actor.0 < 16 }
    requires worker { worker.0 < cluster.old.header.workers }
    requires rest { NothingRuns (past_of cluster.old) actor }
    ensures ok { IfOk result (RanUpTo cluster.old.header.order cluster.old.events cluster.new.events actor worker n) }
    ensures header { cluster.new.header ≡ cluster.old.header }
    ensures rest { NothingRuns (past_of cluster.new) actor }
    ensures reads { SameReads (past_of cluster.old) (past_of cluster.new) }
    ensures saves { SameSaves (past_of cluster.old) (past_of cluster.new) }
{
    let mut count = 0;
    'jobs: while count < n {
        if !run_next(alloc, cluster, depot, actor, worker)? {
            return Ok(count);
        }
        count += 1;
    }
    Ok(count)
}

/// Takes up the job that is next, runs it on the worker and ends it. Answers whether there was one.
/// Where memory runs out the job is given back.
pub fn run_next(
    alloc: Global,
    cluster: &mut Cluster<MemTicket>,
    depot: &mut SureDepot,
    actor: Actor,
    worker: WorkerId,
) -> Result<bool, NoMemory>
    requires actor { actor.0 < 16 }
    requires worker { worker.0 < cluster.old.header.workers }
    requires rest { NothingRuns (past_of cluster.old) actor }
    ensures ok { IfOk result (RanNext cluster.old.header.order cluster.old.events cluster.new.events actor worker) }
    ensures header { cluster.new.header ≡ cluster.old.header }
    ensures rest { NothingRuns (past_of cluster.new) actor }
    ensures reads { SameReads (past_of cluster.old) (past_of cluster.new) }
    ensures saves { SameSaves (past_of cluster.old) (past_of cluster.new) }
{
    cluster.stands();
    let Some(work) = cluster.claim(alloc, actor, worker)? else {
        return Ok(false);
    };
    let Ok(blocks) = make(alloc, depot, &work) else {
        cluster.back(work);
        return Err(NoMemory);
    };
    match cluster.done(work, blocks) {
        Ok(_) => Ok(true),
        Err((work, _)) => {
            cluster.back(work);
            Err(NoMemory)
        }
    }
}

// The blocks that the job makes of its inputs, in order.
fn make(
    alloc: Global,
    depot: &mut SureDepot,
    work: &Work<MemTicket>,
) -> Result<Vec<Shared<Block>>, NoMemory>
    requires fed { All IsWholeFeed work.now.inputs.items }
    requires inputs { length work.now.inputs.items ≡ work.now.core.program.inputs }
    ensures blocks { IfOk result (λ blocks. blocks.items ≡ blocks_from work.now.rec 0 (job_mean work.now.core (map fed_outcome work.now.inputs.items))) }
    ensures kinds { KindsHold work.now.core.program.program work.now.core.program.inputs work.now.core.program.outputs }
{
    let _outputs = work.core.get().program.outputs();
    let inputs = outcomes_of(alloc, depot, &work.inputs)?;
    let outcomes = evaluate(alloc, &work.core, inputs)?;
    blocks_of(alloc, work.rec, outcomes)
}
