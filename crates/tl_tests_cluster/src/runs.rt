//! Runs of jobs that make one file, by actors that say what it holds. What is open at each turn is
//! looked up first.

ghost use Rattle.std.specs.Prelude.{◌≡◌, ◌<◌, ◌≤◌, ◌∷◌, [], true, length, map, reverse, IfOk, OnOk};
ghost use Rattle.tl_model.specs.Rules.{may_claim};
ghost use Rattle.tl_cluster.specs.Losses.{incarnation, loses};
ghost use Rattle.tl_cluster.specs.State.{past_of};
ghost use Rattle.tl_cluster.specs.Works.{IsUnlessLost, file_of};
ghost use Rattle.tl_tests_cluster.specs.Making.{HasSameCalls, MakesOne};

use crate::calls::Untold;
use std::alloc::Global;
use std::test::Fail;
use tl_cluster::{Finish, Work};
use tl_io::FalseTicket;
use tl_model::{Act, Event};
use tl_types::{Actor, Block, Bytes, FileId, Outcome, RecordId, Shared, WorkerId};
use tl_walk::{open_claim, open_save};

// There is the worker.
pub(crate) fn known(cluster: &Untold, worker: WorkerId) -> Result<(), Fail>
    ensures { OnOk result (worker.0 < cluster.now.header.workers) }
{
    if worker.0 >= cluster.journal().header().workers {
        return Err(Fail::from("there is no such worker"));
    }
    Ok(())
}

// The actor has no claim or save open.
fn may_claim(cluster: &Untold, actor: Actor) -> Result<(), Fail>
    ensures { OnOk result (may_claim (past_of cluster.now) actor ≡ true) }
{
    let events = cluster.journal().events();
    if open_claim(events, actor).is_some() || open_save(events, actor).is_some() {
        return Err(Fail::from("a claim or a save is open"));
    }
    Ok(())
}

// Takes up the job that is next for the actor on the worker; it makes one file.
pub(crate) fn take(
    alloc: Global,
    cluster: &mut Untold,
    actor: Actor,
    worker: WorkerId,
) -> Result<Work<FalseTicket>, Fail>
    requires { actor.0 < 16 }
    ensures actor { IfOk result (λ work. work.actor ≡ actor) }
    ensures makes { IfOk result (λ work. MakesOne cluster.new work.rec) }
    ensures calls { OnOk result (HasSameCalls cluster.old cluster.new) }
{
    known(cluster, worker)?;
    may_claim(cluster, actor)?;
    let Some(work) = cluster.claim(alloc, actor, worker)? else {
        return Err(Fail::from("no job is next"));
    };
    if work.core.get().program.outputs() != 1 {
        return Err(Fail::from("not one output"));
    }
    Ok(work)
}

// Whether no job is next for the actor on the first worker.
pub(crate) fn takes_none(alloc: Global, cluster: &mut Untold, actor: Actor) -> Result<bool, Fail>
    requires { actor.0 < 16 }
{
    known(cluster, WorkerId(0))?;
    may_claim(cluster, actor)?;
    Ok(cluster.claim(alloc, actor, WorkerId(0))?.is_none())
}

// Whether the act loses the worker.
fn loses(worker: WorkerId, act: &Act<FalseTicket>) -> bool
    ensures { result ≡ loses worker act.now }
{
    match act {
        Act::Lose(lost) => worker == *lost,
        _ => false,
    }
}

// How often the worker was lost.
fn losses(events: &[Event<FalseTicket>], worker: WorkerId) -> u64
    ensures value { result ≡ incarnation (reverse events.now) worker }
    ensures bound { result ≤ length events.now }
{
    let mut count = 0;
    for event in events {
        if loses(worker, &event.act) {
            count += 1;
        }
    }
    count
}

// The work is still claimed, or its worker was lost since.
fn may_end(cluster: &Untold, work: &Work<FalseTicket>) -> Result<(), Fail>
    ensures worker { OnOk result (work.now.worker.0 < cluster.now.header.workers) }
    ensures claim { OnOk result (IsUnlessLost cluster.now work.now) }
{
    known(cluster, work.worker)?;
    let events = cluster.journal().events();
    if losses(events, work.worker) != work.incarnation {
        return Ok(());
    }
    let claim = open_claim(events, work.actor).ok_or("no claim is open")?;
    if claim.worker() != work.worker || claim.made() != work.rec {
        return Err(Fail::from("another claim is open"));
    }
    Ok(())
}

// The block of the file that holds the text.
pub(crate) fn block_of(alloc: Global, file: FileId, text: &str) -> Result<Shared<Block>, Fail>
    ensures { IfOk result (λ block. block.file ≡ file) }
{
    let bytes = Bytes::new(text.as_bytes().to_vec(alloc)?).ok_or("too long")?;
    Ok(Shared::new(alloc, Block::new(file, Outcome::Value(bytes)))?)
}

// The blocks of a record's one output, which is the text.
fn one_block(alloc: Global, rec: RecordId, text: &str) -> Result<Vec<Shared<Block>>, Fail>
    ensures { IfOk result (λ blocks.
        map file_of blocks.items ≡ record { rec = rec; out = 0 } ∷ []) }
{
    let mut blocks = Vec::new(alloc);
    blocks.push(block_of(alloc, FileId { rec, out: 0 }, text)?)?;
    Ok(blocks)
}

// Ends the work, whose one file holds the text.
pub(crate) fn finish(
    alloc: Global,
    cluster: &mut Untold,
    work: Work<FalseTicket>,
    text: &str,
) -> Result<Finish, Fail>
    requires actor { work.actor.0 < 16 }
    requires makes { MakesOne cluster.old work.rec }
    ensures { OnOk result (HasSameCalls cluster.old cluster.new) }
{
    may_end(cluster, &work)?;
    let blocks = one_block(alloc, work.rec, text)?;
    let Ok(finish) = cluster.done(alloc, work, blocks) else {
        return Err(Fail::from("memory ran out"));
    };
    Ok(finish)
}

// Gives the work back.
pub(crate) fn back(cluster: &mut Untold, work: Work<FalseTicket>) -> Result<(), Fail>
    requires { work.actor.0 < 16 }
{
    may_end(cluster, &work)?;
    cluster.back(work);
    Ok(())
}

// Runs the job that is next, whose one file holds the text; answers its record.
pub(crate) fn run(
    alloc: Global,
    cluster: &mut Untold,
    actor: Actor,
    text: &str,
) -> Result<u32, Fail>
    requires { actor.0 < 16 }
{
    let work = take(alloc, cluster, actor, WorkerId(0))?;
    let made = work.rec.0;
    match finish(alloc, cluster, work, text)? {
        Finish::Installed => Ok(made),
        Finish::Void { .. } => Err(Fail::from("the worker was lost")),
    }
}

// The worker is lost.
pub(crate) fn lose(cluster: &mut Untold, actor: Actor, worker: WorkerId) -> Result<(), Fail>
    requires { actor.0 < 16 }
    ensures { OnOk result (HasSameCalls cluster.old cluster.new) }
{
    known(cluster, worker)?;
    Ok(cluster.lose(actor, worker)?)
}
