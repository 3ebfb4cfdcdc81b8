//! Serving an open read.

ghost use Rattle.std.specs.Prelude.{◌≡◌, ◌≤◌, ◌<◌, true, Err, IfErr, IfOk, OnErr, Some};
ghost use Rattle.tl_cluster.specs.Looks.{IsSavedOf};
ghost use Rattle.tl_io.specs.Counts.{Rises};
ghost use Rattle.tl_work.specs.declared.error.WorkError.TheVariants.{StoreFault};
ghost use Rattle.tl_work.specs.Runs.{NothingRuns};
ghost use Rattle.tl_work.specs.Setting.{setting};
ghost use Rattle.tl_clients.specs.Waits.{FindsNothing, GivesUpReading, IsWaiting, LookFails};
ghost use Rattle.tl_clients.specs.Waits.{LooksOnce, ServesAtLast, TriesOnce, TryFails, WaitFails};

use std::alloc::Global;
use tl_cluster::Look;
use tl_desk::{Desk, Gate};
use tl_io::Depot;
use tl_model::Saved;
use tl_types::{Block, FileId, Shared, WorkerId};
use tl_work::{WorkError, load_saved, run_next};

// Serves the open read on the file, of which this is saved.
fn serve_saved<D: Depot, K: Desk<D::Ticket>>(
    alloc: Global,
    desk: &mut K,
    depot: &mut D,
    worker: WorkerId,
    file: FileId,
    saved: &Saved<D::Ticket>,
) -> Result<Shared<Block>, WorkError>
    requires actor { (K.post (K.home desk.old)).actor.0 < 16 }
    requires worker { worker.0 < (K.post (K.home desk.old)).header.workers }
    requires waiting { IsWaiting (setting K.whole D.Ticket.tells D.Ticket.content
        (K.post (K.home desk.old)) worker) file (K.seen desk.old) }
    requires saved { IsSavedOf D.Ticket.tells D.Ticket.content (K.seen desk.old) file saved.now }
    ensures ok { IfOk result (λ block. LooksOnce (setting K.whole D.Ticket.tells
        D.Ticket.content (K.post (K.home desk.old)) worker)
        file (K.seen desk.old) (K.seen desk.new) (Some block)) }
    ensures failed { IfErr result (LookFails (setting K.whole D.Ticket.tells D.Ticket.content
        (K.post (K.home desk.old)) worker) file (K.seen desk.old) (K.seen desk.new)) }
    ensures fault { result ≡ Err StoreFault → Rises (D.faults depot.old) (D.faults depot.new) }
    ensures never_falls { D.faults depot.old ≤ D.faults depot.new }
    ensures home { K.home desk.new ≡ K.home desk.old }
{
    let outcome = load_saved(alloc, depot, saved)?;
    let block = Shared::new(alloc, Block::new(file, outcome))?;
    Ok(desk.loaded(worker, block)?)
}

/// Serves the open read on the file, if it is in a memory or saved.
pub(crate) fn look_once<D: Depot, K: Desk<D::Ticket>>(
    alloc: Global,
    desk: &mut K,
    depot: &mut D,
    worker: WorkerId,
    file: FileId,
) -> Result<Option<Shared<Block>>, WorkError>
    requires actor { (K.post (K.home desk.old)).actor.0 < 16 }
    requires worker { worker.0 < (K.post (K.home desk.old)).header.workers }
    requires waiting { IsWaiting (setting K.whole D.Ticket.tells D.Ticket.content
        (K.post (K.home desk.old)) worker) file (K.seen desk.old) }
    ensures ok { IfOk result (LooksOnce (setting K.whole D.Ticket.tells D.Ticket.content
        (K.post (K.home desk.old)) worker) file (K.seen desk.old) (K.seen desk.new)) }
    ensures alone { K.whole ≡ true → IfOk result
        (FindsNothing (K.seen desk.old) (K.seen desk.new)) }
    ensures failed { IfErr result (LookFails (setting K.whole D.Ticket.tells D.Ticket.content
        (K.post (K.home desk.old)) worker) file (K.seen desk.old) (K.seen desk.new)) }
    ensures fault { result ≡ Err StoreFault → Rises (D.faults depot.old) (D.faults depot.new) }
    ensures never_falls { D.faults depot.old ≤ D.faults depot.new }
    ensures home { K.home desk.new ≡ K.home desk.old }
{
    match desk.look()? {
        Look::Have(block) => Ok(Some(block)),
        Look::Saved(saved) => Ok(Some(serve_saved(alloc, desk, depot, worker, file, &saved)?)),
        Look::NotYet => Ok(None),
    }
}

// Serves the open read on the file. As long as it is neither in a memory nor saved, the job that is
// next is run on the worker.
fn serve<D: Depot, K: Desk<D::Ticket>, G: Gate>(
    alloc: Global,
    desk: &mut K,
    depot: &mut D,
    worker: WorkerId,
    file: FileId,
    gate: &G,
) -> Result<Shared<Block>, WorkError>
    requires actor { (K.post (K.home desk.old)).actor.0 < 16 }
    requires worker { worker.0 < (K.post (K.home desk.old)).header.workers }
    requires waiting { IsWaiting (setting K.whole D.Ticket.tells D.Ticket.content
        (K.post (K.home desk.old)) worker) file (K.seen desk.old) }
    requires alone { K.whole ≡ true → NothingRuns (K.seen desk.old) }
    ensures ok { IfOk result (ServesAtLast (setting K.whole D.Ticket.tells D.Ticket.content
        (K.post (K.home desk.old)) worker) file (K.seen desk.old) (K.seen desk.new)) }
    ensures failed { IfErr result (WaitFails (setting K.whole D.Ticket.tells D.Ticket.content
        (K.post (K.home desk.old)) worker) file (K.seen desk.old) (K.seen desk.new)) }
    ensures waiting { OnErr result (IsWaiting (setting K.whole D.Ticket.tells D.Ticket.content
        (K.post (K.home desk.old)) worker) file (K.seen desk.new)) }
    ensures alone { K.whole ≡ true → NothingRuns (K.seen desk.new) }
    ensures fault { result ≡ Err StoreFault → Rises (D.faults depot.old) (D.faults depot.new) }
    ensures never_falls { D.faults depot.old ≤ D.faults depot.new }
    ensures home { K.home desk.new ≡ K.home desk.old }
{
    desk.stands();
    let mut rounds = 0u64;
    'rounds: while rounds < u64::MAX {
        if let Some(block) = look_once(alloc, desk, depot, worker, file)? {
            return Ok(block);
        }
        desk.stands();
        let _ran = run_next(alloc, desk, depot, worker, gate)?;
        rounds += 1;
    }
    desk.rest();
    unreachable!()
}

/// Serves the open read on the file, after as many runs as it takes; or gives it up.
pub(crate) fn wait_for<D: Depot, K: Desk<D::Ticket>, G: Gate>(
    alloc: Global,
    desk: &mut K,
    depot: &mut D,
    worker: WorkerId,
    file: FileId,
    gate: &G,
) -> Result<Shared<Block>, WorkError>
    requires actor { (K.post (K.home desk.old)).actor.0 < 16 }
    requires worker { worker.0 < (K.post (K.home desk.old)).header.workers }
    requires waiting { IsWaiting (setting K.whole D.Ticket.tells D.Ticket.content
        (K.post (K.home desk.old)) worker) file (K.seen desk.old) }
    requires alone { K.whole ≡ true → NothingRuns (K.seen desk.old) }
    ensures ok { IfOk result (ServesAtLast (setting K.whole D.Ticket.tells D.Ticket.content
        (K.post (K.home desk.old)) worker) file (K.seen desk.old) (K.seen desk.new)) }
    ensures failed { IfErr result (GivesUpReading (setting K.whole D.Ticket.tells
        D.Ticket.content (K.post (K.home desk.old)) worker)
        file (K.seen desk.old) (K.seen desk.new)) }
    ensures alone { K.whole ≡ true → NothingRuns (K.seen desk.new) }
    ensures fault { result ≡ Err StoreFault → Rises (D.faults depot.old) (D.faults depot.new) }
    ensures never_falls { D.faults depot.old ≤ D.faults depot.new }
    ensures home { K.home desk.new ≡ K.home desk.old }
{
    match serve(alloc, desk, depot, worker, file, gate) {
        Ok(block) => Ok(block),
        Err(error) => {
            desk.shut();
            Err(error)
        }
    }
}

/// Serves the open read on the file, if it is in a memory or saved; or gives it up.
pub(crate) fn try_for<D: Depot, K: Desk<D::Ticket>>(
    alloc: Global,
    desk: &mut K,
    depot: &mut D,
    worker: WorkerId,
    file: FileId,
) -> Result<Option<Shared<Block>>, WorkError>
    requires actor { (K.post (K.home desk.old)).actor.0 < 16 }
    requires worker { worker.0 < (K.post (K.home desk.old)).header.workers }
    requires waiting { IsWaiting (setting K.whole D.Ticket.tells D.Ticket.content
        (K.post (K.home desk.old)) worker) file (K.seen desk.old) }
    requires alone { K.whole ≡ true → NothingRuns (K.seen desk.old) }
    ensures ok { IfOk result (TriesOnce (setting K.whole D.Ticket.tells D.Ticket.content
        (K.post (K.home desk.old)) worker) file (K.seen desk.old) (K.seen desk.new)) }
    ensures failed { IfErr result (TryFails (setting K.whole D.Ticket.tells D.Ticket.content
        (K.post (K.home desk.old)) worker) file (K.seen desk.old) (K.seen desk.new)) }
    ensures alone { K.whole ≡ true → NothingRuns (K.seen desk.new) }
    ensures fault { result ≡ Err StoreFault → Rises (D.faults depot.old) (D.faults depot.new) }
    ensures never_falls { D.faults depot.old ≤ D.faults depot.new }
    ensures home { K.home desk.new ≡ K.home desk.old }
{
    match look_once(alloc, desk, depot, worker, file) {
        Ok(Some(block)) => Ok(Some(block)),
        Ok(None) => {
            desk.stands();
            desk.shut();
            Ok(None)
        }
        Err(error) => {
            desk.shut();
            Err(error)
        }
    }
}
