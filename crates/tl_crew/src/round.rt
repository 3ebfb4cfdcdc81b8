//! One round: a job, a save and a step of the collector.

ghost use Rattle.std.specs.Prelude.{◌≡◌, ◌≤◌, ◌<◌, true, [], Err, IfErr, OnErr, OnOk, Option};
ghost use Rattle.tl_io.specs.Counts.{Rises};
ghost use Rattle.tl_types.specs.declared.record_id.RecordId.{RecordId};
ghost use Rattle.tl_types.specs.declared.worker_id.WorkerId.{WorkerId};
ghost use Rattle.tl_model.specs.Actors.{is_idle};
ghost use Rattle.tl_model.specs.Past.{without_tickets};
ghost use Rattle.tl_pieces.specs.Counts.{SaveOf};
ghost use Rattle.tl_pieces.specs.Own.{Adds};
ghost use Rattle.tl_pieces.specs.Runs.{Run};
ghost use Rattle.tl_work.specs.declared.error.WorkError.TheVariants.{StoreFault};
ghost use Rattle.tl_work.specs.Saves.{SaveFails};
ghost use Rattle.tl_work.specs.Setting.{setting};
ghost use Rattle.tl_crew.specs.Rounds.{CollectsOne, Cuts, IsRound, Round, RunsOne, SavesOne};

use std::alloc::Global;
use tl_desk::{Desk, Gate};
use tl_io::{Depot, Ticket};
use tl_types::{NoMemory, WorkerId};
use tl_work::{WorkError, run_next, save_next};

// Runs the job that is next on the worker, if one is.
fn run_one<D: Depot, K: Desk<D::Ticket>, G: Gate>(
    alloc: Global,
    desk: &mut K,
    depot: &mut D,
    worker: WorkerId,
    gate: &G,
) -> Result<(), WorkError>
    requires actor { (K.post (K.home desk.old)).actor.0 < 16 }
    requires worker { worker.0 < (K.post (K.home desk.old)).header.workers }
    requires idle { is_idle (without_tickets (K.seen desk.old)) (K.post (K.home desk.old)).actor
        ≡ true }
    ensures ok { OnOk result ((run : Option Run) × RunsOne (setting K.whole D.Ticket.tells
        D.Ticket.content (K.post (K.home desk.old)) worker)
        run (K.seen desk.old) (K.seen desk.new)) }
    ensures failed { IfErr result (Cuts (setting K.whole D.Ticket.tells D.Ticket.content
        (K.post (K.home desk.old)) worker) (K.seen desk.old) (K.seen desk.new)) }
    ensures idle { is_idle (without_tickets (K.seen desk.new)) (K.post (K.home desk.old)).actor
        ≡ true }
    ensures fault { result ≡ Err StoreFault → Rises (D.faults depot.old) (D.faults depot.new) }
    ensures never_falls { D.faults depot.old ≤ D.faults depot.new }
    ensures home { K.home desk.new ≡ K.home desk.old }
{
    let _ran = run_next(alloc, desk, depot, worker, gate)?;
    desk.stands();
    Ok(())
}

// Saves the file that is saved next, if one is.
fn save_one<D: Depot, K: Desk<D::Ticket>>(
    alloc: Global,
    desk: &mut K,
    depot: &mut D,
) -> Result<(), WorkError>
    requires actor { (K.post (K.home desk.old)).actor.0 < 16 }
    requires idle { is_idle (without_tickets (K.seen desk.old)) (K.post (K.home desk.old)).actor
        ≡ true }
    ensures ok { (worker : WorkerId) → OnOk result ((save : Option SaveOf) × SavesOne (setting
        K.whole D.Ticket.tells D.Ticket.content (K.post (K.home desk.old)) worker)
        save (K.seen desk.old) (K.seen desk.new)) }
    ensures failed { (worker : WorkerId) → IfErr result (SaveFails (setting K.whole
        D.Ticket.tells D.Ticket.content (K.post (K.home desk.old)) worker)
        (K.seen desk.old) (K.seen desk.new)) }
    ensures idle { is_idle (without_tickets (K.seen desk.new)) (K.post (K.home desk.old)).actor
        ≡ true }
    ensures fault { result ≡ Err StoreFault → Rises (D.faults depot.old) (D.faults depot.new) }
    ensures never_falls { D.faults depot.old ≤ D.faults depot.new }
    ensures home { K.home desk.new ≡ K.home desk.old }
{
    let _saved = save_next(alloc, desk, depot)?;
    desk.stands();
    Ok(())
}

// Lets go the least record that is kept and not needed, if there is one.
fn collect_one<T: Ticket, K: Desk<T>>(desk: &mut K) -> Result<(), NoMemory>
    requires actor { (K.post (K.home desk.old)).actor.0 < 16 }
    requires idle { is_idle (without_tickets (K.seen desk.old)) (K.post (K.home desk.old)).actor
        ≡ true }
    ensures ok { (worker : WorkerId) → OnOk result ((gone : Option RecordId) × CollectsOne (setting
        K.whole T.tells T.content (K.post (K.home desk.old)) worker)
        gone (K.seen desk.old) (K.seen desk.new)) }
    ensures err { (worker : WorkerId) → OnErr result (Adds (setting K.whole T.tells
        T.content (K.post (K.home desk.old)) worker) [] (K.seen desk.old) (K.seen desk.new)) }
    ensures idle { is_idle (without_tickets (K.seen desk.new)) (K.post (K.home desk.old)).actor
        ≡ true }
    ensures home { K.home desk.new ≡ K.home desk.old }
{
    let _gone = desk.collect(1)?;
    desk.stands();
    Ok(())
}

/// Runs a job, saves a file and lets a record go, each where there is one. The first fault cuts the
/// round short: its job or save is given up.
pub(crate) fn round<D: Depot, K: Desk<D::Ticket>, G: Gate>(
    alloc: Global,
    desk: &mut K,
    depot: &mut D,
    worker: WorkerId,
    gate: &G,
) -> Result<(), WorkError>
    requires actor { (K.post (K.home desk.old)).actor.0 < 16 }
    requires worker { worker.0 < (K.post (K.home desk.old)).header.workers }
    requires idle { is_idle (without_tickets (K.seen desk.old)) (K.post (K.home desk.old)).actor
        ≡ true }
    ensures ok { OnOk result ((round : Round) × IsRound (setting K.whole D.Ticket.tells
        D.Ticket.content (K.post (K.home desk.old)) worker)
        round (K.seen desk.old) (K.seen desk.new)) }
    ensures failed { IfErr result (Cuts (setting K.whole D.Ticket.tells D.Ticket.content
        (K.post (K.home desk.old)) worker) (K.seen desk.old) (K.seen desk.new)) }
    ensures idle { is_idle (without_tickets (K.seen desk.new)) (K.post (K.home desk.old)).actor
        ≡ true }
    ensures fault { result ≡ Err StoreFault → Rises (D.faults depot.old) (D.faults depot.new) }
    ensures never_falls { D.faults depot.old ≤ D.faults depot.new }
    ensures home { K.home desk.new ≡ K.home desk.old }
{
    run_one(alloc, desk, depot, worker, gate)?;
    save_one(alloc, desk, depot)?;
    collect_one(desk)?;
    Ok(())
}
