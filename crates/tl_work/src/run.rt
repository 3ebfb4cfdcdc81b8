//! Running the job that is next.

ghost use Rattle.std.specs.Prelude.{◌≡◌, ◌≤◌, ◌<◌, true, length, map, Some, None, Err, IfErr, IfOk};
ghost use Rattle.std.specs.Prelude.{OnErr, option_map};
ghost use Rattle.std.specs.List.{All, AllByRecursion};
ghost use Rattle.tl_io.specs.Counts.{Rises};
ghost use Rattle.tl_lang.specs.Kinds.{KindsHold};
ghost use Rattle.tl_model.specs.Actors.{open_claim, open_read, open_save};
ghost use Rattle.tl_model.specs.Past.{without_tickets};
ghost use Rattle.tl_model.specs.Rules.{is_lawful, may_claim};
ghost use Rattle.tl_desk.specs.Turns.{AreOutputs, AreValues};
ghost use Rattle.tl_pieces.specs.Faults.{IsDamage};
ghost use Rattle.tl_work.specs.declared.error.WorkError.TheVariants.{StoreFault};
ghost use Rattle.tl_work.specs.Loads.{IsDamageAmong, IsLoadableFeed, WhereDamaged};
ghost use Rattle.tl_work.specs.Made.{IsMade};
ghost use Rattle.tl_work.specs.Runs.{DoneAlone, EndsWork, GivesBackWork, IsTakenUp, LeavesFewer};
ghost use Rattle.tl_work.specs.Runs.{RunFails, RunsNext, end_of, is_input};
ghost use Rattle.tl_work.specs.Setting.{setting};

use crate::error::WorkError;
use crate::evaluate::{blocks_of, evaluate};
use crate::loading::outcomes_of;
use std::alloc::Global;
use tl_cluster::{Finish, Work};
use tl_desk::{Desk, Gate};
use tl_io::{Depot, Ticket};
use tl_types::{Block, Shared, WorkerId};

/// How a job ended that was run.
#[derive(Clone, Copy, Debug, PartialEq, Eq)]
pub enum Ran {
    /// Its outputs are in the worker's memory, or in another's.
    Installed,
    /// The worker was lost since the claim.
    Lost,
}

// The blocks that the job makes of its inputs, in order.
fn make<D: Depot>(
    alloc: Global,
    depot: &mut D,
    work: &Work<D::Ticket>,
) -> Result<Vec<Shared<Block>>, WorkError>
    requires fed { All IsLoadableFeed work.now.inputs.items }
    requires inputs { length work.now.inputs.items ≡ work.now.core.program.inputs }
    ensures made { IfOk result (λ blocks.
        IsMade D.Ticket.tells D.Ticket.content work.now blocks.items) }
    ensures kinds { KindsHold work.now.core.program.program work.now.core.program.inputs
        work.now.core.program.outputs }
    ensures damaged { IfErr result (WhereDamaged
        (IsDamageAmong D.Ticket.tells D.Ticket.content work.now.inputs.items)) }
    ensures fault { result ≡ Err StoreFault → Rises (D.faults depot.old) (D.faults depot.new) }
    ensures never_falls { D.faults depot.old ≤ D.faults depot.new }
{
    let _outputs = work.core.get().program.outputs();
    let inputs = outcomes_of(alloc, depot, &work.inputs)?;
    let outcomes = evaluate(alloc, &work.core, inputs)?;
    Ok(blocks_of(alloc, work.rec, outcomes)?)
}

// Gives the job back that was taken up.
fn give_back<T: Ticket, K: Desk<T>>(desk: &mut K, work: Work<T>)
    requires actor { (K.post (K.home desk.old)).actor.0 < 16 }
    requires worker { work.worker.0 < (K.post (K.home desk.old)).header.workers }
    requires taken { IsTakenUp
        (setting K.whole T.tells T.content (K.post (K.home desk.old)) work.worker)
        work (K.seen desk.old) }
    ensures back { GivesBackWork
        (setting K.whole T.tells T.content (K.post (K.home desk.old)) work.worker)
        work (K.seen desk.old) (K.seen desk.new) }
    ensures home { K.home desk.new ≡ K.home desk.old }
{
    desk.back(work);
}

// Ends the job that was taken up, with the blocks that it made.
fn finish<T: Ticket, K: Desk<T>>(
    alloc: Global,
    desk: &mut K,
    work: Work<T>,
    blocks: Vec<Shared<Block>>,
) -> Result<Ran, WorkError>
    requires actor { (K.post (K.home desk.old)).actor.0 < 16 }
    requires worker { work.worker.0 < (K.post (K.home desk.old)).header.workers }
    requires taken { IsTakenUp
        (setting K.whole T.tells T.content (K.post (K.home desk.old)) work.worker)
        work (K.seen desk.old) }
    requires outputs { AreOutputs (K.seen desk.old) work.rec blocks.items }
    requires values { AreValues T.tells T.content (K.seen desk.old) blocks.items }
    ensures ok { IfOk result (λ ran. EndsWork
        (setting K.whole T.tells T.content (K.post (K.home desk.old)) work.worker)
        work (end_of ran) (K.seen desk.old) (K.seen desk.new)) }
    ensures alone { K.whole ≡ true → IfOk result (DoneAlone
        (setting K.whole T.tells T.content (K.post (K.home desk.old)) work.worker)
        work (K.seen desk.old) (K.seen desk.new)) }
    ensures back { OnErr result (GivesBackWork
        (setting K.whole T.tells T.content (K.post (K.home desk.old)) work.worker)
        work (K.seen desk.old) (K.seen desk.new)) }
    ensures memory { IfErr result (λ e. e ≡ WorkError.NoMemory) }
    ensures home { K.home desk.new ≡ K.home desk.old }
{
    match desk.done(alloc, work, blocks) {
        Ok(Finish::Installed) => Ok(Ran::Installed),
        Ok(Finish::Void { .. }) => Ok(Ran::Lost),
        Err((work, _)) => {
            desk.back(work);
            Err(WorkError::NoMemory)
        }
    }
}

// Runs the job that was taken up, and ends it; or gives it back.
fn run_taken<D: Depot, K: Desk<D::Ticket>, G: Gate>(
    alloc: Global,
    desk: &mut K,
    depot: &mut D,
    gate: &G,
    work: Work<D::Ticket>,
) -> Result<Ran, WorkError>
    requires actor { (K.post (K.home desk.old)).actor.0 < 16 }
    requires worker { work.worker.0 < (K.post (K.home desk.old)).header.workers }
    requires taken { IsTakenUp (setting K.whole D.Ticket.tells D.Ticket.content
        (K.post (K.home desk.old)) work.worker) work (K.seen desk.old) }
    ensures ok { IfOk result (λ ran. EndsWork (setting K.whole D.Ticket.tells D.Ticket.content
        (K.post (K.home desk.old)) work.worker)
        work (end_of ran) (K.seen desk.old) (K.seen desk.new)) }
    ensures alone { K.whole ≡ true → IfOk result (DoneAlone (setting K.whole D.Ticket.tells
        D.Ticket.content (K.post (K.home desk.old)) work.worker)
        work (K.seen desk.old) (K.seen desk.new)) }
    ensures back { OnErr result (GivesBackWork (setting K.whole D.Ticket.tells D.Ticket.content
        (K.post (K.home desk.old)) work.worker)
        work (K.seen desk.old) (K.seen desk.new)) }
    ensures damaged { IfErr result (WhereDamaged (IsDamage (setting K.whole D.Ticket.tells
        D.Ticket.content (K.post (K.home desk.old)) work.worker)
        (is_input work.rec) (K.seen desk.new))) }
    ensures fault { result ≡ Err StoreFault → Rises (D.faults depot.old) (D.faults depot.new) }
    ensures never_falls { D.faults depot.old ≤ D.faults depot.new }
    ensures home { K.home desk.new ≡ K.home desk.old }
{
    desk.stands();
    gate.claimed(work.actor, work.rec);
    match make(alloc, depot, &work) {
        Ok(blocks) => finish(alloc, desk, work, blocks),
        Err(error) => {
            give_back(desk, work);
            Err(error)
        }
    }
}

/// Takes up the job that is next, runs it on the worker, and ends it; `None` exactly where none is
/// next. A job that can't be run to its end is given back. The errors have these causes:
/// `StoreFault` only where the depot's count of faults rose, `Damaged` only where a load gave
/// another length or digest than was saved.
pub fn run_next<D: Depot, K: Desk<D::Ticket>, G: Gate>(
    alloc: Global,
    desk: &mut K,
    depot: &mut D,
    worker: WorkerId,
    gate: &G,
) -> Result<Option<Ran>, WorkError>
    requires actor { (K.post (K.home desk.old)).actor.0 < 16 }
    requires worker { worker.0 < (K.post (K.home desk.old)).header.workers }
    requires idle { may_claim (without_tickets (K.seen desk.old))
        (K.post (K.home desk.old)).actor ≡ true }
    ensures ok { IfOk result (RunsNext (setting K.whole D.Ticket.tells D.Ticket.content
        (K.post (K.home desk.old)) worker) (K.seen desk.old) (K.seen desk.new)) }
    ensures alone { K.whole ≡ true → IfOk result
        (LeavesFewer (K.seen desk.old) (K.seen desk.new)) }
    ensures failed { IfErr result (RunFails (setting K.whole D.Ticket.tells D.Ticket.content
        (K.post (K.home desk.old)) worker) (K.seen desk.old) (K.seen desk.new)) }
    ensures closed { open_claim (without_tickets (K.seen desk.new))
        (K.post (K.home desk.old)).actor ≡ None }
    ensures reads { open_read (without_tickets (K.seen desk.new)) (K.post (K.home desk.old)).actor
        ≡ open_read (without_tickets (K.seen desk.old)) (K.post (K.home desk.old)).actor }
    ensures saves { open_save (without_tickets (K.seen desk.new)) (K.post (K.home desk.old)).actor
        ≡ open_save (without_tickets (K.seen desk.old)) (K.post (K.home desk.old)).actor }
    ensures fault { result ≡ Err StoreFault → Rises (D.faults depot.old) (D.faults depot.new) }
    ensures never_falls { D.faults depot.old ≤ D.faults depot.new }
    ensures home { K.home desk.new ≡ K.home desk.old }
{
    desk.stands();
    let Some(work) = desk.claim(alloc, worker)? else {
        return Ok(None);
    };
    let ran = run_taken(alloc, desk, depot, gate, work);
    desk.stands();
    Ok(Some(ran?))
}
