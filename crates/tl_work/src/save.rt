//! Saving the file that is saved next.

ghost use Rattle.std.specs.Prelude.{◌≡◌, ◌≤◌, ◌<◌, true, Err, IfErr, IfOk};
ghost use Rattle.tl_io.specs.Counts.{Rises};
ghost use Rattle.tl_types.specs.declared.worker_id.WorkerId.{WorkerId};
ghost use Rattle.tl_model.specs.Actors.{is_idle};
ghost use Rattle.tl_model.specs.Past.{without_tickets};
ghost use Rattle.tl_cluster.specs.Kept.{IsSavedFor};
ghost use Rattle.tl_cluster.specs.Saves.{saved_block};
ghost use Rattle.tl_work.specs.declared.error.WorkError.TheVariants.{StoreFault};
ghost use Rattle.tl_work.specs.Saves.{SaveFails, SavesNext, is_undamaged};
ghost use Rattle.tl_work.specs.Setting.{setting};

use crate::error::WorkError;
use std::alloc::Global;
use tl_desk::Desk;
use tl_io::Depot;
use tl_model::Saved;
use tl_types::{Block, Outcome};

// Keeps a block in the checkpoint store; a fault is kept without it.
fn keep<D: Depot>(
    alloc: Global,
    depot: &mut D,
    block: &Block,
) -> Result<Saved<D::Ticket>, WorkError>
    ensures kept { IfOk result (IsSavedFor D.Ticket.tells D.Ticket.content
        (saved_block block.now) block.now.outcome) }
    ensures undamaged { IfErr result is_undamaged }
    ensures fault { result ≡ Err StoreFault → Rises (D.faults depot.old) (D.faults depot.new) }
    ensures never_falls { D.faults depot.old ≤ D.faults depot.new }
{
    match block.outcome() {
        Outcome::Value(bytes) => Ok(Saved::Held {
            ticket: depot.save(alloc, bytes.as_slice())?,
            len: bytes.len() as u64,
            digest: block.digest(),
        }),
        Outcome::Fault(code) => Ok(Saved::Failed(*code)),
    }
}

/// Saves the file that is saved next; answers whether there was one. A save that can't be ended is
/// given up. `StoreFault` comes only where the depot's count of faults rose.
pub fn save_next<D: Depot, K: Desk<D::Ticket>>(
    alloc: Global,
    desk: &mut K,
    depot: &mut D,
) -> Result<bool, WorkError>
    requires actor { (K.post (K.home desk.old)).actor.0 < 16 }
    requires idle { is_idle (without_tickets (K.seen desk.old)) (K.post (K.home desk.old)).actor
        ≡ true }
    ensures ok { (worker : WorkerId) → IfOk result (SavesNext (setting K.whole D.Ticket.tells
        D.Ticket.content (K.post (K.home desk.old)) worker) (K.seen desk.old) (K.seen desk.new)) }
    ensures failed { (worker : WorkerId) → IfErr result (SaveFails (setting K.whole
        D.Ticket.tells D.Ticket.content (K.post (K.home desk.old)) worker)
        (K.seen desk.old) (K.seen desk.new)) }
    ensures idle { is_idle (without_tickets (K.seen desk.new)) (K.post (K.home desk.old)).actor
        ≡ true }
    ensures fault { result ≡ Err StoreFault → Rises (D.faults depot.old) (D.faults depot.new) }
    ensures never_falls { D.faults depot.old ≤ D.faults depot.new }
    ensures home { K.home desk.new ≡ K.home desk.old }
{
    let Some(job) = desk.save_begin()? else {
        return Ok(false);
    };
    match keep(alloc, depot, job.block.get()) {
        Ok(saved) => {
            desk.saved(job, saved);
            Ok(true)
        }
        Err(error) => {
            desk.unsave(job);
            Err(error)
        }
    }
}
