//! Rounds, one after another, until the thread is told to stop.

ghost use Rattle.std.specs.Prelude.{◌≡◌, ◌≤◌, ◌<◌, ◌↔◌, true, false};
ghost use Rattle.tl_io.specs.Counts.{Rises};
ghost use Rattle.tl_model.specs.Actors.{is_idle};
ghost use Rattle.tl_model.specs.Past.{without_tickets};
ghost use Rattle.tl_work.specs.Setting.{setting};
ghost use Rattle.tl_crew.specs.declared.crew.CrewEnd.TheVariants.{StoreFault, Stopped};
ghost use Rattle.tl_crew.specs.Rounds.{MakesRounds, ended_by};

use crate::round::round;
use crate::stop::Stop;
use std::alloc::Global;
use tl_desk::{Desk, Gate};
use tl_io::Depot;
use tl_model::Damage;
use tl_types::WorkerId;
use tl_work::WorkError;

/// Why a crew thread ended.
#[derive(Clone, Copy, Debug, PartialEq, Eq)]
pub enum CrewEnd {
    /// It was told to stop.
    Stopped,
    /// The checkpoint store met a fault.
    StoreFault,
    /// The checkpoint store gave something else than was saved.
    Damaged(Damage),
    /// Memory ran out.
    NoMemory,
}

// What ends a thread whose round failed.
fn ended_by(error: WorkError) -> CrewEnd
    ensures { result ≡ ended_by error }
{
    match error {
        WorkError::StoreFault => CrewEnd::StoreFault,
        WorkError::Damaged(damage) => CrewEnd::Damaged(damage),
        WorkError::NoMemory => CrewEnd::NoMemory,
    }
}

// Makes a round for each no.
fn make_rounds<D: Depot, K: Desk<D::Ticket>, G: Gate, H: Stop>(
    alloc: Global,
    desk: &mut K,
    depot: &mut D,
    worker: WorkerId,
    gate: &G,
    stop: &mut H,
) -> CrewEnd
    requires actor { (K.post (K.home desk.old)).actor.0 < 16 }
    requires worker { worker.0 < (K.post (K.home desk.old)).header.workers }
    requires idle { is_idle (without_tickets (K.seen desk.old)) (K.post (K.home desk.old)).actor
        ≡ true }
    requires told { H.told stop.old ≡ false }
    ensures rounds { MakesRounds (setting K.whole D.Ticket.tells D.Ticket.content
        (K.post (K.home desk.old)) worker)
        (record { before = H.noes stop.old; now = H.noes stop.new })
        (K.seen desk.old) (K.seen desk.new) result }
    ensures stopped { (result ≡ Stopped) ↔ (H.told stop.new ≡ true) }
    ensures idle { is_idle (without_tickets (K.seen desk.new)) (K.post (K.home desk.old)).actor
        ≡ true }
    ensures fault { result ≡ StoreFault → Rises (D.faults depot.old) (D.faults depot.new) }
    ensures never_falls { D.faults depot.old ≤ D.faults depot.new }
    ensures home { K.home desk.new ≡ K.home desk.old }
{
    'rounds: loop {
        if stop.asked() {
            return CrewEnd::Stopped;
        }
        if let Err(error) = round(alloc, desk, depot, worker, gate) {
            return ended_by(error);
        }
    }
}

/// What a crew thread does: it asks `stop` before each round, and makes a round for each no. A
/// round runs the job that is next on the worker, saves the file that is saved next, and lets go
/// the least record that is kept and not needed, each where there is one. It ends where it is told
/// to stop, or at the first fault, with no claim and no save open: `StoreFault` only where the
/// depot's count of faults rose, `Damaged` only where a load gave another length or digest than was
/// saved. It hands the desk and the depot back.
pub fn serve<D: Depot, K: Desk<D::Ticket>, G: Gate, H: Stop>(
    alloc: Global,
    mut desk: K,
    mut depot: D,
    worker: WorkerId,
    gate: &G,
    stop: &mut H,
) -> (K, D, CrewEnd)
    requires crew { 8 ≤ (K.post (K.home desk)).actor.0 }
    requires actor { (K.post (K.home desk)).actor.0 < 16 }
    requires worker { worker.0 < (K.post (K.home desk)).header.workers }
    requires idle { is_idle (without_tickets (K.seen desk)) (K.post (K.home desk)).actor ≡ true }
    requires told { H.told stop.old ≡ false }
    ensures rounds { MakesRounds (setting K.whole D.Ticket.tells D.Ticket.content
        (K.post (K.home desk)) worker)
        (record { before = H.noes stop.old; now = H.noes stop.new })
        (K.seen desk) (K.seen result.0) result.2 }
    ensures stopped { (result.2 ≡ Stopped) ↔ (H.told stop.new ≡ true) }
    ensures idle { is_idle (without_tickets (K.seen result.0)) (K.post (K.home desk)).actor
        ≡ true }
    ensures fault { result.2 ≡ StoreFault → Rises (D.faults depot) (D.faults result.1) }
    ensures never_falls { D.faults depot ≤ D.faults result.1 }
    ensures home { K.home result.0 ≡ K.home desk }
{
    let end = make_rounds(alloc, &mut desk, &mut depot, worker, gate, stop);
    (desk, depot, end)
}
