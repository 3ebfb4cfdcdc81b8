//! What a client does so many times: runs, saves and collections.

ghost use Rattle.std.specs.Prelude.{◌≡◌, ◌≤◌, ◌<◌, true, [], IfErr, IfOk, OnErr};
ghost use Rattle.tl_io.specs.Counts.{Rises};
ghost use Rattle.tl_types.specs.declared.worker_id.WorkerId.{WorkerId};
ghost use Rattle.tl_model.specs.Actors.{is_idle};
ghost use Rattle.tl_model.specs.Past.{without_tickets};
ghost use Rattle.tl_pieces.specs.Own.{Adds};
ghost use Rattle.tl_pieces.specs.Counts.{IsCollected, IsSaving, IsWorked};
ghost use Rattle.tl_pieces.specs.Lines.{IsCollectLine, IsSaveLine, IsWorkLine};
ghost use Rattle.tl_work.specs.declared.error.WorkError.TheVariants.{StoreFault};
ghost use Rattle.tl_work.specs.Setting.{setting};
ghost use Rattle.tl_clients.specs.Counting.{SavingFails, WorkFails, unnumbered};

use crate::client::Client;
use std::alloc::Global;
use tl_desk::{Desk, Gate};
use tl_io::{Depot, Ticket};
use tl_model::{Answer, ClientError, Counted};
use tl_types::{NoMemory, WorkerId};
use tl_work::{Ran, WorkError, run_next, save_next};

impl<K: Desk<D::Ticket>, D: Depot> Client<K, D> {
    /// Runs the job that is next on the worker, one after another, until the outputs of `n` were
    /// brought or no job is next; answers the outputs of how many were. A job whose worker is lost
    /// meanwhile is not counted. The first fault ends it: that job is given back.
    pub fn work<G: Gate>(
        &mut self,
        alloc: Global,
        worker: WorkerId,
        n: u32,
        gate: &G,
    ) -> Result<Answer, ClientError>
        requires worker { worker.0 < (K.post (K.home self.old.desk)).header.workers }
        ensures line { IsWorkLine (setting K.whole D.Ticket.tells D.Ticket.content
            (K.post (K.home self.old.desk)) self.old.worker)
            (record { before = D.faults self.old.depot; now = D.faults self.new.depot })
            worker n (K.seen self.old.desk) (K.seen self.new.desk) result }
        ensures never_falls { D.faults self.old.depot ≤ D.faults self.new.depot }
        ensures home { K.home self.new.desk ≡ K.home self.old.desk }
        ensures worker { self.new.worker ≡ self.old.worker }
    {
        match run_up_to(alloc, &mut self.desk, &mut self.depot, worker, n, gate) {
            Ok(done) => Ok(Answer::Count(Counted::Work, done)),
            Err(error) => Err(unnumbered(error)),
        }
    }

    /// Saves the file that is saved next, one after another, until `n` were saved or none is to be
    /// saved; answers how many were. The first fault ends it: that save is given up.
    pub fn save(&mut self, alloc: Global, n: u32) -> Result<Answer, ClientError>
        ensures line { IsSaveLine (setting K.whole D.Ticket.tells D.Ticket.content
            (K.post (K.home self.old.desk)) self.old.worker)
            (record { before = D.faults self.old.depot; now = D.faults self.new.depot })
            n (K.seen self.old.desk) (K.seen self.new.desk) result }
        ensures never_falls { D.faults self.old.depot ≤ D.faults self.new.depot }
        ensures home { K.home self.new.desk ≡ K.home self.old.desk }
        ensures worker { self.new.worker ≡ self.old.worker }
    {
        match save_up_to(alloc, &mut self.desk, &mut self.depot, n) {
            Ok(done) => Ok(Answer::Count(Counted::Save, done)),
            Err(error) => Err(unnumbered(error)),
        }
    }

    /// Lets go the `n` least records that are kept and not needed, or all where there are fewer;
    /// answers how many.
    pub fn collect(&mut self, n: u32) -> Result<Answer, ClientError>
        ensures line { IsCollectLine (setting K.whole D.Ticket.tells D.Ticket.content
            (K.post (K.home self.old.desk)) self.old.worker)
            (record { before = D.faults self.old.depot; now = D.faults self.new.depot })
            n (K.seen self.old.desk) (K.seen self.new.desk) result }
        ensures never_falls { D.faults self.old.depot ≤ D.faults self.new.depot }
        ensures home { K.home self.new.desk ≡ K.home self.old.desk }
        ensures worker { self.new.worker ≡ self.old.worker }
    {
        match collect_up_to(&mut self.desk, n) {
            Ok(done) => Ok(Answer::Count(Counted::Collect, done)),
            Err(NoMemory) => Err(ClientError::NoMemory),
        }
    }
}

// The fault of a line that is no call.
fn unnumbered(error: WorkError) -> ClientError
    ensures { result ≡ unnumbered error }
{
    match error {
        WorkError::StoreFault => ClientError::StoreFault { at: None },
        WorkError::Damaged(damage) => ClientError::Damaged { at: None, damage },
        WorkError::NoMemory => ClientError::NoMemory,
    }
}

// Runs what is next on the worker until the outputs of that many were brought or none is next;
// answers the outputs of how many were. Where others use the cluster too, it goes on for as long as
// they take the worker from each of its runs.
fn run_up_to<D: Depot, K: Desk<D::Ticket>, G: Gate>(
    alloc: Global,
    desk: &mut K,
    depot: &mut D,
    worker: WorkerId,
    n: u32,
    gate: &G,
) -> Result<u32, WorkError>
    requires actor { (K.post (K.home desk.old)).actor.0 < 16 }
    requires worker { worker.0 < (K.post (K.home desk.old)).header.workers }
    requires idle { is_idle (without_tickets (K.seen desk.old)) (K.post (K.home desk.old)).actor
        ≡ true }
    ensures ok { (own : WorkerId) → IfOk result (λ k. IsWorked (setting K.whole D.Ticket.tells
        D.Ticket.content (K.post (K.home desk.old)) own)
        worker n k (K.seen desk.old) (K.seen desk.new)) }
    ensures failed { (own : WorkerId) → IfErr result (WorkFails (setting K.whole D.Ticket.tells
        D.Ticket.content (K.post (K.home desk.old)) own)
        worker n (K.seen desk.old) (K.seen desk.new)) }
    ensures idle { is_idle (without_tickets (K.seen desk.new)) (K.post (K.home desk.old)).actor
        ≡ true }
    ensures fault { IfErr result (λ error. error ≡ StoreFault →
        Rises (D.faults depot.old) (D.faults depot.new)) }
    ensures never_falls { D.faults depot.old ≤ D.faults depot.new }
    ensures home { K.home desk.new ≡ K.home desk.old }
{
    let mut done = 0;
    'runs: for _ in 0..u64::MAX {
        if done == n {
            return Ok(done);
        }
        let Some(ran) = run_next(alloc, desk, depot, worker, gate)? else {
            desk.stands();
            return Ok(done);
        };
        let Ran::Installed = ran else {
            continue;
        };
        done += 1;
    }
    desk.rest();
    unreachable!()
}

// Saves what is saved next until that many were saved or none is to be; answers how many were.
fn save_up_to<D: Depot, K: Desk<D::Ticket>>(
    alloc: Global,
    desk: &mut K,
    depot: &mut D,
    n: u32,
) -> Result<u32, WorkError>
    requires actor { (K.post (K.home desk.old)).actor.0 < 16 }
    requires idle { is_idle (without_tickets (K.seen desk.old)) (K.post (K.home desk.old)).actor
        ≡ true }
    ensures ok { (own : WorkerId) → IfOk result (λ k. IsSaving (setting K.whole D.Ticket.tells
        D.Ticket.content (K.post (K.home desk.old)) own)
        n k (K.seen desk.old) (K.seen desk.new)) }
    ensures failed { (own : WorkerId) → IfErr result (SavingFails (setting K.whole D.Ticket.tells
        D.Ticket.content (K.post (K.home desk.old)) own)
        n (K.seen desk.old) (K.seen desk.new)) }
    ensures idle { is_idle (without_tickets (K.seen desk.new)) (K.post (K.home desk.old)).actor
        ≡ true }
    ensures fault { IfErr result (λ error. error ≡ StoreFault →
        Rises (D.faults depot.old) (D.faults depot.new)) }
    ensures never_falls { D.faults depot.old ≤ D.faults depot.new }
    ensures home { K.home desk.new ≡ K.home desk.old }
{
    let mut done = 0;
    'saves: while done < n {
        if !save_next(alloc, desk, depot)? {
            desk.stands();
            return Ok(done);
        }
        done += 1;
    }
    Ok(done)
}

// Lets go that many records, or all that are kept and not needed; answers how many.
fn collect_up_to<T: Ticket, K: Desk<T>>(desk: &mut K, n: u32) -> Result<u32, NoMemory>
    requires actor { (K.post (K.home desk.old)).actor.0 < 16 }
    requires idle { is_idle (without_tickets (K.seen desk.old)) (K.post (K.home desk.old)).actor
        ≡ true }
    ensures ok { (own : WorkerId) → IfOk result (λ k. IsCollected (setting K.whole T.tells
        T.content (K.post (K.home desk.old)) own) n k (K.seen desk.old) (K.seen desk.new)) }
    ensures err { (own : WorkerId) → OnErr result (Adds (setting K.whole T.tells
        T.content (K.post (K.home desk.old)) own) [] (K.seen desk.old) (K.seen desk.new)) }
    ensures idle { is_idle (without_tickets (K.seen desk.new)) (K.post (K.home desk.old)).actor
        ≡ true }
    ensures home { K.home desk.new ≡ K.home desk.old }
{
    let done = desk.collect(n)?;
    desk.stands();
    Ok(done)
}
