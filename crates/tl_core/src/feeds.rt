//! Taking up the job that is next.

ghost use Rattle.std.specs.Prelude.{◌≡◌, ◌||◌, true, Some, is_some, reverse, IfOk};
ghost use Rattle.tl_model.specs.Rules.{is_lawful};
ghost use Rattle.tl_model.specs.Past.{without_tickets};
ghost use Rattle.tl_core.specs.Puts.{kept_put};
ghost use Rattle.tl_core.specs.Residents.{found};
ghost use Rattle.tl_model.specs.Plan.{next};
ghost use Rattle.tl_core.specs.Taken.{AreFedBy, AreSupplied, IsFedBy, IsTaken, Supplies, TakesUp};

use crate::puts::{kept_put, saved_put};
use crate::resident::{Resident, find};
use crate::work::{Feed, Work};
use std::alloc::Global;
use tl_io::Ticket;
use tl_lang::JobSpecCore;
use tl_ledger::Ledger;
use tl_model::{Event, Record};
use tl_types::{Actor, FileId, NoMemory, RecordId, Shared, WorkerId};

/// A job that is taken up, with what stands for each of its inputs.
#[derive(Drop)]
pub struct Taken<T> {
    pub rec: RecordId,
    pub core: Shared<JobSpecCore>,
    pub inputs: Vec<Feed<T>>,
}

impl<T> Taken<T> {
    /// The work that this is for the actor on the worker, which was claimed at the place.
    pub(crate) fn into_work(
        self,
        actor: Actor,
        worker: WorkerId,
        incarnation: u64,
        place: u64,
    ) -> Work<T>
        ensures { result ≡ record {
          actor = actor;
          worker = worker;
          incarnation = incarnation;
          place = place;
          rec = self.rec;
          core = self.core;
          inputs = self.inputs;
        } }
    {
        let Taken { rec, core, inputs } = self;
        Work {
            actor,
            worker,
            incarnation,
            place,
            rec,
            core,
            inputs,
        }
    }
}

/// Takes up the job that is next, if one is. The ledger changes nothing that contracts see.
pub(crate) fn take_up<T: Ticket>(
    alloc: Global,
    ledger: &mut Ledger<T>,
    residents: &[Resident],
) -> Result<Option<Taken<T>>, NoMemory>
    requires lawful { is_lawful ledger.old.header ledger.old.events ≡ true }
    requires supplies { Supplies ledger.old.events residents.now }
    ensures taken { IfOk result (TakesUp T.content ledger.old.header ledger.old.events residents.now) }
    ensures same { ledger.new ≡ ledger.old }
{
    match ledger.next() {
        Some(made) => Ok(Some(take(alloc, ledger, residents, made)?)),
        None => Ok(None),
    }
}

// Takes up the job of this number, which is next.
fn take<T: Ticket>(
    alloc: Global,
    ledger: &Ledger<T>,
    residents: &[Resident],
    made: RecordId,
) -> Result<Taken<T>, NoMemory>
    requires lawful { is_lawful ledger.now.header ledger.now.events ≡ true }
    requires next { next ledger.now.header.order (without_tickets ledger.now.events) ≡ Some made }
    requires supplies { Supplies ledger.now.events residents.now }
    ensures rec { IfOk result (λ taken. taken.rec ≡ made) }
    ensures taken { IfOk result (IsTaken T.content ledger.now.events residents.now) }
{
    match ledger.record(made) {
        Some(Record::Job { core, inputs, .. }) => Ok(Taken {
            rec: made,
            core: core.try_clone()?,
            inputs: feeds(alloc, ledger.events(), residents, inputs.as_slice())?,
        }),
        Some(Record::Put { .. }) => unreachable!(),
        None => unreachable!(),
    }
}

// What stands for each of the files.
fn feeds<T: Ticket>(
    alloc: Global,
    events: &[Event<T>],
    residents: &[Resident],
    files: &[FileId],
) -> Result<Vec<Feed<T>>, NoMemory>
    requires { AreSupplied (reverse events.now) residents.now files.now }
    ensures { IfOk result (λ feeds. AreFedBy T.content (reverse events.now) residents.now files.now feeds.items) }
{
    let mut feeds = Vec::new(alloc);
    for file in files {
        feeds.push(feed(events, residents, *file)?)?;
    }
    Ok(feeds)
}

// What stands for the file.
fn feed<T: Ticket>(
    events: &[Event<T>],
    residents: &[Resident],
    file: FileId,
) -> Result<Feed<T>, NoMemory>
    requires { (is_some (found file residents.now) || is_some (kept_put (reverse events.now) file)) ≡ true }
    ensures { IfOk result (IsFedBy T.content (reverse events.now) residents.now file) }
{
    match find(residents, file) {
        Some(resident) => Ok(Feed::Have(resident.block.try_clone()?)),
        None => match kept_put(events, file) {
            Some(put) => Ok(Feed::Kept(file, saved_put(put)?)),
            None => unreachable!(),
        },
    }
}
