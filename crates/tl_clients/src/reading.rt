//! Reads: one runs what is next until its file is there, and one looks once.

ghost use Rattle.std.specs.Prelude.{◌≡◌, ◌≤◌};
ghost use Rattle.tl_model.specs.declared.command.Command.TheVariants.{Read as read_command};
ghost use Rattle.tl_model.specs.declared.command.Form.TheVariants.{Try as try_form};
ghost use Rattle.tl_pieces.specs.Lines.{IsReadLine, IsTryLine};
ghost use Rattle.tl_work.specs.Setting.{setting};
ghost use Rattle.tl_clients.specs.Lines.{error_at, read_answer, try_answer};
ghost use Rattle.tl_clients.specs.Ready.{IsReady};

use crate::client::Client;
use crate::waiting::{try_for, wait_for};
use std::alloc::Global;
use tl_desk::{Desk, Gate};
use tl_io::Depot;
use tl_model::{Answer, ClientError, Command, Form, Reply};
use tl_types::{Block, FileId, Path, Prio, Shared, WorkerId};
use tl_work::WorkError;

// Why the line of the call of this number was not answered.
fn error_at(at: u64, error: WorkError) -> ClientError
    ensures { result ≡ error_at at error }
{
    match error {
        WorkError::StoreFault => ClientError::StoreFault { at: Some(at) },
        WorkError::Damaged(damage) => ClientError::Damaged {
            at: Some(at),
            damage,
        },
        WorkError::NoMemory => ClientError::NoMemory,
    }
}

// The answer of a read that waited.
fn read_answer(at: u64, served: Result<Shared<Block>, WorkError>) -> Result<Answer, ClientError>
    ensures { result ≡ read_answer at served }
{
    match served {
        Ok(block) => Ok(Answer::Read { at, block }),
        Err(error) => Err(error_at(at, error)),
    }
}

// The answer of a read that looked once.
fn try_answer(
    at: u64,
    file: FileId,
    tried: Result<Option<Shared<Block>>, WorkError>,
) -> Result<Answer, ClientError>
    ensures { result ≡ try_answer at file tried }
{
    match tried {
        Ok(Some(block)) => Ok(Answer::Read { at, block }),
        Ok(None) => Ok(Answer::NotYet { at, file }),
        Err(error) => Err(error_at(at, error)),
    }
}

/// Reads a file. As long as it is neither in a memory nor saved, the job that is next is run on the
/// worker. Where the read can't be served it is given up.
pub(crate) fn read_line<D: Depot, K: Desk<D::Ticket>, G: Gate>(
    alloc: Global,
    desk: &mut K,
    depot: &mut D,
    worker: WorkerId,
    path: &Path,
    prio: Prio,
    form: Form,
    gate: &G,
) -> Result<Answer, ClientError>
    requires { IsReady K.whole (K.post (K.home desk.old)) worker (K.seen desk.old) }
    ensures line { IsReadLine (setting K.whole D.Ticket.tells D.Ticket.content
        (K.post (K.home desk.old)) worker)
        (record { before = D.faults depot.old; now = D.faults depot.new })
        (read_command path.now prio form) (K.seen desk.old) (K.seen desk.new) result }
    ensures ready { IsReady K.whole (K.post (K.home desk.new)) worker (K.seen desk.new) }
    ensures never_falls { D.faults depot.old ≤ D.faults depot.new }
    ensures home { K.home desk.new ≡ K.home desk.old }
{
    let Ok(path) = path.clone() else {
        return Err(ClientError::NoMemory);
    };
    let Ok((at, reply)) = desk.call(alloc, Command::Read { path, prio, form }) else {
        return Err(ClientError::NoMemory);
    };
    match reply {
        Reply::Opened(file) => { read_answer(at, wait_for(alloc, desk, depot, worker, file, gate)) }
        reply => Ok(Answer::Said { at, reply }),
    }
}

/// Reads a file where it can be had at once: it is looked for one time. Where it is neither in a
/// memory nor saved, or can't be served, the read is given up.
pub(crate) fn try_line<D: Depot, K: Desk<D::Ticket>>(
    alloc: Global,
    desk: &mut K,
    depot: &mut D,
    worker: WorkerId,
    path: &Path,
    prio: Prio,
) -> Result<Answer, ClientError>
    requires { IsReady K.whole (K.post (K.home desk.old)) worker (K.seen desk.old) }
    ensures line { IsTryLine (setting K.whole D.Ticket.tells D.Ticket.content
        (K.post (K.home desk.old)) worker)
        (record { before = D.faults depot.old; now = D.faults depot.new })
        (read_command path.now prio try_form) (K.seen desk.old) (K.seen desk.new) result }
    ensures ready { IsReady K.whole (K.post (K.home desk.new)) worker (K.seen desk.new) }
    ensures never_falls { D.faults depot.old ≤ D.faults depot.new }
    ensures home { K.home desk.new ≡ K.home desk.old }
{
    let Ok(path) = path.clone() else {
        return Err(ClientError::NoMemory);
    };
    let form = Form::Try;
    let Ok((at, reply)) = desk.call(alloc, Command::Read { path, prio, form }) else {
        return Err(ClientError::NoMemory);
    };
    match reply {
        Reply::Opened(file) => { try_answer(at, file, try_for(alloc, desk, depot, worker, file)) }
        reply => Ok(Answer::Said { at, reply }),
    }
}

impl<K: Desk<D::Ticket>, D: Depot> Client<K, D> {
    /// Reads a file. As long as it is neither in a memory nor saved, the job that is next is run on
    /// the client's worker; over a desk that shares its cluster it may wait for others' jobs. The
    /// errors: `StoreFault` only where the depot's count of faults rose, `Damaged` only where a load
    /// of the file, or of an input of the last job, gave another length or digest than was saved.
    /// The read is then given up.
    pub fn read<G: Gate>(
        &mut self,
        alloc: Global,
        path: &Path,
        prio: Prio,
        form: Form,
        gate: &G,
    ) -> Result<Answer, ClientError>
        ensures line { IsReadLine (setting K.whole D.Ticket.tells D.Ticket.content
            (K.post (K.home self.old.desk)) self.old.worker)
            (record { before = D.faults self.old.depot; now = D.faults self.new.depot })
            (read_command path.now prio form) (K.seen self.old.desk) (K.seen self.new.desk)
            result }
        ensures never_falls { D.faults self.old.depot ≤ D.faults self.new.depot }
        ensures home { K.home self.new.desk ≡ K.home self.old.desk }
        ensures worker { self.new.worker ≡ self.old.worker }
    {
        let worker = self.worker;
        let (desk, depot) = (&mut self.desk, &mut self.depot);
        read_line(alloc, desk, depot, worker, path, prio, form, gate)
    }

    /// Reads a file where it can be had at once: it is looked for one time. `NotYet` where it is
    /// neither in a memory nor saved. Its errors are those of `read`, but that no job is run.
    pub fn try_read(
        &mut self,
        alloc: Global,
        path: &Path,
        prio: Prio,
    ) -> Result<Answer, ClientError>
        ensures line { IsTryLine (setting K.whole D.Ticket.tells D.Ticket.content
            (K.post (K.home self.old.desk)) self.old.worker)
            (record { before = D.faults self.old.depot; now = D.faults self.new.depot })
            (read_command path.now prio try_form) (K.seen self.old.desk) (K.seen self.new.desk)
            result }
        ensures never_falls { D.faults self.old.depot ≤ D.faults self.new.depot }
        ensures home { K.home self.new.desk ≡ K.home self.old.desk }
        ensures worker { self.new.worker ≡ self.old.worker }
    {
        let worker = self.worker;
        let (desk, depot) = (&mut self.desk, &mut self.depot);
        try_line(alloc, desk, depot, worker, path, prio)
    }
}
