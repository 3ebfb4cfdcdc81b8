use std::test::Fail;
use tl_lang::{Checked, Conf, Expr, JobSpecCore, Program};
use tl_model::{Act, Command, Event, Record, Reply};
use tl_types::{Actor, FileId, Items, Prio, RecordId, Shared, WorkerId};

// The only worker.
pub(crate) const WORKER: WorkerId = WorkerId(0);

// The only file of a record.
pub(crate) fn file(made: u32) -> FileId {
    FileId {
        rec: RecordId(made),
        out: 0,
    }
}

// What a job does that copies its first input.
#[tactic(auto, unfolding(tl_lang::specs::Computing::computing))]
fn copies(rt: &HostRuntime) -> Result<Shared<JobSpecCore>, Fail> {
    let alloc = rt.alloc();
    let mut outputs = Vec::new(alloc);
    outputs.push(Expr::Input(0))?;
    let program = Program {
        outputs: tl_lang::Items::from_vec(outputs),
    };
    let core = JobSpecCore {
        program: Checked::new(program, 1, 1),
        conf: Conf::new(Vec::new(alloc)).ok_or("refused")?,
        fuel: 3,
    };
    Ok(Shared::new(alloc, core)?)
}

// The record of a job with these inputs and one output.
pub(crate) fn job(rt: &HostRuntime, made: u32, inputs: &[FileId]) -> Result<Record, Fail> {
    Ok(Record::Job {
        id: RecordId(made),
        core: copies(rt)?,
        prio: Prio::new(3).ok_or("a priority")?,
        inputs: Items::from_vec(inputs.to_vec(rt.alloc())?),
        outputs: 1,
    })
}

// The call by which a job is accepted.
pub(crate) fn submission(rt: &HostRuntime, made: u32) -> Result<Event<u8>, Fail> {
    let alloc = rt.alloc();
    let command = Command::Job {
        core: copies(rt)?,
        prio: Prio::new(3).ok_or("a priority")?,
        inputs: Items::from_vec(Vec::new(alloc)),
        outputs: Items::from_vec(Vec::new(alloc)),
    };
    Ok(by(0, Act::Call(command, Reply::Made(RecordId(made)))))
}

// What an actor does.
pub(crate) fn by(actor: u8, act: Act<u8>) -> Event<u8> {
    Event {
        actor: Actor(actor),
        act,
    }
}
