use crate::jobs::{WORKER, by, file, job, submission};
use std::test::Fail;
use tl_model::{Act, Command, Facts, Form, Header, OrderRule, Reply, Version};
use tl_plan::Plan;
use tl_types::{FileId, Path, Prio, RecordId};

// A job with these inputs is accepted.
fn accept(rt: &HostRuntime, plan: &mut Plan, made: u32, inputs: &[FileId]) -> Result<(), Fail> {
    let job = job(rt, made, inputs)?;
    plan.room(rt.alloc(), &job)?;
    drop(job);
    plan.note(&submission(rt, made)?, None);
    Ok(())
}

// Actor 1 opens a read on the file of a record.
fn read(rt: &HostRuntime, plan: &mut Plan, made: u32) -> Result<(), Fail> {
    let command = Command::Read {
        path: Path::new(Vec::new(rt.alloc())).ok_or("a path")?,
        prio: Prio::new(3).ok_or("a priority")?,
        form: Form::Cat,
    };
    plan.note(&by(1, Act::Call(command, Reply::Opened(file(made)))), None);
    Ok(())
}

// Actor 8 takes up a job.
fn claim(plan: &mut Plan, made: u32) {
    plan.note(&by(8, Act::Claim(WORKER, RecordId(made))), None);
}

// Actor 8 has done its job.
fn done(plan: &mut Plan, made: u32) {
    plan.note(&by(8, Act::Done(WORKER, RecordId(made))), None);
}

// The worker loses its memory.
fn lose(plan: &mut Plan) {
    plan.note(&by(0, Act::Lose(WORKER)), None);
}

// Actor 1 gives up its read.
fn shut(plan: &mut Plan, made: u32) {
    plan.note(&by(1, Act::Shut(file(made))), None);
}

// Whether a record is a task, can be run, and makes a file that is wanted.
fn facts(plan: &Plan, made: u32) -> (bool, bool, bool) {
    (
        plan.is_task(RecordId(made)),
        plan.is_ready(RecordId(made)),
        plan.is_wanted(file(made)),
    )
}

// A plan of two jobs, of which the second reads what the first makes.
fn chain(rt: &HostRuntime) -> Result<Plan, Fail> {
    let header = Header {
        workers: 1,
        capacity: 100,
        hot: 9,
        order: OrderRule::Strict,
        version: Version::One,
    };
    let mut plan = Plan::new(rt.alloc(), header);
    accept(rt, &mut plan, 0, &[])?;
    accept(rt, &mut plan, 1, &[file(0)])?;
    Ok(plan)
}

#[test]
fn a_job_is_a_task_until_it_is_done(rt: HostRuntime) -> Result<(), Fail> {
    let mut plan = chain(&rt)?;
    assert_eq!(rt; facts(&plan, 0), (true, true, true));
    assert_eq!(rt; facts(&plan, 1), (true, false, false));
    claim(&mut plan, 0);
    assert_eq!(rt; facts(&plan, 0), (true, false, true));
    done(&mut plan, 0);
    assert_eq!(rt; facts(&plan, 0), (false, false, true));
    assert_eq!(rt; facts(&plan, 1), (true, true, false));
    assert_eq!(rt; plan.place(file(0)), Some(WORKER));
    Ok(())
}

#[test]
fn what_a_read_wants_is_made_again(rt: HostRuntime) -> Result<(), Fail> {
    let mut plan = chain(&rt)?;
    claim(&mut plan, 0);
    done(&mut plan, 0);
    claim(&mut plan, 1);
    assert_eq!(rt; facts(&plan, 0), (false, false, false));
    done(&mut plan, 1);
    lose(&mut plan);
    assert!(rt; !plan.is_available(file(1)));
    assert_eq!(rt; facts(&plan, 1), (false, false, false));
    read(&rt, &mut plan, 1)?;
    assert_eq!(rt; facts(&plan, 0), (true, true, true));
    assert_eq!(rt; facts(&plan, 1), (true, false, true));
    shut(&mut plan, 1);
    assert_eq!(rt; facts(&plan, 0), (false, false, false));
    Ok(())
}
