use crate::jobs::{WORKER, by, file, job, submission};
use std::test::Fail;
use tl_gc::Gc;
use tl_model::{Act, Command, Header, OrderRule, Reply, Version};
use tl_plan::Plan;
use tl_types::{Digest, FileId, Path, RecordId};

const HEADER: Header = Header {
    workers: 1,
    capacity: 100,
    hot: 9,
    order: OrderRule::Strict,
    version: Version::One,
};

// A plan, and what may be let go, kept in step with the same events.
#[derive(Drop)]
struct Kept {
    plan: Plan,
    gc: Gc,
}

// A job with these inputs is accepted.
fn accept(rt: &HostRuntime, kept: &mut Kept, made: u32, inputs: &[FileId]) -> Result<(), Fail> {
    let job = job(rt, made, inputs)?;
    kept.plan.room(rt.alloc(), &job)?;
    kept.gc.room(rt.alloc(), &job)?;
    drop(job);
    let event = submission(rt, made)?;
    kept.plan.note(&event, None);
    kept.gc.note(&event, None);
    Ok(())
}

// Both take note of an act of actor 8.
fn note(kept: &mut Kept, act: Act<u8>) {
    let event = by(8, act);
    kept.plan.note(&event, None);
    kept.gc.note(&event, None);
}

// Two jobs that were done, of which the second reads what the first makes.
fn chain(rt: &HostRuntime) -> Result<Kept, Fail> {
    let mut kept = Kept {
        plan: Plan::new(rt.alloc(), HEADER),
        gc: Gc::new(rt.alloc(), HEADER),
    };
    accept(rt, &mut kept, 0, &[])?;
    accept(rt, &mut kept, 1, &[file(0)])?;
    for made in 0..2 {
        note(&mut kept, Act::Claim(WORKER, RecordId(made)));
        note(&mut kept, Act::Done(WORKER, RecordId(made)));
    }
    Ok(kept)
}

// The file of a record loses its name.
fn unname(rt: &HostRuntime, kept: &mut Kept, made: u32) -> Result<(), Fail> {
    let command = Command::Delete {
        path: Path::new(Vec::new(rt.alloc())).ok_or("a path")?,
    };
    let event = by(0, Act::Call(command, Reply::Fine));
    kept.plan.note(&event, Some(file(made)));
    kept.gc.note(&event, Some(file(made)));
    Ok(())
}

// Which record may be let go.
fn garbage(kept: &mut Kept) -> Option<RecordId> {
    kept.gc.garbage(&kept.plan)
}

// The record of a deleted file stays as long as a file that is made from it is unsaved.
#[test]
fn what_a_live_file_is_made_from_is_not_let_go(rt: HostRuntime) -> Result<(), Fail> {
    let mut kept = chain(&rt)?;
    assert_eq!(rt; garbage(&mut kept), None);
    unname(&rt, &mut kept, 0)?;
    assert_eq!(rt; garbage(&mut kept), None);
    note(&mut kept, Act::Saved(file(1), 1, Digest([0; 32])));
    assert_eq!(rt; garbage(&mut kept), Some(RecordId(0)));
    note(&mut kept, Act::Collect(RecordId(0)));
    assert_eq!(rt; garbage(&mut kept), Some(RecordId(1)));
    Ok(())
}
