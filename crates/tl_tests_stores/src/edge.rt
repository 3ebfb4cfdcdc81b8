use crate::jobs::{WORKER, by, file, job, submission};
use std::test::Fail;
use tl_edge::Edge;
use tl_model::{Act, Command, Header, OrderRule, Reply, Version};
use tl_types::{Digest, FileId, Path, RecordId};

// A job with these inputs is accepted.
fn accept(rt: &HostRuntime, edge: &mut Edge, made: u32, inputs: &[FileId]) -> Result<(), Fail> {
    let job = job(rt, made, inputs)?;
    edge.room(rt.alloc(), &job)?;
    drop(job);
    edge.note(&submission(rt, made)?, None);
    Ok(())
}

// Actor 8 takes up a job and ends it.
fn run(edge: &mut Edge, made: u32) {
    edge.note(&by(8, Act::Claim(WORKER, RecordId(made))), None);
    edge.note(&by(8, Act::Done(WORKER, RecordId(made))), None);
}

// Actor 0 saves the file of a record.
fn save(edge: &mut Edge, made: u32) {
    edge.note(&by(0, Act::Saved(file(made), 1, Digest([0; 32]))), None);
}

// The file of a record loses its name.
fn unname(rt: &HostRuntime, edge: &mut Edge, made: u32) -> Result<(), Fail> {
    let command = Command::Delete {
        path: Path::new(Vec::new(rt.alloc())).ok_or("a path")?,
    };
    edge.note(&by(0, Act::Call(command, Reply::Fine)), Some(file(made)));
    Ok(())
}

// Two jobs that were done, of which the second reads what the first makes; one read makes a file hot.
fn chain(rt: &HostRuntime) -> Result<Edge, Fail> {
    let header = Header {
        workers: 1,
        capacity: 100,
        hot: 1,
        order: OrderRule::Strict,
        version: Version::One,
    };
    let mut edge = Edge::new(rt.alloc(), header);
    accept(rt, &mut edge, 0, &[])?;
    accept(rt, &mut edge, 1, &[file(0)])?;
    run(&mut edge, 0);
    run(&mut edge, 1);
    Ok(edge)
}

#[test]
fn leaves_are_saved_before_hot_files(rt: HostRuntime) -> Result<(), Fail> {
    let mut edge = chain(&rt)?;
    assert_eq!(rt; edge.pick(), Some(file(1)));
    edge.note(&by(0, Act::Save(file(1))), None);
    assert_eq!(rt; edge.pick(), Some(file(0)));
    save(&mut edge, 1);
    assert_eq!(rt; edge.pick(), Some(file(0)));
    unname(&rt, &mut edge, 0)?;
    assert_eq!(rt; edge.pick(), None);
    Ok(())
}

#[test]
fn what_is_in_no_memory_is_not_saved(rt: HostRuntime) -> Result<(), Fail> {
    let mut edge = chain(&rt)?;
    edge.note(&by(0, Act::Lose(WORKER)), None);
    assert_eq!(rt; edge.pick(), None);
    run(&mut edge, 0);
    assert_eq!(rt; edge.pick(), Some(file(0)));
    Ok(())
}
