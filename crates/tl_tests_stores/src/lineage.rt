ghost use Rattle.std.specs.Prelude.{◌≡◌, IfOk};
ghost use Rattle.tl_model.specs.History.{id_of};

use std::test::Fail;
use tl_lang::{Checked, Conf, Expr, JobSpecCore, Program};
use tl_lineage::Graph;
use tl_model::Record;
use tl_types::{FileId, Items, Prio, RecordId, Shared};

// The only file of a record.
fn file(made: u32) -> FileId {
    FileId {
        rec: RecordId(made),
        out: 0,
    }
}

// What a job does that copies its first input.
#[tactic(auto, unfolding(tl_lang::specs::Computing::computing))]
fn copies(rt: &HostRuntime) -> Result<Shared<JobSpecCore>, Fail> {
    let alloc = rt.alloc();
    let mut outputs = Vec::new(alloc);
    outputs.push(Expr::Input(0))?;
    let program = Program {
        outputs: tl_lang::Items::from_vec(outputs),
    };
    let core = JobSpecCore {
        program: Checked::new(program, 1, 1),
        conf: Conf::new(Vec::new(alloc)).ok_or("refused")?,
        fuel: 3,
    };
    Ok(Shared::new(alloc, core)?)
}

// The record of a job with these inputs.
fn job(rt: &HostRuntime, made: u32, inputs: &[FileId]) -> Result<Record, Fail>
    ensures { IfOk result (λ job. (id_of job).0 ≡ made) }
{
    Ok(Record::Job {
        id: RecordId(made),
        core: copies(rt)?,
        prio: Prio::new(3).ok_or("a priority")?,
        inputs: Items::from_vec(inputs.to_vec(rt.alloc())?),
        outputs: 1,
    })
}

// The number of a record and whether it is a job.
fn seen(record: Option<&Record>) -> Option<(u32, bool)> {
    match record? {
        Record::Put { id } => Some((id.0, false)),
        Record::Job { id, .. } => Some((id.0, true)),
    }
}

#[test]
fn removed_records_still_count_as_readers(rt: HostRuntime) -> Result<(), Fail> {
    let mut graph = Graph::new(rt.alloc());
    let put = Record::Put { id: RecordId(0) };
    graph.room(&put)?;
    graph.add(put);
    let twice = job(&rt, 1, &[file(0), file(0)])?;
    graph.room(&twice)?;
    graph.add(twice);
    let both = job(&rt, 2, &[file(0), file(1)])?;
    graph.room(&both)?;
    graph.add(both);
    assert_eq!(rt; seen(graph.get(RecordId(0))), Some((0, false)));
    assert_eq!(rt; seen(graph.get(RecordId(1))), Some((1, true)));
    assert_eq!(rt; seen(graph.get(RecordId(3))), None);
    graph.remove(RecordId(0));
    graph.remove(RecordId(1));
    graph.remove(RecordId(3));
    assert_eq!(rt; seen(graph.get(RecordId(0))), None);
    assert_eq!(rt; seen(graph.get(RecordId(1))), None);
    assert_eq!(rt; seen(graph.get(RecordId(2))), Some((2, true)));
    for (made, readers) in [(0, 2), (1, 1), (2, 0)] {
        assert_eq!(rt; graph.readers_of(file(made)), readers);
    }
    Ok(())
}
