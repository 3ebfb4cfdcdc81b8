use crate::jobs::{WORKER, by, file, job, submission};
use std::test::Fail;
use tl_model::{Act, Command, Form, Header, OrderRule, Reply, Version};
use tl_plan::Plan;
use tl_prio::Order;
use tl_types::{FileId, Path, Prio, RecordId};

// A plan and an order, kept in step with the same events.
#[derive(Drop)]
struct Kept {
    plan: Plan,
    order: Order,
}

// Nothing has happened yet.
fn empty(rt: &HostRuntime, order: OrderRule) -> Kept {
    let header = Header {
        workers: 1,
        capacity: 100,
        hot: 9,
        order,
        version: Version::One,
    };
    Kept {
        plan: Plan::new(rt.alloc(), header),
        order: Order::new(rt.alloc(), header),
    }
}

// A job with these inputs is accepted.
fn accept(rt: &HostRuntime, kept: &mut Kept, made: u32, inputs: &[FileId]) -> Result<(), Fail> {
    let job = job(rt, made, inputs)?;
    kept.plan.room(rt.alloc(), &job)?;
    kept.order.room(rt.alloc(), &job)?;
    drop(job);
    let event = submission(rt, made)?;
    kept.plan.note(&event, None);
    kept.order.note(&event, None);
    Ok(())
}

// Both take note of an act of actor 8.
fn note(kept: &mut Kept, act: Act<u8>) {
    let event = by(8, act);
    kept.plan.note(&event, None);
    kept.order.note(&event, None);
}

// The record that is next is claimed, and done.
fn claim(kept: &mut Kept) -> Option<RecordId> {
    let made = kept.order.next(&kept.plan)?;
    let prio = kept.order.prio(&kept.plan, made);
    kept.order.claimed(prio);
    note(kept, Act::Claim(WORKER, made));
    note(kept, Act::Done(WORKER, made));
    Some(made)
}

// An actor opens a read of this priority on the file of a record.
fn read(rt: &HostRuntime, kept: &mut Kept, actor: u8, made: u32, prio: u8) -> Result<(), Fail> {
    let command = Command::Read {
        path: Path::new(Vec::new(rt.alloc())).ok_or("a path")?,
        prio: Prio::new(prio).ok_or("a priority")?,
        form: Form::Cat,
    };
    let event = by(actor, Act::Call(command, Reply::Opened(file(made))));
    kept.plan.note(&event, None);
    kept.order.note(&event, None);
    Ok(())
}

// Three jobs: the last reads what the second makes.
fn three(rt: &HostRuntime) -> Result<Kept, Fail> {
    let mut kept = empty(rt, OrderRule::Strict);
    accept(rt, &mut kept, 0, &[])?;
    accept(rt, &mut kept, 1, &[])?;
    accept(rt, &mut kept, 2, &[file(1)])?;
    Ok(kept)
}

// Which record is next, and the priority of the second.
fn choice(kept: &mut Kept) -> (Option<RecordId>, u8) {
    let next = kept.order.next(&kept.plan);
    let prio = kept.order.prio(&kept.plan, RecordId(1));
    (next, prio.get())
}

// A read's priority goes to what its file waits for.
#[test]
fn what_is_waited_for_is_as_urgent(rt: HostRuntime) -> Result<(), Fail> {
    let mut kept = three(&rt)?;
    assert_eq!(rt; choice(&mut kept), (Some(RecordId(0)), 3));
    read(&rt, &mut kept, 1, 2, 7)?;
    assert_eq!(rt; choice(&mut kept), (Some(RecordId(1)), 7));
    assert_eq!(rt; claim(&mut kept), Some(RecordId(1)));
    assert_eq!(rt; choice(&mut kept), (Some(RecordId(2)), 0));
    Ok(())
}

// Under shares a job of low priority has its turn before the last of three of high priority.
#[test]
fn the_low_have_their_turn(rt: HostRuntime) -> Result<(), Fail> {
    let mut kept = empty(&rt, OrderRule::Shares);
    for made in 0..4 {
        accept(&rt, &mut kept, made, &[])?;
    }
    for actor in 1..4 {
        read(&rt, &mut kept, actor, u32::from(actor), 7)?;
    }
    for made in [1, 2, 0, 3] {
        assert_eq!(rt; claim(&mut kept), Some(RecordId(made)));
    }
    assert_eq!(rt; claim(&mut kept), None);
    Ok(())
}
