//! Claims, dones and losses, and the drops that settle the workers' memories.

use crate::calls::{Untold, calls, file, header, is_journal, on_new};
use crate::reads::{Seen, look};
use crate::runs::{back, finish, lose, run, take};
use std::alloc::Global;
use std::test::Fail;
use tl_cluster::Finish;
use tl_types::{Actor, WorkerId, sha256_digest};

const FIRST: WorkerId = WorkerId(0);

const SECOND: WorkerId = WorkerId(1);

// What is seen of a record's file that is held and is the text.
fn held(made: u32, text: &str) -> Seen {
    Seen::Block(file(made), sha256_digest(text.as_bytes()))
}

const FULL: &str = r#"journal 1 workers 1 capacity 4 hot 9
0 call made 0 job 3 10 in out /x run (job "aaaa")
0 call made 1 job 3 10 in out /y run (job "bbbb")
0 call made 2 job 3 10 in /x /y out /z run (job (cat (in 0) (in 1)))
0 call open 2.0 cat 0 /z
0 claim 0 0
0 done 0 0
0 claim 0 1
0 done 0 1
0 claim 0 2
0 drop 0 0.0
0 done 0 2
0 drop 0 1.0
0 served 2.0 e5c1edb50ff8b4fcc3ead3a845ffbe1ad51c9dae5d44335a5c333b57ac8df062
0 drop 0 2.0
"#;

// A read of what a third job makes of what two others make, each as large as the one memory: the records that are run,
// what is seen, and whether the journal is that of these.
fn overfills(alloc: Global, cluster: &mut Untold) -> Result<([u32; 3], Seen, bool), Fail> {
    let texts = [
        r#"job 3 10 in out /x run (job "aaaa")"#,
        r#"job 3 10 in out /y run (job "bbbb")"#,
        "job 3 10 in /x /y out /z run (job (cat (in 0) (in 1)))",
        "cat 0 /z",
    ];
    calls(alloc, cluster, Actor(0), &texts)?;
    let x = run(alloc, cluster, Actor(0), "aaaa")?;
    let y = run(alloc, cluster, Actor(0), "bbbb")?;
    let z = run(alloc, cluster, Actor(0), "aaaabbbb")?;
    let seen = look(cluster, Actor(0))?;
    Ok(([x, y, z], seen, is_journal(alloc, cluster, FULL)?))
}

#[test]
fn what_is_no_longer_wanted_is_dropped(rt: HostRuntime) -> Result<(), Fail> {
    let seen = on_new(rt.alloc(), header(1, 4, 9), overfills)?;
    assert_eq!(rt; seen, ([0, 1, 2], held(2, "aaaabbbb"), true));
    Ok(())
}

const PINNED: &str = r#"journal 1 workers 1 capacity 6 hot 9
0 call made 0 job 3 10 in out /x run (job "xx")
0 call made 1 job 3 10 in out /y run (job "yy")
0 call made 2 job 3 10 in out /z run (job "zz")
0 claim 0 0
0 done 0 0
0 claim 0 1
0 done 0 1
0 claim 0 2
0 done 0 2
0 call ok pin /x
0 call open 1.0 cat 0 /y
0 served 1.0 ef90d9c1ec76b1edc9edfaf2c0c05359c10ccc49ae8ecf7b7fd25ce9c02e86a4
0 call made 3 job 3 10 in out /w run (job "wwww")
0 claim 0 3
0 done 0 3
0 drop 0 2.0
0 drop 0 1.0
"#;

// Three files fill the memory, of which one is pinned and another read, and a fourth comes.
fn pins(alloc: Global, cluster: &mut Untold) -> Result<Seen, Fail> {
    let texts = [
        r#"job 3 10 in out /x run (job "xx")"#,
        r#"job 3 10 in out /y run (job "yy")"#,
        r#"job 3 10 in out /z run (job "zz")"#,
    ];
    calls(alloc, cluster, Actor(0), &texts)?;
    for text in ["xx", "yy", "zz"] {
        run(alloc, cluster, Actor(0), text)?;
    }
    calls(alloc, cluster, Actor(0), &["pin /x", "cat 0 /y"])?;
    let seen = look(cluster, Actor(0))?;
    calls(
        alloc,
        cluster,
        Actor(0),
        &[r#"job 3 10 in out /w run (job "wwww")"#],
    )?;
    run(alloc, cluster, Actor(0), "wwww")?;
    Ok(seen)
}

// What clients see of the pinned file, of one that was dropped, and of the last.
fn sees_pinned(alloc: Global, cluster: &mut Untold) -> Result<[Seen; 3], Fail> {
    calls(alloc, cluster, Actor(0), &["cat 0 /x"])?;
    calls(alloc, cluster, Actor(1), &["cat 0 /y"])?;
    calls(alloc, cluster, Actor(2), &["cat 0 /w"])?;
    Ok([
        look(cluster, Actor(0))?,
        look(cluster, Actor(1))?,
        look(cluster, Actor(2))?,
    ])
}

// What is seen of the read file, whether the journal is that of these jobs, and what is seen of others then.
fn overfills_pinned(alloc: Global, cluster: &mut Untold) -> Result<(Seen, bool, [Seen; 3]), Fail> {
    let seen = pins(alloc, cluster)?;
    let journal = is_journal(alloc, cluster, PINNED)?;
    Ok((seen, journal, sees_pinned(alloc, cluster)?))
}

#[test]
fn a_pinned_file_stays(rt: HostRuntime) -> Result<(), Fail> {
    let seen = on_new(rt.alloc(), header(1, 6, 9), overfills_pinned)?;
    let others = [held(0, "xx"), Seen::Nothing, held(3, "wwww")];
    assert_eq!(rt; seen, (held(1, "yy"), true, others));
    Ok(())
}

// The records that are run once their files are lost and two of them read with different priorities.
fn inherits(alloc: Global, cluster: &mut Untold) -> Result<[u32; 3], Fail> {
    let texts = [
        r#"job 0 10 in out /s run (job "s")"#,
        "job 0 10 in /s out /p run (job (in 0))",
        "job 0 10 in /s out /q run (job (in 0))",
    ];
    calls(alloc, cluster, Actor(0), &texts)?;
    for _ in texts {
        run(alloc, cluster, Actor(8), "s")?;
    }
    lose(cluster, Actor(0), FIRST)?;
    calls(alloc, cluster, Actor(0), &["cat 1 /p"])?;
    calls(alloc, cluster, Actor(1), &["cat 7 /q"])?;
    let first = run(alloc, cluster, Actor(8), "s")?;
    let second = run(alloc, cluster, Actor(8), "s")?;
    let third = run(alloc, cluster, Actor(8), "s")?;
    Ok([first, second, third])
}

#[test]
fn who_waits_with_a_greater_priority_is_served_first(rt: HostRuntime) -> Result<(), Fail> {
    let made = on_new(rt.alloc(), header(1, 100, 9), inherits)?;
    assert_eq!(rt; made, [0, 2, 1]);
    Ok(())
}

const VOID: &str = r#"journal 1 workers 1 capacity 100 hot 9
0 call made 0 job 0 10 in out /a run (job "a")
8 claim 0 0
0 lose 0
9 claim 0 0
9 done 0 0
"#;

// A worker is lost while it runs a job, which another actor takes up: the record and the incarnation of the second,
// how the first ends and the second, and whether the journal is that of these.
fn ends_twice(alloc: Global, cluster: &mut Untold) -> Result<(u32, u64, [Finish; 2], bool), Fail> {
    calls(
        alloc,
        cluster,
        Actor(0),
        &[r#"job 0 10 in out /a run (job "a")"#],
    )?;
    let first = take(alloc, cluster, Actor(8), FIRST)?;
    lose(cluster, Actor(0), FIRST)?;
    let second = take(alloc, cluster, Actor(9), FIRST)?;
    let (made, incarnation) = (second.rec.0, second.incarnation);
    let void = finish(alloc, cluster, first, "a")?;
    let ends = [void, finish(alloc, cluster, second, "a")?];
    Ok((made, incarnation, ends, is_journal(alloc, cluster, VOID)?))
}

#[test]
fn a_done_after_the_loss_is_void(rt: HostRuntime) -> Result<(), Fail> {
    let ends = on_new(rt.alloc(), header(1, 100, 9), ends_twice)?;
    let void = Finish::Void { held: 0, now: 1 };
    assert_eq!(rt; ends, (0, 1, [void, Finish::Installed], true));
    Ok(())
}

const LOST: &str = r#"journal 1 workers 2 capacity 100 hot 9
0 call made 0 job 0 10 in out /a run (job "a")
0 call made 1 job 0 10 in out /b run (job "b")
0 call made 2 job 0 10 in out /c run (job "c")
8 claim 0 0
8 done 0 0
8 claim 0 1
9 claim 1 2
0 lose 0
9 done 1 2
0 call open 0.0 cat 0 /a
1 call open 2.0 cat 0 /c
1 served 2.0 2e7d2c03a9507ae265ecf5b5356885a53393a2029d241394997265a1a25aefc6
8 claim 0 0
8 back 0
8 lose 1
8 claim 1 0
"#;

// One of two workers is lost while each runs a job: how the jobs end.
fn loses_one(alloc: Global, cluster: &mut Untold) -> Result<[Finish; 2], Fail> {
    let texts = [
        r#"job 0 10 in out /a run (job "a")"#,
        r#"job 0 10 in out /b run (job "b")"#,
        r#"job 0 10 in out /c run (job "c")"#,
    ];
    calls(alloc, cluster, Actor(0), &texts)?;
    run(alloc, cluster, Actor(8), "a")?;
    let first = take(alloc, cluster, Actor(8), FIRST)?;
    let second = take(alloc, cluster, Actor(9), SECOND)?;
    lose(cluster, Actor(0), FIRST)?;
    let void = finish(alloc, cluster, first, "b")?;
    Ok([void, finish(alloc, cluster, second, "c")?])
}

// What is seen of a file that was lost, and of one that was not.
fn sees_lost(alloc: Global, cluster: &mut Untold) -> Result<[Seen; 2], Fail> {
    calls(alloc, cluster, Actor(0), &["cat 0 /a"])?;
    calls(alloc, cluster, Actor(1), &["cat 0 /c"])?;
    Ok([look(cluster, Actor(0))?, look(cluster, Actor(1))?])
}

// The record, the place and the incarnation of a claim on the first worker that is given back, and of one on the
// second, which is lost before it.
fn takes_again(alloc: Global, cluster: &mut Untold) -> Result<[(u32, u64, u64); 2], Fail> {
    let work = take(alloc, cluster, Actor(8), FIRST)?;
    let first = (work.rec.0, work.place, work.incarnation);
    back(cluster, work)?;
    lose(cluster, Actor(8), SECOND)?;
    let work = take(alloc, cluster, Actor(8), SECOND)?;
    Ok([first, (work.rec.0, work.place, work.incarnation)])
}

type Losses = ([Finish; 2], [Seen; 2], [(u32, u64, u64); 2], bool);

// How the jobs end, what is seen, what is taken up then, and whether the journal is that of these.
fn loses(alloc: Global, cluster: &mut Untold) -> Result<Losses, Fail> {
    let ends = loses_one(alloc, cluster)?;
    let seen = sees_lost(alloc, cluster)?;
    let taken = takes_again(alloc, cluster)?;
    Ok((ends, seen, taken, is_journal(alloc, cluster, LOST)?))
}

#[test]
fn a_loss_takes_blocks_and_claims_of_its_worker(rt: HostRuntime) -> Result<(), Fail> {
    let losses = on_new(rt.alloc(), header(2, 100, 9), loses)?;
    let ends = [Finish::Void { held: 0, now: 1 }, Finish::Installed];
    let seen = [Seen::Nothing, held(2, "c")];
    assert_eq!(rt; losses, (ends, seen, [(0, 12, 1), (0, 15, 1)], true));
    Ok(())
}
