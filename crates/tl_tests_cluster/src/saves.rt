//! Saves, and records that are let go. What is open at each turn is looked up first.

ghost use Rattle.std.specs.Prelude.{◌≡◌, ◌<◌, [], false, Some, IfOk, OnOk};
ghost use Rattle.tl_model.specs.Actors.{open_save};
ghost use Rattle.tl_cluster.specs.Kept.{IsSavedFor};
ghost use Rattle.tl_cluster.specs.Saves.{saved_block};
ghost use Rattle.tl_cluster.specs.State.{past_of};

use crate::calls::{Untold, calls, file, header, idle, is_journal, on_new};
use crate::reads::{Seen, look};
use crate::runs::run;
use std::alloc::Global;
use std::test::Fail;
use tl_cluster::SaveJob;
use tl_io::FalseTicket;
use tl_model::Saved;
use tl_types::{Actor, Block, FileId, Outcome, sha256_digest};
use tl_walk::open_save;

// The save is open.
fn saving(cluster: &Untold, job: &SaveJob) -> Result<(), Fail>
    ensures { OnOk result
        (open_save (past_of cluster.now) job.now.actor ≡ Some job.now.block.file) }
{
    let file = open_save(cluster.journal().events(), job.actor).ok_or("no save is open")?;
    if file != job.block.get().file() {
        return Err(Fail::from("another save is open"));
    }
    Ok(())
}

// What a checkpoint store keeps of the block.
fn kept(block: &Block) -> Saved<FalseTicket>
    ensures { IsSavedFor false (λ _. []) (saved_block block.now) block.now.outcome result }
{
    match block.outcome() {
        Outcome::Value(bytes) => Saved::Held {
            ticket: FalseTicket,
            len: bytes.len() as u64,
            digest: block.digest(),
        },
        Outcome::Fault(code) => Saved::Failed(*code),
    }
}

// A file that was taken up to be saved, and the place of its Save; none where none is next.
type Begun = Option<(FileId, u64)>;

// Saves the file that is next, if there is one.
fn save(cluster: &mut Untold, actor: Actor) -> Result<Begun, Fail>
    requires { actor.0 < 16 }
{
    idle(cluster, actor)?;
    let Some(job) = cluster.save_begin(actor)? else {
        return Ok(None);
    };
    let begun = (job.block.get().file(), job.place);
    saving(cluster, &job)?;
    let saved = kept(job.block.get());
    cluster.saved(job, saved);
    Ok(Some(begun))
}

// Takes up the file that is saved next, if there is one, and gives it up.
fn unsave(cluster: &mut Untold, actor: Actor) -> Result<Begun, Fail>
    requires { actor.0 < 16 }
{
    idle(cluster, actor)?;
    let Some(job) = cluster.save_begin(actor)? else {
        return Ok(None);
    };
    let begun = (job.block.get().file(), job.place);
    saving(cluster, &job)?;
    cluster.unsave(job);
    Ok(Some(begun))
}

const SAVED: &str = r#"journal 1 workers 1 capacity 100 hot 2
0 call made 0 job 3 10 in out /a run (job "a")
0 call made 1 job 3 10 in /a out /b run (job (in 0))
0 call made 2 job 7 10 in out /c run (job "c")
8 claim 0 2
8 done 0 2
8 claim 0 0
8 done 0 0
8 claim 0 1
8 done 0 1
8 save 2.0
8 saved 2.0
8 save 1.0
8 unsave 1.0
9 save 1.0
9 saved 1.0
0 call open 0.0 cat 0 /a
0 served 0.0 ca978112ca1bbdcafac231b39a23dc4da786eff8147c4e72b9807785afee48bb
9 save 0.0
9 saved 0.0
"#;

// Two files that no job reads, made in the order of their jobs' priorities, and one that a job reads.
fn makes_three(alloc: Global, cluster: &mut Untold) -> Result<[u32; 3], Fail> {
    let texts = [
        r#"job 3 10 in out /a run (job "a")"#,
        "job 3 10 in /a out /b run (job (in 0))",
        r#"job 7 10 in out /c run (job "c")"#,
    ];
    calls(alloc, cluster, Actor(0), &texts)?;
    let first = run(alloc, cluster, Actor(8), "c")?;
    let second = run(alloc, cluster, Actor(8), "a")?;
    let third = run(alloc, cluster, Actor(8), "a")?;
    Ok([first, second, third])
}

// What is saved, one of it in a second go, until nothing is left to be saved.
fn saves_leaves(cluster: &mut Untold) -> Result<[Begun; 4], Fail> {
    Ok([
        save(cluster, Actor(8))?,
        unsave(cluster, Actor(8))?,
        save(cluster, Actor(9))?,
        save(cluster, Actor(9))?,
    ])
}

// What is saved once the file that a job reads was read by a client too.
fn saves_hot(alloc: Global, cluster: &mut Untold) -> Result<(Seen, [Begun; 2]), Fail> {
    calls(alloc, cluster, Actor(0), &["cat 0 /a"])?;
    let seen = look(cluster, Actor(0))?;
    let hot = save(cluster, Actor(9))?;
    Ok((seen, [hot, save(cluster, Actor(9))?]))
}

type Saves = ([u32; 3], [Begun; 4], (Seen, [Begun; 2]), bool);

// In which order the files are made, what is saved of the leaves, what is seen and what is saved then; and whether the
// journal is that of these.
fn saves(alloc: Global, cluster: &mut Untold) -> Result<Saves, Fail> {
    let made = makes_three(alloc, cluster)?;
    let leaves = saves_leaves(cluster)?;
    let hot = saves_hot(alloc, cluster)?;
    Ok((made, leaves, hot, is_journal(alloc, cluster, SAVED)?))
}

#[test]
fn leaves_are_saved_first_and_then_what_is_hot(rt: HostRuntime) -> Result<(), Fail> {
    let saves = on_new(rt.alloc(), header(1, 100, 2), saves)?;
    let leaves = [
        Some((file(2), 9)),
        Some((file(1), 11)),
        Some((file(1), 13)),
        None,
    ];
    let seen = Seen::Block(file(0), sha256_digest(b"a"));
    let hot = (seen, [Some((file(0), 17)), None]);
    assert_eq!(rt; saves, ([2, 0, 1], leaves, hot, true));
    Ok(())
}

// A put, and three jobs of which each reads what the one before made.
fn chain(alloc: Global, cluster: &mut Untold) -> Result<(), Fail> {
    let texts = [
        r#"put /a "x""#,
        r#"job 3 10 in /a out /b run (job (cat (in 0) "1"))"#,
        r#"job 3 10 in /b out /c run (job (cat (in 0) "2"))"#,
        r#"job 3 10 in /c out /d run (job (cat (in 0) "3"))"#,
    ];
    calls(alloc, cluster, Actor(0), &texts)?;
    for text in ["x1", "x12", "x123"] {
        run(alloc, cluster, Actor(0), text)?;
    }
    Ok(())
}

const NEEDED: &str = r#"journal 1 workers 1 capacity 100 hot 9
0 call made 0 put /a ""
0 saved 0.0
0 call made 1 job 3 10 in /a out /b run (job (cat (in 0) "1"))
0 call made 2 job 3 10 in /b out /c run (job (cat (in 0) "2"))
0 call made 3 job 3 10 in /c out /d run (job (cat (in 0) "3"))
0 claim 0 1
0 done 0 1
0 claim 0 2
0 done 0 2
0 claim 0 3
0 done 0 3
0 call ok delete /c
0 collect 0
"#;

// How many records are let go where a file between two others has no name any more: none at most, nine at most, and
// nine at most once more; and whether the journal is that of these.
fn lets_go(alloc: Global, cluster: &mut Untold) -> Result<([u32; 3], bool), Fail> {
    chain(alloc, cluster)?;
    calls(alloc, cluster, Actor(0), &["delete /c"])?;
    let gone = [
        cluster.collect(Actor(0), 0)?,
        cluster.collect(Actor(0), 9)?,
        cluster.collect(Actor(0), 9)?,
    ];
    Ok((gone, is_journal(alloc, cluster, NEEDED)?))
}

#[test]
fn a_record_is_kept_for_those_that_need_it(rt: HostRuntime) -> Result<(), Fail> {
    let gone = on_new(rt.alloc(), header(1, 100, 9), lets_go)?;
    assert_eq!(rt; gone, ([0, 1, 0], true));
    Ok(())
}

const LET_GO: &str = r#"journal 1 workers 1 capacity 100 hot 9
0 call made 0 put /a ""
0 saved 0.0
0 call made 1 job 3 10 in /a out /b run (job (cat (in 0) "1"))
0 call made 2 job 3 10 in /b out /c run (job (cat (in 0) "2"))
0 call made 3 job 3 10 in /c out /d run (job (cat (in 0) "3"))
0 claim 0 1
0 done 0 1
0 claim 0 2
0 done 0 2
0 claim 0 3
0 done 0 3
0 call ok delete /b
0 call ok delete /c
0 save 3.0
0 saved 3.0
0 collect 0
0 collect 1
1 collect 2
1 collect 3
"#;

// What is saved of the last file, once those between are nameless, how many records are let go then, two at most and
// nine at most, and whether the journal is that of these.
fn lets_all_go(alloc: Global, cluster: &mut Untold) -> Result<(Begun, [u32; 2], bool), Fail> {
    chain(alloc, cluster)?;
    calls(alloc, cluster, Actor(0), &["delete /b", "delete /c"])?;
    let saved = save(cluster, Actor(0))?;
    let gone = [cluster.collect(Actor(0), 2)?, cluster.collect(Actor(1), 9)?];
    Ok((saved, gone, is_journal(alloc, cluster, LET_GO)?))
}

#[test]
fn no_more_records_are_let_go_than_are_asked_for(rt: HostRuntime) -> Result<(), Fail> {
    let gone = on_new(rt.alloc(), header(1, 100, 9), lets_all_go)?;
    assert_eq!(rt; gone, (Some((file(3), 13)), [2, 2], true));
    Ok(())
}
