//! Calls with what follows them, and reads.

use crate::calls::{Answer, Untold, call, calls, file, header, is_journal, on_new};
use crate::reads::{Seen, load, look, shut};
use crate::runs::{run, takes_none};
use std::alloc::Global;
use std::test::Fail;
use tl_types::{Actor, Digest, FileId, RecordId, sha256_digest};

const ANSWERED: &str = r#"journal 1 workers 1 capacity 100 hot 9
0 call made 0 put /a ""
0 saved 0.0
1 call exists put /a ""
1 call exists mkdir /a
1 call nosuch cat 0 /no
1 call nosuch free /no
1 call nosuch job 3 10 in /no out /b run (job (in 0))
1 call ok free /a
1 call made 1 job 3 10 in /a out /b run (job (in 0))
8 claim 0 1
8 done 0 1
1 call ok free /b
1 free 1.0
1 call open 1.0 cat 0 /b
"#;

// A call's number and what is answered.
type Answered = (u64, Answer);

// Makes calls that are refused, and a free of a file that is in no memory.
fn refused(alloc: Global, cluster: &mut Untold) -> Result<[Answered; 6], Fail> {
    let client = Actor(1);
    Ok([
        call(alloc, cluster, client, r#"put /a "y""#)?,
        call(alloc, cluster, client, "mkdir /a")?,
        call(alloc, cluster, client, "cat 0 /no")?,
        call(alloc, cluster, client, "free /no")?,
        call(
            alloc,
            cluster,
            client,
            "job 3 10 in /no out /b run (job (in 0))",
        )?,
        call(alloc, cluster, client, "free /a")?,
    ])
}

// Frees a file that a job made, and reads it: the answers, and what is seen.
fn frees(alloc: Global, cluster: &mut Untold) -> Result<([Answered; 3], Seen), Fail> {
    let client = Actor(1);
    let job = "job 3 10 in /a out /b run (job (in 0))";
    let made = call(alloc, cluster, client, job)?;
    run(alloc, cluster, Actor(8), "x")?;
    let freed = call(alloc, cluster, client, "free /b")?;
    let opened = call(alloc, cluster, client, "cat 0 /b")?;
    Ok(([made, freed, opened], look(cluster, client)?))
}

type Answers = (Answered, [Answered; 6], ([Answered; 3], Seen), bool);

// What is answered to a put, to calls that are refused or change no memory, and to a job, a free and a read, with what
// is seen; and whether the journal is that of these calls.
fn answers(alloc: Global, cluster: &mut Untold) -> Result<Answers, Fail> {
    let put = call(alloc, cluster, Actor(0), r#"put /a "x""#)?;
    let refused = refused(alloc, cluster)?;
    let freed = frees(alloc, cluster)?;
    Ok((put, refused, freed, is_journal(alloc, cluster, ANSWERED)?))
}

#[test]
fn calls_and_what_follows_them(rt: HostRuntime) -> Result<(), Fail> {
    let answers = on_new(rt.alloc(), header(1, 100, 9), answers)?;
    let put = (0, Answer::Made(RecordId(0)));
    let refused = [
        (1, Answer::Exists),
        (2, Answer::Exists),
        (3, Answer::NoSuch),
        (4, Answer::NoSuch),
        (5, Answer::NoSuch),
        (6, Answer::Fine),
    ];
    let freed = [
        (7, Answer::Made(RecordId(1))),
        (8, Answer::Fine),
        (9, Answer::Opened(file(1))),
    ];
    assert_eq!(rt; answers, (put, refused, (freed, Seen::Nothing), true));
    Ok(())
}

const READ: &str = r#"journal 1 workers 1 capacity 100 hot 9
0 call made 0 put /a ""
0 saved 0.0
0 call open 0.0 cat 0 /a
1 call open 0.0 cat 0 /a
2 call open 0.0 cat 0 /a
0 load 0 0.0
0 served 0.0 2d711642b726b04401627ca9fbac32f5c8530fb1903cc4db02258717921a4881
1 served 0.0 2d711642b726b04401627ca9fbac32f5c8530fb1903cc4db02258717921a4881
2 served 0.0 2d711642b726b04401627ca9fbac32f5c8530fb1903cc4db02258717921a4881
0 call made 1 job 3 10 in out /b run (job "b")
0 call open 1.0 cat 0 /b
0 shut 1.0
"#;

type Served = ([Seen; 2], [(FileId, Digest); 2]);

// What the first of three readers of a put finds and the second, once the first is served by a block that it loaded;
// and by what the first is served, and the third, who loaded one too.
fn reads_put(alloc: Global, cluster: &mut Untold) -> Result<Served, Fail> {
    calls(alloc, cluster, Actor(0), &[r#"put /a "x""#, "cat 0 /a"])?;
    calls(alloc, cluster, Actor(1), &["cat 0 /a"])?;
    calls(alloc, cluster, Actor(2), &["cat 0 /a"])?;
    let kept = look(cluster, Actor(0))?;
    let first = load(alloc, cluster, Actor(0), "x")?;
    let held = look(cluster, Actor(1))?;
    let third = load(alloc, cluster, Actor(2), "x")?;
    Ok(([kept, held], [first, third]))
}

// What is found of a file that was not made yet, whose read is then given up.
fn reads_unmade(alloc: Global, cluster: &mut Untold) -> Result<Seen, Fail> {
    let texts = [r#"job 3 10 in out /b run (job "b")"#, "cat 0 /b"];
    calls(alloc, cluster, Actor(0), &texts)?;
    let seen = look(cluster, Actor(0))?;
    shut(cluster, Actor(0))?;
    Ok(seen)
}

// Whether no job is next at first, how a put is read and a file that was not made yet, and whether the journal is that
// of these reads.
fn reads(alloc: Global, cluster: &mut Untold) -> Result<(bool, Served, Seen, bool), Fail> {
    let none = takes_none(alloc, cluster, Actor(8))?;
    let served = reads_put(alloc, cluster)?;
    let unmade = reads_unmade(alloc, cluster)?;
    Ok((none, served, unmade, is_journal(alloc, cluster, READ)?))
}

#[test]
fn reads_are_served(rt: HostRuntime) -> Result<(), Fail> {
    let reads = on_new(rt.alloc(), header(1, 100, 9), reads)?;
    let digest = sha256_digest(b"x");
    let found = [Seen::Kept(1, digest), Seen::Block(file(0), digest)];
    let served = (found, [(file(0), digest); 2]);
    assert_eq!(rt; reads, (true, served, Seen::Nothing, true));
    Ok(())
}
