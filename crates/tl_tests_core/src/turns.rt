//! Turns of a cluster whose tickets tell nothing. What each turn asks of its caller is looked up first.

ghost use Rattle.std.specs.Prelude.{◌≡◌, ◌<◌, ◌∷◌, [], true, false, map, None, IfOk, OnOk};
ghost use Rattle.tl_model.specs.Actors.{is_idle};
ghost use Rattle.tl_model.specs.Rules.{may_claim};
ghost use Rattle.tl_core.specs.Answers.{past_of, IsSavedBlock};
ghost use Rattle.tl_core.specs.Called.{IsFitting};
ghost use Rattle.tl_core.specs.Done.{file_of};

use std::test::Fail;
use tl_core::{Cluster, Finish, Look, Work};
use tl_io::FalseTicket;
use tl_lang::{Checked, Conf, Expr, Items as Parts, JobSpecCore, Program};
use tl_model::{Command, Form, Header, OrderRule, Reply, Saved, Version};
use tl_types::{
    Actor, Block, Bytes, Digest, FileId, Items, Outcome, Path, Prio, RecordId, Shared, WorkerId,
    sha256_digest,
};
use tl_walk::{is_idle, open_claim, open_read, open_save, saved_as};

const HEADER: Header = Header {
    workers: 1,
    capacity: 100,
    hot: 9,
    order: OrderRule::Strict,
    version: Version::One,
};

// The path of one component that all calls name.
fn path(rt: &HostRuntime) -> Result<Path, Fail> {
    let mut parts = Vec::new(rt.alloc());
    parts.push(b"a".to_vec(rt.alloc())?)?;
    Ok(Path::new(parts).ok_or("a path")?)
}

// The job whose one output is a text.
#[tactic(auto, unfolding(tl_lang::specs::Computing::computing))]
fn constant_job(rt: &HostRuntime) -> Result<Shared<JobSpecCore>, Fail>
    ensures { IfOk result (λ core. (core.program.inputs ≡ 0) × (core.program.outputs ≡ 1)) }
{
    let alloc = rt.alloc();
    let text = Bytes::new(b"x".to_vec(alloc)?).ok_or("too long")?;
    let mut outputs = Vec::new(alloc);
    outputs.push(Expr::Text(text))?;
    let program = Program {
        outputs: Parts::from_vec(outputs),
    };
    let core = JobSpecCore {
        program: Checked::new(program, 0, 1),
        conf: Conf::new(Vec::new(alloc)).ok_or("refused")?,
        fuel: 10,
    };
    Ok(Shared::new(alloc, core)?)
}

// The submission of that job.
fn submission(rt: &HostRuntime) -> Result<Command<FalseTicket>, Fail>
    ensures { IfOk result (λ command. IsFitting command) }
{
    let core = constant_job(rt)?;
    let mut outputs = Vec::new(rt.alloc());
    outputs.push(path(rt)?)?;
    Ok(Command::Job {
        core,
        prio: Prio::new(0).ok_or("a priority")?,
        inputs: Items::from_vec(Vec::new(rt.alloc())),
        outputs: Items::from_vec(outputs),
    })
}

// The actor has nothing under way.
fn idle(cluster: &Cluster<FalseTicket>, actor: Actor) -> Result<(), Fail>
    ensures { OnOk result (is_idle (past_of cluster.now) actor ≡ true) }
{
    if !is_idle(cluster.journal().events(), actor) {
        return Err(Fail::from("something is under way"));
    }
    Ok(())
}

// Whether the first client's put of one byte is made as the first record.
fn puts(
    rt: &HostRuntime,
    cluster: &mut Cluster<FalseTicket>,
    digest: Digest,
) -> Result<bool, Fail> {
    idle(cluster, Actor(0))?;
    let put = Command::Put {
        path: path(rt)?,
        len: 1,
        digest,
        ticket: FalseTicket,
    };
    let answer = cluster.call(rt.alloc(), Actor(0), put)?;
    Ok(matches!(answer, (0, Reply::Made(RecordId(0)))))
}

// Whether the first client's job is made as the first record.
fn submits(rt: &HostRuntime, cluster: &mut Cluster<FalseTicket>) -> Result<bool, Fail> {
    idle(cluster, Actor(0))?;
    let job = submission(rt)?;
    let answer = cluster.call(rt.alloc(), Actor(0), job)?;
    Ok(matches!(answer, (0, Reply::Made(RecordId(0)))))
}

// Whether a directory is refused where the file stands, as the second call.
fn refuses_mkdir(rt: &HostRuntime, cluster: &mut Cluster<FalseTicket>) -> Result<bool, Fail> {
    idle(cluster, Actor(1))?;
    let mkdir = Command::Mkdir { path: path(rt)? };
    let answer = cluster.call(rt.alloc(), Actor(1), mkdir)?;
    Ok(matches!(answer, (1, Reply::Exists)))
}

// Whether a read of the first record's file is opened, as the call of this number.
fn opens(
    rt: &HostRuntime,
    cluster: &mut Cluster<FalseTicket>,
    actor: Actor,
    number: u64,
) -> Result<bool, Fail>
    requires { actor.0 < 8 }
{
    idle(cluster, actor)?;
    let read = Command::Read {
        path: path(rt)?,
        prio: Prio::new(0).ok_or("a priority")?,
        form: Form::Cat,
    };
    let (at, reply) = cluster.call(rt.alloc(), actor, read)?;
    Ok(
        at == number
            && matches!(
                reply,
                Reply::Opened(FileId {
                    rec: RecordId(0),
                    out: 0
                })
            ),
    )
}

// What a look by the first client finds, whose read is open.
fn look(cluster: &mut Cluster<FalseTicket>) -> Result<Look<FalseTicket>, Fail> {
    if open_read(cluster.journal().events(), Actor(0)).is_none() {
        return Err(Fail::from("no read is open"));
    }
    Ok(cluster.look(Actor(0))?)
}

// Whether the file is found neither held nor saved.
fn finds_nothing(cluster: &mut Cluster<FalseTicket>) -> Result<bool, Fail> {
    Ok(matches!(look(cluster)?, Look::NotYet))
}

// Whether the file is found saved, with one byte.
fn finds_saved(cluster: &mut Cluster<FalseTicket>) -> Result<bool, Fail> {
    Ok(matches!(look(cluster)?, Look::Saved(Saved::Held { len: 1, .. })))
}

// Whether the block holds the text.
fn holds(block: &Block, text: &[u8]) -> bool {
    match block.outcome() {
        Outcome::Value(bytes) => bytes.as_slice() == text,
        Outcome::Fault(_) => false,
    }
}

// Whether the file is found held, with the text.
fn finds_held(cluster: &mut Cluster<FalseTicket>, text: &[u8]) -> Result<bool, Fail> {
    match look(cluster)? {
        Look::Have(block) => Ok(holds(block.get(), text)),
        _ => Ok(false),
    }
}

// The block of the file that holds the text.
fn block_of(rt: &HostRuntime, file: FileId, text: &[u8]) -> Result<Shared<Block>, Fail>
    ensures { IfOk result (λ block. block.file ≡ file) }
{
    let alloc = rt.alloc();
    let bytes = Bytes::new(text.to_vec(alloc)?).ok_or("too long")?;
    Ok(Shared::new(alloc, Block::new(file, Outcome::Value(bytes)))?)
}

// Whether the block's file was saved with its size and digest.
fn is_saved_block(cluster: &Cluster<FalseTicket>, block: &Block) -> bool
    ensures { result ≡ true → IsSavedBlock cluster.now block.now }
{
    match saved_as(cluster.journal().events(), block.file()) {
        Some(saved) => {
            saved.size() == block.outcome().size() as u64 && saved.digest() == block.digest()
        }
        None => false,
    }
}

// Serves the actor's read by a block of the text, which must be what is saved of the file.
fn loaded(
    rt: &HostRuntime,
    cluster: &mut Cluster<FalseTicket>,
    actor: Actor,
    text: &[u8],
) -> Result<Shared<Block>, Fail>
    requires { actor.0 < 16 }
{
    if cluster.journal().header().workers == 0 {
        return Err(Fail::from("there is no worker"));
    }
    let read = open_read(cluster.journal().events(), actor).ok_or("no read is open")?;
    let block = block_of(rt, read.file(), text)?;
    if !is_saved_block(cluster, block.get()) {
        return Err(Fail::from("the block is not what is saved"));
    }
    Ok(cluster.loaded(actor, WorkerId(0), block)?)
}

// Whether the actor's read is served by a block of the text, once that is loaded.
fn loads(
    rt: &HostRuntime,
    cluster: &mut Cluster<FalseTicket>,
    actor: Actor,
    text: &[u8],
) -> Result<bool, Fail>
    requires { actor.0 < 16 }
{
    let served = loaded(rt, cluster, actor, text)?;
    Ok(holds(served.get(), text))
}

// The actor has no claim or save open, and there is a worker.
fn may_claim(cluster: &Cluster<FalseTicket>, actor: Actor) -> Result<(), Fail>
    ensures idle { OnOk result (may_claim (past_of cluster.now) actor ≡ true) }
    ensures worker { OnOk result (0 < cluster.now.header.workers) }
{
    let events = cluster.journal().events();
    if open_claim(events, actor).is_some() || open_save(events, actor).is_some() {
        return Err(Fail::from("a claim or a save is open"));
    }
    if cluster.journal().header().workers == 0 {
        return Err(Fail::from("there is no worker"));
    }
    Ok(())
}

// The record of a work, the place of its claim and the number of its inputs.
type Taken = (u32, u64, usize);

fn taken(work: &Work<FalseTicket>) -> Taken {
    (work.rec.0, work.place, work.inputs.len())
}

// What the actor takes up, if a job is next.
fn claims(
    rt: &HostRuntime,
    cluster: &mut Cluster<FalseTicket>,
    actor: Actor,
) -> Result<Option<Taken>, Fail>
    requires { actor.0 < 16 }
    ensures { IfOk result (λ taken. taken ≡ None → cluster.new ≡ cluster.old) }
{
    may_claim(cluster, actor)?;
    match cluster.claim(rt.alloc(), actor, WorkerId(0))? {
        Some(work) => Ok(Some(taken(&work))),
        None => Ok(None),
    }
}

// What the actor takes up and gives back. Meanwhile nothing is next for the other actor.
fn claim_and_back(
    rt: &HostRuntime,
    cluster: &mut Cluster<FalseTicket>,
    actor: Actor,
    other: Actor,
) -> Result<Taken, Fail>
    requires actor { actor.0 < 16 }
    requires other { other.0 < 16 }
{
    may_claim(cluster, actor)?;
    let Some(work) = cluster.claim(rt.alloc(), actor, WorkerId(0))? else {
        return Err(Fail::from("no job is next"));
    };
    let taken = taken(&work);
    if claims(rt, cluster, other)?.is_some() {
        return Err(Fail::from("the other actor has a job"));
    }
    cluster.back(work);
    Ok(taken)
}

// What the actor takes up, and gives back after its worker was lost.
fn claim_and_lose(
    rt: &HostRuntime,
    cluster: &mut Cluster<FalseTicket>,
    actor: Actor,
) -> Result<Taken, Fail>
    requires { actor.0 < 16 }
{
    may_claim(cluster, actor)?;
    let Some(work) = cluster.claim(rt.alloc(), actor, WorkerId(0))? else {
        return Err(Fail::from("no job is next"));
    };
    let taken = taken(&work);
    cluster.lose(actor, WorkerId(0))?;
    cluster.back(work);
    Ok(taken)
}

// The blocks of a record's one output, which is the text.
fn one_block(rt: &HostRuntime, rec: RecordId, text: &[u8]) -> Result<Vec<Shared<Block>>, Fail>
    ensures { IfOk result (λ blocks. map file_of blocks.items ≡ record { rec = rec; out = 0 } ∷ []) }
{
    let mut blocks = Vec::new(rt.alloc());
    blocks.push(block_of(rt, FileId { rec, out: 0 }, text)?)?;
    Ok(blocks)
}

// How a job ends that the actor takes up, whose one output is the text.
fn claim_and_done(
    rt: &HostRuntime,
    cluster: &mut Cluster<FalseTicket>,
    actor: Actor,
    text: &[u8],
) -> Result<Finish, Fail>
    requires { actor.0 < 16 }
{
    may_claim(cluster, actor)?;
    let Some(work) = cluster.claim(rt.alloc(), actor, WorkerId(0))? else {
        return Err(Fail::from("no job is next"));
    };
    if work.core.get().program.outputs() != 1 {
        return Err(Fail::from("not one output"));
    }
    let blocks = one_block(rt, work.rec, text)?;
    match cluster.done(work, blocks) {
        Ok(finish) => Ok(finish),
        Err(_) => Err(Fail::from("memory ran out")),
    }
}

// Ends the job of an actor whose worker was lost, which another has taken up again meanwhile, and then the other's.
// Answers how the first ended, the record and the incarnation of the second, and how that ended.
fn ends_twice(
    rt: &HostRuntime,
    cluster: &mut Cluster<FalseTicket>,
) -> Result<(Finish, (u32, u64), Finish), Fail> {
    may_claim(cluster, Actor(8))?;
    let Some(first) = cluster.claim(rt.alloc(), Actor(8), WorkerId(0))? else {
        return Err(Fail::from("no job is next"));
    };
    cluster.lose(Actor(0), WorkerId(0))?;
    may_claim(cluster, Actor(9))?;
    let Some(second) = cluster.claim(rt.alloc(), Actor(9), WorkerId(0))? else {
        return Err(Fail::from("no job is next"));
    };
    if first.core.get().program.outputs() != 1 || second.core.get().program.outputs() != 1 {
        return Err(Fail::from("not one output"));
    }
    let again = (second.rec.0, second.incarnation);
    let blocks = one_block(rt, first.rec, b"x")?;
    let Ok(void) = cluster.done(first, blocks) else {
        return Err(Fail::from("memory ran out"));
    };
    if !has(cluster, 4) {
        return Err(Fail::from("something was recorded"));
    }
    let blocks = one_block(rt, second.rec, b"x")?;
    match cluster.done(second, blocks) {
        Ok(installed) => Ok((void, again, installed)),
        Err(_) => Err(Fail::from("memory ran out")),
    }
}

// Whether there are so many events.
fn has(cluster: &Cluster<FalseTicket>, events: u64) -> bool {
    cluster.journal().len() == events
}

#[test]
fn puts_and_refusals(rt: HostRuntime) -> Result<(), Fail> {
    let mut cluster = Cluster::new(rt.alloc(), HEADER)?;
    assert!(rt; puts(&rt, &mut cluster, Digest([7; 32]))?);
    assert!(rt; refuses_mkdir(&rt, &mut cluster)? && has(&cluster, 3));
    assert!(rt; opens(&rt, &mut cluster, Actor(0), 2)? && finds_saved(&mut cluster)?);
    assert!(rt; claims(&rt, &mut cluster, Actor(0))?.is_none() && has(&cluster, 4));
    Ok(())
}

// Whether the job is submitted, and a read of its file opened.
fn submits_and_opens(rt: &HostRuntime, cluster: &mut Cluster<FalseTicket>) -> Result<bool, Fail> {
    Ok(submits(rt, cluster)? && opens(rt, cluster, Actor(0), 1)?)
}

#[test]
fn a_job_is_given_back_and_its_worker_lost(rt: HostRuntime) -> Result<(), Fail> {
    let mut cluster = Cluster::new(rt.alloc(), HEADER)?;
    assert!(rt; submits_and_opens(&rt, &mut cluster)? && finds_nothing(&mut cluster)?);
    let back = claim_and_back(&rt, &mut cluster, Actor(8), Actor(9))?;
    assert!(rt; back == (0, 2, 0) && has(&cluster, 4));
    let lost = claim_and_lose(&rt, &mut cluster, Actor(9))?;
    assert!(rt; lost == (0, 4, 0) && has(&cluster, 6));
    assert!(rt; claims(&rt, &mut cluster, Actor(8))? == Some((0, 6, 0)));
    Ok(())
}

#[test]
fn a_done_job_is_read(rt: HostRuntime) -> Result<(), Fail> {
    let mut cluster = Cluster::new(rt.alloc(), HEADER)?;
    assert!(rt; submits_and_opens(&rt, &mut cluster)?);
    let finish = claim_and_done(&rt, &mut cluster, Actor(8), b"x")?;
    assert!(rt; finish == Finish::Installed && has(&cluster, 4));
    assert!(rt; finds_held(&mut cluster, b"x")? && has(&cluster, 5));
    Ok(())
}

#[test]
fn a_job_is_void_after_a_loss(rt: HostRuntime) -> Result<(), Fail> {
    let mut cluster = Cluster::new(rt.alloc(), HEADER)?;
    assert!(rt; submits(&rt, &mut cluster)?);
    let (void, again, installed) = ends_twice(&rt, &mut cluster)?;
    assert!(rt; void == Finish::Void { held: 0, now: 1 } && again == (0, 1));
    assert!(rt; installed == Finish::Installed && has(&cluster, 5));
    Ok(())
}

// Whether a put of the text `x` is made, and two clients' reads of its file opened.
fn puts_and_opens(rt: &HostRuntime, cluster: &mut Cluster<FalseTicket>) -> Result<bool, Fail> {
    Ok(
        puts(rt, cluster, sha256_digest(b"x"))?
            && opens(rt, cluster, Actor(0), 1)?
            && opens(rt, cluster, Actor(1), 2)?,
    )
}

#[test]
fn a_put_is_loaded_and_then_held(rt: HostRuntime) -> Result<(), Fail> {
    let mut cluster = Cluster::new(rt.alloc(), HEADER)?;
    assert!(rt; puts_and_opens(&rt, &mut cluster)?);
    assert!(rt; finds_saved(&mut cluster)? && has(&cluster, 4));
    assert!(rt; loads(&rt, &mut cluster, Actor(0), b"x")? && has(&cluster, 6));
    assert!(rt; loads(&rt, &mut cluster, Actor(1), b"x")? && has(&cluster, 7));
    Ok(())
}
