ghost use Rattle.std.specs.Prelude.{◌≡◌, ◌+◌, ◌<◌, ◌≤◌, IfOk, OnOk};
ghost use Rattle.tl_model.specs.Journal.{calls_in};
ghost use Rattle.tl_names.specs.Answers.{HasFewOutputs};

use std::test::Fail;
use tl_io::FalseTicket;
use tl_lang::{Checked, Conf, Expr, Items as Parts, JobSpecCore, Program};
use tl_ledger::Ledger;
use tl_model::{Act, Command, Event, Form, Header, OrderRule, Reply, Version};
use tl_types::{Actor, Bytes, Digest, FileId, Items, Path, Prio, RecordId, Shared, WorkerId};

const HEADER: Header = Header {
    workers: 1,
    capacity: 100,
    hot: 9,
    order: OrderRule::Strict,
    version: Version::One,
};

// The path of one component.
fn path_of(rt: &HostRuntime, part: &str) -> Result<Path, Fail> {
    let mut parts = Vec::new(rt.alloc());
    parts.push(part.as_bytes().to_vec(rt.alloc())?)?;
    Ok(Path::new(parts).ok_or("a path")?)
}

// The put of no bytes at the path of one component.
fn put(rt: &HostRuntime, part: &str) -> Result<Command<FalseTicket>, Fail>
    ensures { IfOk result (λ command. HasFewOutputs command) }
{
    Ok(Command::Put {
        path: path_of(rt, part)?,
        len: 0,
        digest: Digest([0; 32]),
        ticket: FalseTicket,
    })
}

// The job whose one output is a text.
fn constant_job(rt: &HostRuntime) -> Result<Shared<JobSpecCore>, Fail> {
    let alloc = rt.alloc();
    let text = Bytes::new(b"x".to_vec(alloc)?).ok_or("too long")?;
    let mut outputs = Vec::new(alloc);
    outputs.push(Expr::Text(text))?;
    let program = Program {
        outputs: Parts::from_vec(outputs),
    };
    let core = JobSpecCore {
        program: Checked::new(program, 0, 1),
        conf: Conf::new(Vec::new(alloc)).ok_or("refused")?,
        fuel: 10,
    };
    Ok(Shared::new(alloc, core)?)
}

// The submission of that job, with its output at the path of one component.
fn job(rt: &HostRuntime, part: &str) -> Result<Command<FalseTicket>, Fail>
    ensures { IfOk result (λ command. HasFewOutputs command) }
{
    let core = constant_job(rt)?;
    let mut outputs = Vec::new(rt.alloc());
    outputs.push(path_of(rt, part)?)?;
    Ok(Command::Job {
        core,
        prio: Prio::new(0).ok_or("a priority")?,
        inputs: Items::from_vec(Vec::new(rt.alloc())),
        outputs: Items::from_vec(outputs),
    })
}

// What a reply says, but for what it names.
#[derive(Clone, Copy, Debug, PartialEq, Eq)]
enum Answer {
    Made(RecordId),
    Fine,
    Exists,
    Other,
}

// What the reply says.
fn answer_of(reply: Reply) -> Answer {
    match reply {
        Reply::Made(made) => Answer::Made(made),
        Reply::Fine => Answer::Fine,
        Reply::Exists => Answer::Exists,
        _ => Answer::Other,
    }
}

// Makes a call of a client, for which there is room; answers its number and what its reply says.
fn call(
    rt: &HostRuntime,
    ledger: &mut Ledger<FalseTicket>,
    client: u8,
    command: Command<FalseTicket>,
) -> Result<(u64, Answer), Fail>
    requires room { 0 < ledger.old.spare }
    requires few { HasFewOutputs command }
    ensures { OnOk result (ledger.old.spare ≤ ledger.new.spare + 1) }
{
    let (number, reply) = ledger.call(rt.alloc(), Actor(client), command)?;
    Ok((number, answer_of(reply)))
}

// Appends an event of a worker's actor that is no call, for which there is room.
fn note(ledger: &mut Ledger<FalseTicket>, act: Act<FalseTicket>)
    requires room { 0 < ledger.old.spare }
    requires no_call { calls_in act ≡ 0 }
    ensures { ledger.old.spare ≤ ledger.new.spare + 1 }
{
    ledger.append(Event {
        actor: Actor(8),
        act,
    });
}

// The answers to a put, to the same put after a loss, and to a delete; and how many events there
// are.
fn answers(
    rt: &HostRuntime,
    ledger: &mut Ledger<FalseTicket>,
) -> Result<([(u64, Answer); 3], u64), Fail> {
    ledger.reserve(4)?;
    let first = call(rt, ledger, 0, put(rt, "a")?)?;
    note(ledger, Act::Lose(WorkerId(0)));
    let second = call(rt, ledger, 1, put(rt, "a")?)?;
    let path = path_of(rt, "a")?;
    let third = call(rt, ledger, 1, Command::Delete { path })?;
    Ok(([first, second, third], ledger.len()))
}

#[test]
fn names_keep_step_with_the_journal(rt: HostRuntime) -> Result<(), Fail> {
    let mut ledger = Ledger::new(rt.alloc(), HEADER)?;
    let answers = answers(&rt, &mut ledger)?;
    let wanted = [
        (0, Answer::Made(RecordId(0))),
        (1, Answer::Exists),
        (2, Answer::Fine),
    ];
    assert_eq!(rt; answers, (wanted, 4));
    Ok(())
}

// Runs the record of a number on the one worker.
fn run(ledger: &mut Ledger<FalseTicket>, made: u32)
    requires { 2 ≤ ledger.old.spare }
    ensures { ledger.old.spare ≤ ledger.new.spare + 2 }
{
    note(ledger, Act::Claim(WorkerId(0), RecordId(made)));
    note(ledger, Act::Done(WorkerId(0), RecordId(made)));
}

// The file of the record of a number.
fn file(made: u32) -> FileId {
    FileId {
        rec: RecordId(made),
        out: 0,
    }
}

// The file that is saved next, and the record that may be let go.
fn due(ledger: &mut Ledger<FalseTicket>) -> (Option<FileId>, Option<RecordId>)
    ensures { ledger.new ≡ ledger.old }
{
    (ledger.next_save(), ledger.garbage())
}

// What is due once a job has run, its file is being saved, it is saved, and its record is let go;
// and once a second job has run, and its file is deleted.
fn dues(
    rt: &HostRuntime,
    ledger: &mut Ledger<FalseTicket>,
) -> Result<[(Option<FileId>, Option<RecordId>); 6], Fail> {
    ledger.reserve(10)?;
    call(rt, ledger, 0, job(rt, "a")?)?;
    run(ledger, 0);
    let made = due(ledger);
    note(ledger, Act::Save(file(0)));
    let saving = due(ledger);
    note(ledger, Act::Saved(file(0), 1, Digest([0; 32])));
    let saved = due(ledger);
    note(ledger, Act::Collect(RecordId(0)));
    let collected = due(ledger);
    call(rt, ledger, 0, job(rt, "b")?)?;
    run(ledger, 1);
    let again = due(ledger);
    let path = path_of(rt, "b")?;
    call(rt, ledger, 0, Command::Delete { path })?;
    Ok([made, saving, saved, collected, again, due(ledger)])
}

#[test]
fn what_is_due_keeps_step_with_the_journal(rt: HostRuntime) -> Result<(), Fail> {
    let mut ledger = Ledger::new(rt.alloc(), HEADER)?;
    let dues = dues(&rt, &mut ledger)?;
    let wanted = [
        (Some(file(0)), None),
        (None, None),
        (None, Some(RecordId(0))),
        (None, None),
        (Some(file(1)), None),
        (None, Some(RecordId(1))),
    ];
    assert_eq!(rt; dues, wanted);
    Ok(())
}

// Whether the first record is a task and can be run, whether its file is wanted, available, in the
// one worker's memory and pinned, and whether the first actor has a read open.
fn facts(ledger: &Ledger<FalseTicket>) -> [bool; 7] {
    [
        ledger.is_task(RecordId(0)),
        ledger.is_ready(RecordId(0)),
        ledger.is_wanted(file(0)),
        ledger.is_available(file(0)),
        ledger.place(file(0)).is_some(),
        ledger.is_pinned(file(0)),
        ledger.reading(Actor(0)).is_some(),
    ]
}

// The facts once a job is submitted, has run, and its file is read and pinned.
fn all_facts(rt: &HostRuntime, ledger: &mut Ledger<FalseTicket>) -> Result<[[bool; 7]; 3], Fail> {
    ledger.reserve(5)?;
    call(rt, ledger, 0, job(rt, "a")?)?;
    let submitted = facts(ledger);
    run(ledger, 0);
    let done = facts(ledger);
    let path = path_of(rt, "a")?;
    call(rt, ledger, 0, Command::Pin { path })?;
    let read = Command::Read {
        path: path_of(rt, "a")?,
        prio: Prio::new(0).ok_or("a priority")?,
        form: Form::Cat,
    };
    call(rt, ledger, 0, read)?;
    Ok([submitted, done, facts(ledger)])
}

#[test]
fn facts_keep_step_with_the_journal(rt: HostRuntime) -> Result<(), Fail> {
    let mut ledger = Ledger::new(rt.alloc(), HEADER)?;
    let facts = all_facts(&rt, &mut ledger)?;
    let wanted = [
        [true, true, false, false, false, false, false],
        [false, false, false, true, true, false, false],
        [false, false, true, true, true, true, true],
    ];
    assert_eq!(rt; facts, wanted);
    Ok(())
}
