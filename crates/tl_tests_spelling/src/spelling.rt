use std::alloc::Global;
use std::test::Fail;
use tl_model::{Act, Command, Event, Header, Journal, OrderRule, Reply, Version};
use tl_script::{Op, parse_op};
use tl_spelling::journal_text;
use tl_types::{Actor, Bytes, Digest, FileId, NoMemory, RecordId, WorkerId, sha256_digest};

// A header of one worker.
fn header(order: OrderRule, version: Version) -> Header {
    Header {
        workers: 1,
        capacity: 100,
        hot: 3,
        order,
        version,
    }
}

const MADE: FileId = FileId {
    rec: RecordId(1),
    out: 0,
};

const LAST: FileId = FileId {
    rec: RecordId(4_294_967_295),
    out: 255,
};

// The call that a command of a script is, with no ticket; `None` for what is no call here.
fn called(op: Op) -> Option<Command<u8>> {
    match op {
        Op::Put { path, text } => Some(Command::Put {
            path,
            len: text.len() as u64,
            digest: sha256_digest(text.as_slice()),
            ticket: 0,
        }),
        Op::Job {
            core,
            prio,
            inputs,
            outputs,
        } => Some(Command::Job {
            core,
            prio,
            inputs,
            outputs,
        }),
        Op::Read { path, prio, form } => Some(Command::Read { path, prio, form }),
        _ => None,
    }
}

// Appends an act of client 0.
fn add(journal: &mut Journal<u8>, act: Act<u8>) -> Result<(), NoMemory> {
    journal.reserve(1)?;
    journal.append(Event {
        actor: Actor(0),
        act,
    });
    Ok(())
}

// Appends a call that is answered so.
fn call(alloc: Global, journal: &mut Journal<u8>, text: &[u8], reply: Reply) -> Result<(), Fail> {
    let header = *journal.header();
    let op = parse_op(alloc, text, &header)?;
    let command = called(op).ok_or("it is a put, a job or a read")?;
    Ok(add(journal, Act::Call(command, reply))?)
}

// Appends a read of `/b` that runs the job first.
fn read(alloc: Global, journal: &mut Journal<u8>, digest: Digest) -> Result<(), Fail> {
    call(alloc, journal, b"cat 0 /b", Reply::Opened(MADE))?;
    add(journal, Act::Claim(WorkerId(0), RecordId(1)))?;
    add(journal, Act::Done(WorkerId(0), RecordId(1)))?;
    Ok(add(journal, Act::Served(MADE, digest))?)
}

// A put, a job that appends to it, a read, a loss and the read again.
fn lost(alloc: Global, journal: &mut Journal<u8>) -> Result<(), Fail> {
    let put = FileId {
        rec: RecordId(0),
        out: 0,
    };
    let job = b"job 3 10 in /a out /b run (job (cat (in 0) \"!\"))";
    let digest = sha256_digest(b"hi!");
    call(alloc, journal, b"put /a \"hi\"", Reply::Made(RecordId(0)))?;
    add(journal, Act::Saved(put, 2, sha256_digest(b"hi")))?;
    call(alloc, journal, job, Reply::Made(RecordId(1)))?;
    read(alloc, journal, digest)?;
    add(journal, Act::Lose(WorkerId(0)))?;
    read(alloc, journal, digest)
}

// The text of a journal with this header.
fn text_of(alloc: Global, header: Header) -> Result<Vec<u8>, Fail> {
    let mut journal = Journal::new(alloc, header);
    lost(alloc, &mut journal)?;
    let source = Bytes::new(b"hi".to_vec(alloc)?).ok_or("two bytes are few")?;
    let mut sources = Vec::new(alloc);
    sources.push(source)?;
    let mut text = Vec::new(alloc);
    journal_text(&mut text, &journal, sources.as_slice())?;
    Ok(text)
}

const EVENTS: &[u8] = br#"0 call made 0 put /a "hi"
0 saved 0.0
0 call made 1 job 3 10 in /a out /b run (job (cat (in 0) "!"))
0 call open 1.0 cat 0 /b
0 claim 0 1
0 done 0 1
0 served 1.0 c0ddd62c7717180e7ffb8a15bb9674d3ec92592e0b7ac7d1d5289836b4553be2
0 lose 0
0 call open 1.0 cat 0 /b
0 claim 0 1
0 done 0 1
0 served 1.0 c0ddd62c7717180e7ffb8a15bb9674d3ec92592e0b7ac7d1d5289836b4553be2
"#;

// Whether the text is that of the events between the two lines.
fn is_between(text: &[u8], first: &[u8], last: &[u8]) -> bool {
    let Some(rest) = text.strip_prefix(first) else {
        return false;
    };
    match rest.strip_suffix(last) {
        Some(events) => events == EVENTS,
        None => false,
    }
}

#[test]
fn a_journal_has_the_lines_of_its_version(rt: HostRuntime) -> Result<(), Fail> {
    let one = text_of(rt.alloc(), header(OrderRule::Strict, Version::One))?;
    let two = text_of(rt.alloc(), header(OrderRule::Shares, Version::Two))?;
    let is_one = is_between(
        one.as_slice(),
        b"journal 1 workers 1 capacity 100 hot 3\n",
        b"",
    );
    let is_two = is_between(
        two.as_slice(),
        b"journal 2 workers 1 capacity 100 hot 3 order shares\n",
        b"end 12\n",
    );
    assert!(rt; is_one);
    assert!(rt; is_two);
    Ok(())
}

// The acts that the journal above has not.
fn others(journal: &mut Journal<u8>) -> Result<(), NoMemory> {
    add(journal, Act::Shut(LAST))?;
    add(journal, Act::Back(RecordId(4_294_967_295)))?;
    add(journal, Act::Free(MADE))?;
    add(journal, Act::Drop(WorkerId(7), MADE))?;
    add(journal, Act::Load(WorkerId(255), MADE))?;
    add(journal, Act::Save(MADE))?;
    add(journal, Act::Unsave(MADE))?;
    add(journal, Act::Collect(RecordId(0)))
}

#[test]
fn each_act_has_its_line(rt: HostRuntime) -> Result<(), Fail> {
    let alloc = rt.alloc();
    let mut journal = Journal::new(alloc, header(OrderRule::Shares, Version::One));
    others(&mut journal)?;
    let mut text = Vec::new(alloc);
    journal_text(&mut text, &journal, &[])?;
    let wanted =
        b"journal 1 workers 1 capacity 100 hot 3 shares\n0 shut 4294967295.255\n0 back 4294967295\n0 free 1.0\n0 drop 7 1.0\n0 load 255 1.0\n0 save 1.0\n0 unsave 1.0\n0 collect 0\n";
    assert_eq!(rt; text.as_slice(), wanted.as_slice());
    Ok(())
}
