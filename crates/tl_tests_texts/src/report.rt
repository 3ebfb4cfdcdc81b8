use std::alloc::Global;
use std::test::Fail;
use tl_model::{Answer, ClientError, Counted, Damage, Entry, Form, Reply, Status};
use tl_report::*;
use tl_types::{
    Block, Bytes, Digest, FileId, Items, NoMemory, Outcome, RecordId, Shared, WorkerId,
};

const FIRST: FileId = FileId {
    rec: RecordId(0),
    out: 0,
};

const LAST: FileId = FileId {
    rec: RecordId(4_294_967_295),
    out: 255,
};

// The line of a reply to client 0.
fn say(out: &mut Vec<u8>, at: u64, reply: Reply) -> Result<(), NoMemory> {
    let said = Ok(Answer::Said { at, reply });
    transcript_line(out, 0, &said, Form::Cat)
}

// The line of what client 7 is answered.
fn answered(out: &mut Vec<u8>, answer: Answer) -> Result<(), NoMemory> {
    let said = Ok(answer);
    transcript_line(out, 7, &said, Form::Try)
}

// The line of a read by client 3 that was asked for so.
fn read(alloc: Global, out: &mut Vec<u8>, form: Form, outcome: Outcome) -> Result<(), Fail> {
    let block = Shared::new(alloc, Block::new(LAST, outcome))?;
    let said = Ok(Answer::Read { at: 12, block });
    Ok(transcript_line(out, 3, &said, form)?)
}

// The lines of some replies.
fn say_first(out: &mut Vec<u8>) -> Result<(), NoMemory> {
    say(out, 0, Reply::Made(RecordId(17)))?;
    say(out, 9, Reply::Fine)?;
    say(out, 10, Reply::Opened(LAST))?;
    say(out, 11, Reply::Exists)?;
    say(out, 12, Reply::NoSuch)
}

// The lines of the others.
fn say_others(out: &mut Vec<u8>) -> Result<(), NoMemory> {
    say(out, 13, Reply::NotFile)?;
    say(out, 14, Reply::NotDir)?;
    say(out, 15, Reply::NotEmpty)?;
    say(out, 16, Reply::TooDeep)?;
    say(out, 17, Reply::IntoItself)?;
    say(out, u64::MAX, Reply::TooMany)
}

#[test]
fn replies_have_their_words(rt: HostRuntime) -> Result<(), Fail> {
    let mut out = Vec::new(rt.alloc());
    say_first(&mut out)?;
    say_others(&mut out)?;
    let wanted =
        b"0 0 made 17\n9 0 ok\n10 0 open 4294967295.255\n11 0 exists\n12 0 nosuch\n13 0 notfile\n14 0 notdir\n15 0 notempty\n16 0 toodeep\n17 0 intoitself\n18446744073709551615 0 toomany\n";
    assert_eq!(rt; out.as_slice(), wanted.as_slice());
    Ok(())
}

// An entry of this name.
fn entry(alloc: Global, name: &[u8], dir: bool) -> Result<Entry, Fail> {
    let name = Items::from_vec(name.to_vec(alloc)?);
    Ok(Entry { name, dir })
}

// A file and a directory.
fn listing(alloc: Global) -> Result<Vec<Entry>, Fail> {
    let mut entries = Vec::new(alloc);
    entries.push(entry(alloc, b"a.b", false)?)?;
    entries.push(entry(alloc, b"d", true)?)?;
    Ok(entries)
}

// The lines of two lists.
fn say_lists(alloc: Global, out: &mut Vec<u8>) -> Result<(), Fail> {
    say(out, 1, Reply::Listed(Items::from_vec(Vec::new(alloc))))?;
    let entries = listing(alloc)?;
    say(out, 2, Reply::Listed(Items::from_vec(entries)))?;
    Ok(())
}

// The line of a file's status.
fn say_file(out: &mut Vec<u8>, pinned: bool) -> Result<(), NoMemory> {
    let file = FIRST;
    say(out, 3, Reply::Stated(Status::File { file, pinned }))
}

#[test]
fn names_have_their_words(rt: HostRuntime) -> Result<(), Fail> {
    let mut out = Vec::new(rt.alloc());
    say_lists(rt.alloc(), &mut out)?;
    say_file(&mut out, true)?;
    say_file(&mut out, false)?;
    say(&mut out, 4, Reply::Stated(Status::Dir { children: 30 }))?;
    let wanted =
        b"1 0 list 0\n2 0 list 2 a.b d/\n3 0 stat file 0.0 pinned\n3 0 stat file 0.0 loose\n4 0 stat dir 30\n";
    assert_eq!(rt; out.as_slice(), wanted.as_slice());
    Ok(())
}

// The line of a read of three bytes that was asked for so.
fn read_value(alloc: Global, out: &mut Vec<u8>, form: Form) -> Result<(), Fail> {
    let bytes = Bytes::new(b"abc".to_vec(alloc)?).ok_or("three bytes are few")?;
    read(alloc, out, form, Outcome::Value(bytes))
}

#[test]
fn reads_have_their_words(rt: HostRuntime) -> Result<(), Fail> {
    let alloc = rt.alloc();
    let mut out = Vec::new(alloc);
    for form in [Form::Cat, Form::Sum, Form::Try] {
        read_value(alloc, &mut out, form)?;
    }
    read(alloc, &mut out, Form::Sum, Outcome::Fault(8))?;
    let wanted =
        b"12 3 file 4294967295.255 3 \"abc\"\n12 3 file 4294967295.255 3 ba7816bf8f01cfea414140de5dae2223b00361a396177a9cb410ff61f20015ad\n12 3 file 4294967295.255 3 \"abc\"\n12 3 failed 4294967295.255 8\n";
    assert_eq!(rt; out.as_slice(), wanted.as_slice());
    Ok(())
}

// The lines of counts.
fn count(out: &mut Vec<u8>) -> Result<(), NoMemory> {
    answered(out, Answer::Count(Counted::Work, 0))?;
    answered(out, Answer::Count(Counted::Save, 1))?;
    answered(out, Answer::Count(Counted::Collect, u32::MAX))
}

// The line of a glance.
fn peek(out: &mut Vec<u8>) -> Result<(), NoMemory> {
    let glance = Answer::Peeked {
        publishes: 40,
        reply: Reply::Made(RecordId(1)),
    };
    answered(out, glance)
}

#[test]
fn lines_without_a_reply_have_their_words(rt: HostRuntime) -> Result<(), Fail> {
    let mut out = Vec::new(rt.alloc());
    answered(&mut out, Answer::NotYet { at: 5, file: FIRST })?;
    count(&mut out)?;
    answered(&mut out, Answer::Lost(WorkerId(2)))?;
    peek(&mut out)?;
    let wanted =
        b"5 7 notyet 0.0\n- 7 work 0\n- 7 save 1\n- 7 collect 4294967295\n- 7 lose 2\n- 7 peek 40 made 1\n";
    assert_eq!(rt; out.as_slice(), wanted.as_slice());
    Ok(())
}

const DAMAGE: Damage = Damage {
    kept_len: 2,
    kept: Digest([0xa7; 32]),
    got_len: 0,
    got: Digest([0x0b; 32]),
};

// The line of a fault of the store.
fn fault(out: &mut Vec<u8>, at: Option<u64>) -> Result<(), NoMemory> {
    let said = Err(ClientError::StoreFault { at });
    transcript_line(out, 15, &said, Form::Cat)
}

// The line of a load that gave something else.
fn damaged(out: &mut Vec<u8>, at: Option<u64>) -> Result<(), NoMemory> {
    let damage = DAMAGE;
    let said = Err(ClientError::Damaged { at, damage });
    transcript_line(out, 8, &said, Form::Cat)
}

#[test]
fn faults_have_their_words(rt: HostRuntime) -> Result<(), Fail> {
    let mut out = Vec::new(rt.alloc());
    for at in [None, Some(6)] {
        fault(&mut out, at)?;
        damaged(&mut out, at)?;
    }
    let wanted =
        b"- 15 fault store\n- 8 fault damage 2 a7a7a7a7a7a7a7a7a7a7a7a7a7a7a7a7a7a7a7a7a7a7a7a7a7a7a7a7a7a7a7a7 0 0b0b0b0b0b0b0b0b0b0b0b0b0b0b0b0b0b0b0b0b0b0b0b0b0b0b0b0b0b0b0b0b\n6 15 fault store\n6 8 fault damage 2 a7a7a7a7a7a7a7a7a7a7a7a7a7a7a7a7a7a7a7a7a7a7a7a7a7a7a7a7a7a7a7a7 0 0b0b0b0b0b0b0b0b0b0b0b0b0b0b0b0b0b0b0b0b0b0b0b0b0b0b0b0b0b0b0b0b\n";
    assert_eq!(rt; out.as_slice(), wanted.as_slice());
    Ok(())
}
