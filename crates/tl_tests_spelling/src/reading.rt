use std::alloc::Global;
use std::test::Fail;
use tl_reading::{ReadError, read};
use tl_script::around_feed;
use tl_spelling::journal_text;
use tl_types::Bytes;

const ONE: &[u8] = b"journal 1 workers 1 capacity 100 hot 3\n";

const TWO: &[u8] = b"journal 2 workers 8 capacity 268435456 hot 4294967295 order shares\n";

// Lines that events have, of all acts, commands and replies.
const EVENTS: &[u8] = br#"0 call made 0 put /a "hi\n\x00"
0 saved 0.0
15 call exists put / ""
1 call made 4294967295 job 7 16777216 conf "k" "v" in /a /a out /b /c run (job (cat (in 0) "!") (conf "k"))
1 call list 2 a b/ list /
1 call list 0 list /d
2 call stat file 4294967295.255 pinned stat /a
2 call stat file 1.0 loose stat /a
2 call stat dir 18446744073709551615 stat /
3 call open 1.0 cat 7 /b
3 claim 255 0
3 done 0 1
3 served 1.0 c0ddd62c7717180e7ffb8a15bb9674d3ec92592e0b7ac7d1d5289836b4553be2
3 call ok mkdir /d
3 call nosuch delete /e
3 call notfile pin /d
3 call notdir unpin /b/c
3 call notempty delete /d
3 call toodeep rename /d /b
3 call intoitself rename /d /d/d
3 call toomany sum 0 /b
3 call open 0.0 try 3 /a
3 shut 0.0
3 back 1
3 lose 255
3 call ok free /b
3 free 1.0
3 drop 0 1.0
3 load 0 0.0
3 save 1.0
3 unsave 1.0
3 collect 1
"#;

// The header's line, the lines and the last one, behind each other.
fn joined(alloc: Global, first: &[u8], lines: &[u8], last: &[u8]) -> Result<Vec<u8>, Fail> {
    let mut text = first.to_vec(alloc)?;
    text.extend_from_slice(lines)?;
    text.extend_from_slice(last)?;
    Ok(text)
}

// The bytes of the two puts above.
fn sources(alloc: Global) -> Result<Vec<Bytes>, Fail> {
    let mut sources = Vec::new(alloc);
    let first = Bytes::new(b"hi\n\0".to_vec(alloc)?).ok_or("four bytes are few")?;
    let second = Bytes::new(Vec::new(alloc)).ok_or("no bytes are few")?;
    sources.push(first)?;
    sources.push(second)?;
    Ok(sources)
}

// Whether the text is read and then printed as it is.
fn is_read_back(alloc: Global, text: &[u8]) -> Result<bool, Fail> {
    let journal = read(alloc, text)?;
    let sources = sources(alloc)?;
    let mut printed = Vec::new(alloc);
    journal_text(&mut printed, &journal, sources.as_slice())?;
    Ok(printed.as_slice() == text)
}

#[test]
fn a_journal_of_each_version_is_read_back(rt: HostRuntime) -> Result<(), Fail> {
    let alloc = rt.alloc();
    let one = joined(alloc, ONE, EVENTS, b"")?;
    let two = joined(alloc, TWO, EVENTS, b"end 32\n")?;
    let is_one = is_read_back(alloc, one.as_slice())?;
    let is_two = is_read_back(alloc, two.as_slice())?;
    assert!(rt; is_one);
    assert!(rt; is_two);
    Ok(())
}

// The first unread line of the text; 0 where it is read.
fn unread(alloc: Global, text: &[u8]) -> Result<u64, Fail> {
    match read(alloc, text) {
        Ok(_) => Ok(0),
        Err(ReadError::Unread { line }) => Ok(line),
        Err(ReadError::NoMemory) => Err("memory ran out".into()),
    }
}

// Lines that no event has.
const OTHERS: &[u8] = br#"
 
0
0 
0 lose
0 lose 
0 lose 0 
0  lose 0
 0 lose 0
00 lose 0
16 lose 0
0 lose 256
0 lose 00
0 loses 0
0 Lose 0
0 claim 0
0 claim 0 4294967296
0 saved 0
0 saved 0.256
0 saved 0.0 1
0 served 1.0 C0DDD62C7717180E7FFB8A15BB9674D3EC92592E0B7AC7D1D5289836B4553BE2
0 served 1.0 c0
0 call ok
0 call ok 
0 call mkdir /d
0 call done mkdir /d
0 call made mkdir /d
0 call made 4294967296 mkdir /d
0 call ok mkdir d
0 call ok lose 0
0 call ok work 0 1
0 call list 1 list /
0 call list 1 a b list /
0 call list 1 a// list /
0 call list 1 .. list /
0 call list 1  list /
0 call list 18446744073709551616 list /
0 call stat dir 18446744073709551616 stat /
0 call stat file 1.0 stat /
0 call stat link 1.0 pinned stat /
0 call made 0 job 0 10 in out /a run (job "a" "b")
0 call made 0 job 0 10 in out /a run (job 1)
0 call made 0 job 0 10 in out /a /b /c /d /e /f /g /h /i run (job "" "" "" "" "" "" "" "" "")
0 call made 0 put /a "hi
end 0
"#;

// Whether each line makes a journal unread at the line where it stands.
fn are_unread(alloc: Global, lines: &[u8]) -> Result<bool, Fail> {
    let mut rest = lines;
    for _ in 0..lines.len() {
        let Some((line, later)) = around_feed(rest) else {
            break;
        };
        let front = joined(alloc, ONE, b"0 lose 0\n", line)?;
        let text = joined(alloc, front.as_slice(), b"\n", b"0 lose 0\n")?;
        if unread(alloc, text.as_slice())? != 3 {
            return Ok(false);
        }
        rest = later;
    }
    Ok(true)
}

#[test]
fn another_line_is_unread(rt: HostRuntime) -> Result<(), Fail> {
    let all = are_unread(rt.alloc(), OTHERS)?;
    assert!(rt; all);
    Ok(())
}

// Where a journal of version 2 and one event is unread with these lines behind the event.
fn unread_behind(alloc: Global, last: &[u8]) -> Result<u64, Fail> {
    let text = joined(alloc, TWO, b"0 lose 0\n", last)?;
    unread(alloc, text.as_slice())
}

#[test]
fn an_end_is_unread_where_it_is_wrong(rt: HostRuntime) -> Result<(), Fail> {
    let alloc = rt.alloc();
    let missing = unread_behind(alloc, b"")?;
    let cut = unread_behind(alloc, b"end 1")?;
    let other = unread_behind(alloc, b"end 2\n")?;
    let more = unread_behind(alloc, b"end 1\n\n")?;
    let right = unread_behind(alloc, b"end 1\n")?;
    assert_eq!(rt; [missing, cut, other, more, right], [3, 3, 3, 4, 0]);
    Ok(())
}

#[test]
fn a_front_is_unread_where_it_is_cut(rt: HostRuntime) -> Result<(), Fail> {
    let alloc = rt.alloc();
    let empty = unread(alloc, b"")?;
    let header = unread(alloc, b"journal 1 workers 1 capacity 100 hot 3")?;
    let script = unread(alloc, b"tachyon 1 workers 1 capacity 100 hot 3\n")?;
    let event = unread(alloc, b"journal 1 workers 1 capacity 100 hot 3\n0 lose 0")?;
    let none = unread(alloc, ONE)?;
    assert_eq!(rt; [empty, header, script, event, none], [1, 1, 1, 2, 0]);
    Ok(())
}
