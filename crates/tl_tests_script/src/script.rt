use std::test::Fail;
use tl_model::{Header, OrderRule, Version};
use tl_script::{ScriptError, parse, parse_op};

const HEADER: Header = Header {
    workers: 1,
    capacity: 100,
    hot: 3,
    order: OrderRule::Strict,
    version: Version::One,
};

// The number of the refused line and of its kind; `None` where the text is read.
fn refused<T>(read: &Result<T, ScriptError>) -> Option<(u64, u8)> {
    match read {
        Ok(_) => None,
        Err(ScriptError::Bad { line, kind }) => Some((*line, kind.number())),
        Err(ScriptError::NoMemory) => Some((0, 0)),
    }
}

// The script of the header and this line.
fn with_line(rt: &HostRuntime, line: &[u8]) -> Result<Vec<u8>, Fail> {
    let mut text = b"tachyon 1 workers 1 capacity 100 hot 3\n".to_vec(rt.alloc())?;
    text.extend_from_slice(line)?;
    Ok(text)
}

// Each line that is read.
const READ: &[u8] = br#"0 put /a "hi"
7 put /e ""
0 put / "\x00\t\n\\\" b"
1 put /a/b/c/d/e/f/g/h/i/j/k/l/m/n/o/p "16 components"
2 cat 0 /a
3 sum 7 /a
4 try 3 /a
5 delete /d
6 mkdir /d
0 rename /d /d/e
0 pin /b
0 unpin /b
0 list /
0 stat /b
0 free /b
0 lose 0
0 work 0 1
0 work 0 1048576

# a comment
#
0 job 3 10 in /a out /b run (job (cat (in 0) "!"))
0 job 0 1 in out /x run (job "a")
0 job 7 16777216 conf "w" "ERROR" in out /x run (job (conf "w"))
0 job 3 10 conf "a" "" conf "" "a" in /a /a out /b /c run (job (in 0) (in 1))
0 job 3 10 in /in out /out run (job (cat (in 0) " run (job"))
0 job 3 10 in /0 /1 /2 /3 /4 /5 /6 /7 /8 /9 /a /b /c /d /e /f out /x run (job (in 15))
0 job 3 10 in out /0 /1 /2 /3 /4 /5 /6 /7 run (job "a" "a" "a" "a" "a" "a" "a" "a")
"#;

// The number of a kind and a line that is refused as that.
const REFUSED: &[u8] = br#"2 8 stat /
2 00 stat /
2  stat /
2 a
2 -1 stat /
3 0 
3 0 frees /a
3 0 save 1
3 0 collect 1
3 0 peek /a
3 0 conf
3 0 puts /a "x"
3 0  put /a "x"
4 0
4 0 put
5 0 put 
5 0 put a "x"
5 0 put /a/ "x"
5 0 put /a/../b "x"
5 0 put /a/b/c/d/e/f/g/h/i/j/k/l/m/n/o/p/q "x"
4 0 put /a
4 0 put /a 
4 0 put /a x
4 0 put /a "x
4 0 put /a "\x41"
4 0 put /a "x"y
4 0 put /a "x" 
4 0 put /a "x" "y"
4 0 cat 8 /a
4 0 cat 00 /a
4 0 cat  /a
4 0 cat 0
5 0 cat 0 
5 0 cat 0 x
4 0 cat 0 /a /b
4 0 stat / 
4 0 free
5 0 free b
4 0 free /a /b
4 0 rename /a
5 0 rename /a b
4 0 rename /a /b /c
4 0 lose 1
4 0 lose x
4 0 work 0
4 0 work 1 1
4 0 work 0 0
4 0 work 0 1048577
4 0 work 0 18446744073709551616
4 0 job 8 10 in out /x run (job "a")
4 0 job 3 0 in out /x run (job "a")
4 0 job 3 16777217 in out /x run (job "a")
4 0 job 3 10 out /x run (job "a")
4 0 job 3 10 conf "a" in out /x run (job "a")
4 0 job 3 10 conf a "b" in out /x run (job "a")
4 0 job 3 10 conf "a" "b" conf "a" "c" in out x run (job
4 0 job 3 10 in  out /x run (job "a")
5 0 job 3 10 in /a/ out /x run (job "a")
4 0 job 3 10 in a out /x run (job "a")
4 0 job 3 10 in out run (job "a")
4 0 job 3 10 in out
4 0 job 3 10 in out /x run
6 0 job 3 10 in out /x run 
6 0 job 3 10 in out /x run (job "x"
6 0 job 3 10 in out /x run (job "x") 
6 0 job 3 10 in out /x run  (job "x")
7 0 job 3 10 in out /x run (job (str (add 1 "x")))
7 0 job 3 10 in out /x run (job (in 0))
7 0 job 3 10 in out /x run (job "a" "b")
4 0 job 3 10 in /0 /1 /2 /3 /4 /5 /6 /7 /8 /9 /a /b /c /d /e /f /g out /x run (job "a")
5 0 job 3 10 in /0 /1 /2 /3 /4 /5 /6 /7 /8 /9 /a /b /c /d /e /f /g/ out /x run (job "a")
4 0 job 3 10 in out /o0 /o1 /o2 /o3 /o4 /o5 /o6 /o7 /o8 run (job "a" "a" "a" "a" "a" "a" "a" "a" "a")
"#;

#[test]
fn lines_are_read(rt: HostRuntime) -> Result<(), Fail> {
    let text = with_line(&rt, READ)?;
    let script = parse(rt.alloc(), text.as_slice());
    assert_eq!(rt; refused(&script), None);
    let script = script?;
    assert_eq!(rt; script.lines.len(), 25);
    assert_eq!(rt; script.lines.last().map(|line| line.number), Some(29));
    Ok(())
}

#[test]
fn lines_are_refused(rt: HostRuntime) -> Result<(), Fail> {
    for row in REFUSED.split(|byte| *byte == b'\n') {
        let [kind, b' ', line @ ..] = row else {
            continue;
        };
        let text = with_line(&rt, line)?;
        let script = parse(rt.alloc(), text.as_slice());
        assert_eq!(rt; refused(&script), Some((2, kind.saturating_sub(b'0'))));
    }
    Ok(())
}

// Without its client, a command of a line is read alone.
#[test]
fn commands_are_read_alone(rt: HostRuntime) -> Result<(), Fail> {
    for line in READ.split(|byte| *byte == b'\n') {
        let [b'0'..=b'7', b' ', command @ ..] = line else {
            continue;
        };
        assert!(rt; parse_op(rt.alloc(), command, &HEADER).is_ok());
    }
    Ok(())
}

#[test]
fn commands_are_refused_alone(rt: HostRuntime) -> Result<(), Fail> {
    for row in REFUSED.split(|byte| *byte == b'\n') {
        let [kind, b' ', b'0', b' ', command @ ..] = row else {
            continue;
        };
        let read = parse_op(rt.alloc(), command, &HEADER);
        assert_eq!(rt; refused(&read), Some((1, kind.saturating_sub(b'0'))));
    }
    Ok(())
}

// The kinds as which a line is refused in the two versions, 0 where it is read, and the line.
const BY_VERSION: &[u8] =
    br#"4 0 0 job 3 10 in out /o0 /o1 /o2 /o3 /o4 /o5 /o6 /o7 /o8 run (job "a" "a" "a" "a" "a" "a" "a" "a" "a")
6 7 0 job 3 10 in out /o0 /o1 /o2 /o3 /o4 /o5 /o6 /o7 run (job "a" "a" "a" "a" "a" "a" "a" "a" "a")
7 7 0 job 3 10 in out /o0 /o1 /o2 /o3 /o4 /o5 /o6 run (job "a" "a" "a" "a" "a" "a" "a" "a")
6 6 0 job 3 10 in out /x run (job
4 0 0 job 3 10 in /0 /1 /2 /3 /4 /5 /6 /7 /8 /9 /a /b /c /d /e /f /g out /x run (job (in 16))
0 0 0 job 3 10 in /0 /1 /2 /3 /4 /5 /6 /7 /8 /9 /a /b /c /d /e /f out /x run (job (in 15))"#;

// How a command alone is refused under the header's version; 0 where it is read.
fn kind_alone(rt: &HostRuntime, command: &[u8], version: Version) -> u8 {
    let header = Header { version, ..HEADER };
    match refused(&parse_op(rt.alloc(), command, &header)) {
        None => 0,
        Some((_, kind)) => kind,
    }
}

#[test]
fn limits_go_by_the_version(rt: HostRuntime) -> Result<(), Fail> {
    for row in BY_VERSION.split(|byte| *byte == b'\n') {
        let [one, b' ', two, b' ', b'0', b' ', command @ ..] = row else {
            continue;
        };
        assert_eq!(rt;
            kind_alone(&rt, command, Version::One),
            one.saturating_sub(b'0')
        );
        assert_eq!(rt;
            kind_alone(&rt, command, Version::Two),
            two.saturating_sub(b'0')
        );
    }
    Ok(())
}

// A job of so many inputs and outputs.
fn job_of(rt: &HostRuntime, inputs: usize, outputs: usize) -> Result<Vec<u8>, Fail> {
    let mut text = b"job 3 10 in".to_vec(rt.alloc())?;
    for _ in 0..inputs {
        text.extend_from_slice(b" /i")?;
    }
    text.extend_from_slice(b" out")?;
    for _ in 0..outputs {
        text.extend_from_slice(b" /o")?;
    }
    text.extend_from_slice(b" run (job")?;
    for _ in 0..outputs {
        text.extend_from_slice(b" \"a\"")?;
    }
    text.extend_from_slice(b")")?;
    Ok(text)
}

#[test]
fn as_many_files_as_version_two_allows(rt: HostRuntime) -> Result<(), Fail> {
    let most = job_of(&rt, 64, 64)?;
    assert_eq!(rt; kind_alone(&rt, most.as_slice(), Version::Two), 0);
    let inputs = job_of(&rt, 65, 1)?;
    assert_eq!(rt; kind_alone(&rt, inputs.as_slice(), Version::Two), 4);
    let outputs = job_of(&rt, 0, 65)?;
    assert_eq!(rt; kind_alone(&rt, outputs.as_slice(), Version::Two), 4);
    Ok(())
}

// A job of nine outputs, under a header of each version.
#[test]
fn nine_outputs_are_read_in_version_two(rt: HostRuntime) -> Result<(), Fail> {
    for (text, error) in [
        (
            br#"tachyon 1 workers 1 capacity 100 hot 9
0 job 3 10 in out /o0 /o1 /o2 /o3 /o4 /o5 /o6 /o7 /o8 run (job "a" "a" "a" "a" "a" "a" "a" "a" "a")
"#
                .as_slice(),
            Some((2, 4)),
        ),
        (
            br#"tachyon 2 workers 1 capacity 100 hot 9 order strict
0 job 3 10 in out /o0 /o1 /o2 /o3 /o4 /o5 /o6 /o7 /o8 run (job "a" "a" "a" "a" "a" "a" "a" "a" "a")
"#,
            None,
        ),
    ] {
        assert_eq!(rt; refused(&parse(rt.alloc(), text)), error);
    }
    Ok(())
}

#[test]
fn headers_are_read(rt: HostRuntime) -> Result<(), Fail> {
    for (text, order, version) in [
        (
            b"tachyon 1 workers 1 capacity 100 hot 3".as_slice(),
            OrderRule::Strict,
            Version::One,
        ),
        (
            b"tachyon 1 workers 1 capacity 100 hot 3 shares",
            OrderRule::Shares,
            Version::One,
        ),
        (
            b"tachyon 2 workers 1 capacity 100 hot 3 order strict",
            OrderRule::Strict,
            Version::Two,
        ),
        (
            b"tachyon 2 workers 1 capacity 100 hot 3 order shares\n",
            OrderRule::Shares,
            Version::Two,
        ),
    ] {
        let script = parse(rt.alloc(), text)?;
        assert!(rt;
            script.header
                == Header {
                    order,
                    version,
                    ..HEADER
                }
        );
    }
    Ok(())
}

#[test]
fn headers_are_refused(rt: HostRuntime) -> Result<(), Fail> {
    for text in [
        b"".as_slice(),
        b"\n",
        b"tachyon 1 workers 0 capacity 100 hot 3\n",
        b"tachyon 1 workers 9 capacity 100 hot 3\n",
        b"tachyon 1 workers 01 capacity 100 hot 3\n",
        b"tachyon 1 workers 1 capacity 0 hot 3\n",
        b"tachyon 1 workers 1 capacity 268435457 hot 3\n",
        b"tachyon 1 workers 1 capacity 100 hot 4294967296\n",
        b"tachyon 1 workers 1 capacity 100 hot 3 \n",
        b"tachyon 1 workers 1 capacity 100 hot 3 strict\n",
        b"tachyon 1 workers 1 capacity 100 hot 3 order strict\n",
        b"tachyon 1 workers 1 capacity 100 hot 3 order shares\n",
        b"tachyon 1 workers 1 capacity 100 hot 3 shares \n",
        b"tachyon 1 workers 1 capacity 100 hot 3  shares\n",
        b"tachyon 2 workers 1 capacity 100 hot 3\n",
        b"tachyon 2 workers 1 capacity 100 hot 3 shares\n",
        b"tachyon 2 workers 1 capacity 100 hot 3 order\n",
        b"tachyon 2 workers 1 capacity 100 hot 3 order strict \n",
        b"tachyon 2 workers 1 capacity 100 hot 3 order sharess\n",
        b"tachyon 2 workers 9 capacity 100 hot 3 order strict\n",
        b"tachyon 3 workers 1 capacity 100 hot 3 order strict\n",
    ] {
        assert_eq!(rt; refused(&parse(rt.alloc(), text)), Some((1, 1)));
    }
    Ok(())
}

// A worker that a line names is one of the header's.
#[test]
fn as_many_workers_as_the_header_says(rt: HostRuntime) -> Result<(), Fail> {
    for (text, error) in [
        (
            b"tachyon 1 workers 8 capacity 100 hot 3\n0 lose 7\n0 work 7 1\n".as_slice(),
            None,
        ),
        (
            b"tachyon 1 workers 8 capacity 100 hot 3\n0 lose 8\n",
            Some((2, 4)),
        ),
        (
            b"tachyon 1 workers 2 capacity 100 hot 3\n0 work 2 1\n",
            Some((2, 4)),
        ),
    ] {
        assert_eq!(rt; refused(&parse(rt.alloc(), text)), error);
    }
    Ok(())
}

#[test]
fn long_lines_are_refused(rt: HostRuntime) -> Result<(), Fail> {
    let mut line = b"#".to_vec(rt.alloc())?;
    for _ in 0..65_535 {
        line.push(b'#')?;
    }
    let text = with_line(&rt, line.as_slice())?;
    assert_eq!(rt; refused(&parse(rt.alloc(), text.as_slice())), None);
    line.push(b'#')?;
    let text = with_line(&rt, line.as_slice())?;
    assert_eq!(rt; refused(&parse(rt.alloc(), text.as_slice())), Some((2, 8)));
    assert_eq!(rt; refused(&parse(rt.alloc(), line.as_slice())), Some((1, 8)));
    Ok(())
}
