ghost use Rattle.std.specs.Prelude.{◌≡◌, IfOk, vec_len};

use std::alloc::Global;
use std::test::Fail;
use tl_io::{MemSink, MemSource, SureDepot};
use tl_report::summary;
use tl_run::{INPUT_LIMIT, alone_call, tachyon};

// Cases, an empty line between two. A script's lines have the mark `<`, and `.` where its last line has no line end;
// the lines that are to be written have `>`, and the status has `=`.
const CASES: &str = r#"# a put and a read
<tachyon 1 workers 1 capacity 100 hot 3
<0 put /a "hi"
.0 cat 0 /a
>0 0 made 0
>1 0 file 0.0 2 "hi"
=0

# the first put stays
<tachyon 1 workers 1 capacity 100 hot 3
<0 put /a "one"
<0 put /a "two"
<0 cat 0 /a
<0 cat 7 /b
<0 put /b ""
<0 cat 0 /b
>0 0 made 0
>1 0 exists
>2 0 file 0.0 3 "one"
>3 0 nosuch
>4 0 made 1
>5 0 file 1.0 0 ""
=0

# a header alone
.tachyon 1 workers 1 capacity 268435456 hot 4294967295
=0

# nothing
>script line 1 kind 1
=3

# lines that are skipped
<tachyon 1 workers 1 capacity 100 hot 3
<
<# 9 words
<0 stat /
>0 0 stat dir 0
=0

# an unknown command
<tachyon 1 workers 1 capacity 100 hot 3
<0 put /a "hi"
<0 mkdir /d
<0 nor this
>script line 4 kind 3
=3

# no workers
<tachyon 1 workers 0 capacity 100 hot 3
>script line 1 kind 1
=3

# a capacity over its limit
<tachyon 1 workers 1 capacity 268435457 hot 3
>script line 1 kind 1
=3

# a number with a zero before it
<tachyon 1 workers 1 capacity 100 hot 03
>script line 1 kind 1
=3

# a priority over its limit
<tachyon 1 workers 1 capacity 100 hot 3
<0 cat 8 /a
>script line 2 kind 4
=3

# a client over the limit
<tachyon 1 workers 1 capacity 100 hot 3
<8 cat 0 /a
>script line 2 kind 2
=3

# two clients
<tachyon 1 workers 1 capacity 100 hot 3
<1 put /a "x"
<7 cat 0 /a
<1 cat 0 /a/b
>0 1 made 0
>2 1 notdir
>1 7 file 0.0 1 "x"
=0

# a component that is a dot
<tachyon 1 workers 1 capacity 100 hot 3
<0 put /. ""
>script line 2 kind 5
=3

# a text with an escape
<tachyon 1 workers 1 capacity 100 hot 3
<0 put /a "\n"
<0 cat 0 /a
>0 0 made 0
>1 0 file 0.0 1 "\n"
=0

# a text that doesn't end
<tachyon 1 workers 1 capacity 100 hot 3
<0 put /a "
>script line 2 kind 4
=3

# a space too many
<tachyon 1 workers 1 capacity 100 hot 3
<0 put /a "hi" 
>script line 2 kind 4
=3

# a file is lost and made again
<tachyon 1 workers 1 capacity 100 hot 3
<0 put /a "hi"
<0 job 3 10 in /a out /b run (job (cat (in 0) "!"))
<0 cat 0 /b
<0 lose 0
<0 cat 0 /b
>0 0 made 0
>1 0 made 1
>2 0 file 1.0 3 "hi!"
>- 0 lose 0
>3 0 file 1.0 3 "hi!"
=0

# a refused job uses up no number
<tachyon 1 workers 1 capacity 100 hot 3
<0 put /a "x"
<0 job 3 10 in /no out /b run (job (in 0))
<0 put /c "y"
>0 0 made 0
>1 0 nosuch
>2 0 made 1
=0

# fuel that is just not enough, and just enough
<tachyon 1 workers 1 capacity 100 hot 9
<0 put /a "hi"
<0 job 3 2 in /a out /b run (job (cat (in 0) "!"))
<0 job 3 3 in /a out /c run (job (cat (in 0) "!"))
<0 cat 0 /b
<0 cat 0 /c
>0 0 made 0
>1 0 made 1
>2 0 made 2
>3 0 failed 1.0 1
>4 0 file 2.0 3 "hi!"
=0

# jobs of jobs, lost and made again in order
<tachyon 1 workers 1 capacity 100 hot 9
<0 put /a "x"
<0 job 3 10 in /a out /b run (job (cat (in 0) "1"))
<0 job 3 10 in /b out /c run (job (cat (in 0) "2"))
<0 job 7 10 in /c out /d run (job (cat (in 0) "\n"))
<0 cat 0 /d
<0 lose 0
<0 cat 0 /d
>0 0 made 0
>1 0 made 1
>2 0 made 2
>3 0 made 3
>4 0 file 3.0 4 "x12\n"
>- 0 lose 0
>5 0 file 3.0 4 "x12\n"
=0

# a digest
<tachyon 1 workers 1 capacity 100 hot 3
<0 put /e ""
<0 sum 0 /e
>0 0 made 0
>1 0 file 0.0 0 e3b0c44298fc1c149afbf4c8996fb92427ae41e4649b934ca495991b7852b855
=0

# faults are read as faults
<tachyon 1 workers 1 capacity 100 hot 9
<0 put /a "hi"
<0 job 3 10 in /a out /b run (job (str (num (in 0))))
<0 job 3 10 in /b out /c run (job (in 0))
<0 cat 0 /b
<0 cat 0 /c
<0 lose 0
<0 cat 0 /c
>0 0 made 0
>1 0 made 1
>2 0 made 2
>3 0 failed 1.0 5
>4 0 failed 2.0 8
>- 0 lose 0
>5 0 failed 2.0 8
=0

# a read that does not wait
<tachyon 1 workers 1 capacity 100 hot 9
<0 put /a "x"
<0 job 3 10 in /a out /b run (job (in 0))
<0 try 0 /b
<0 work 0 1
<0 try 0 /b
<0 work 0 1
>0 0 made 0
>1 0 made 1
>2 0 notyet 1.0
>- 0 work 1
>3 0 file 1.0 1 "x"
>- 0 work 0
=0

# names
<tachyon 1 workers 1 capacity 100 hot 9
<0 mkdir /d
<0 put /d/a "x"
<0 mkdir /d/a/b
<0 rename /d /d/e
<0 delete /d
<0 rename /d/a /b
<0 list /
<0 stat /b
<0 stat /d
<0 cat 0 /d
<0 cat 0 /d/a
<0 pin /b
<0 stat /b
<0 unpin /b
>0 0 ok
>1 0 made 0
>2 0 notdir
>3 0 intoitself
>4 0 notempty
>5 0 ok
>6 0 list 2 b d/
>7 0 stat file 0.0 loose
>8 0 stat dir 0
>9 0 notfile
>10 0 nosuch
>11 0 ok
>12 0 stat file 0.0 pinned
>13 0 ok
=0

# several inputs and outputs
<tachyon 1 workers 1 capacity 100 hot 9
<0 job 3 9 conf "k" "v" in out /x /y run (job (conf "k") "yy")
<0 job 3 9 in /y /x out /z run (job (cat (in 0) (in 1)))
<0 cat 0 /z
>0 0 made 0
>1 0 made 1
>2 0 file 1.0 3 "yyv"
=0

# kinds that do not fit
<tachyon 1 workers 1 capacity 100 hot 3
<0 job 3 10 in out /x run (job (str (add 1 "x")))
>script line 2 kind 7
=3

# a chain on two workers, which both are lost
<tachyon 1 workers 2 capacity 100 hot 9
<0 put /a "x"
<0 job 3 10 in /a out /b run (job (cat (in 0) "1"))
<0 job 3 10 in /b out /c run (job (cat (in 0) "2"))
<0 job 3 10 in /c out /d run (job (cat (in 0) "3"))
<0 work 0 9
<0 lose 0
<0 lose 1
<0 cat 0 /d
<0 cat 0 /d
>0 0 made 0
>1 0 made 1
>2 0 made 2
>3 0 made 3
>- 0 work 3
>- 0 lose 0
>- 0 lose 1
>4 0 file 3.0 4 "x123"
>5 0 file 3.0 4 "x123"
=0

# a file is freed, and one of two outputs is made again
<tachyon 1 workers 2 capacity 100 hot 9
<0 job 3 10 in out /x /y run (job "xx" "yy")
<0 work 0 1
<0 free /x
<1 cat 0 /x
<0 lose 0
<1 cat 0 /x
<1 cat 0 /y
>0 0 made 0
>- 0 work 1
>1 0 ok
>- 0 lose 0
>2 1 file 0.0 2 "xx"
>3 1 file 0.0 2 "xx"
>4 1 file 0.1 2 "yy"
=0

# frees of a directory, of no file, and of a file in no memory
<tachyon 1 workers 1 capacity 100 hot 9
<0 mkdir /d
<0 free /d
<0 free /no
<0 put /a "x"
<0 free /a
<0 cat 0 /a
<0 free /a
<0 cat 0 /a
>0 0 ok
>1 0 notfile
>2 0 nosuch
>3 0 made 0
>4 0 ok
>5 0 file 0.0 1 "x"
>6 0 ok
>7 0 file 0.0 1 "x"
=0

# a worker that the header doesn't have
<tachyon 1 workers 8 capacity 100 hot 9
<0 lose 7
<0 lose 8
>script line 3 kind 4
=3

# more workers than there may be
<tachyon 1 workers 9 capacity 100 hot 9
>script line 1 kind 1
=3

# no program
<tachyon 1 workers 1 capacity 100 hot 3
<0 job 3 10 in out /x run (job "x"
>script line 2 kind 6
=3"#;

// Scripts, and how many events of each kind their journals have.
const COUNTED: &str = r#"<tachyon 1 workers 1 capacity 100 hot 3
>{"calls":0,"claims":0,"collected":0,"done":0,"drops":0,"loads":0,"losses":0,"records":0,"saved":0,"served":0}

<tachyon 1 workers 1 capacity 100 hot 3
<0 put /a "hi"
<0 job 3 10 in /a out /b run (job (cat (in 0) "!"))
<0 cat 0 /b
<0 lose 0
<0 cat 0 /b
>{"calls":4,"claims":2,"collected":0,"done":2,"drops":0,"loads":0,"losses":1,"records":2,"saved":1,"served":2}

<tachyon 1 workers 1 capacity 100 hot 3
<0 put /a "one"
<0 put /a "two"
<0 cat 0 /a
>{"calls":3,"claims":0,"collected":0,"done":0,"drops":0,"loads":1,"losses":0,"records":1,"saved":1,"served":1}

<tachyon 1 workers 1 capacity 100 hot 3
<0 put /a "x"
<0 job 3 10 in /no out /b run (job (in 0))
<0 put /c "y"
>{"calls":3,"claims":0,"collected":0,"done":0,"drops":0,"loads":0,"losses":0,"records":2,"saved":2,"served":0}

<tachyon 1 workers 1 capacity 100 hot 9
<0 put /a "hi"
<0 job 3 2 in /a out /b run (job (cat (in 0) "!"))
<0 job 3 3 in /a out /c run (job (cat (in 0) "!"))
<0 cat 0 /b
<0 cat 0 /c
>{"calls":5,"claims":2,"collected":0,"done":2,"drops":0,"loads":0,"losses":0,"records":3,"saved":1,"served":2}

<tachyon 1 workers 2 capacity 100 hot 9
<0 job 3 10 in out /x /y run (job "xx" "yy")
<0 work 0 1
<0 free /x
<1 cat 0 /x
<0 lose 0
<1 cat 0 /x
<1 cat 0 /y
>{"calls":5,"claims":3,"collected":0,"done":3,"drops":0,"loads":0,"losses":1,"records":1,"saved":0,"served":3}

<tachyon 1 workers 1 capacity 100 hot 9
<0 put /a "x"
<0 cat 0 /a
<0 free /a
<0 cat 0 /a
>{"calls":4,"claims":0,"collected":0,"done":0,"drops":0,"loads":2,"losses":0,"records":1,"saved":1,"served":2}"#;

const SCRIPT: &[u8] = b"tachyon 1 workers 1 capacity 100 hot 3\n0 put /a \"hi\"\n0 cat 0 /a";

// The lines with this mark, each with its line end.
fn marked(alloc: Global, case: &str, mark: u8) -> Result<Vec<u8>, Fail> {
    let mut text = Vec::new(alloc);
    for line in case.as_bytes().split(|byte| *byte == b'\n') {
        match line.split_first() {
            Some((first, rest)) if *first == mark => {
                text.extend_from_slice(rest)?;
                text.push(b'\n')?;
            }
            _ => {}
        }
    }
    Ok(text)
}

// The script of a case.
fn script_of(alloc: Global, case: &str) -> Result<Vec<u8>, Fail> {
    let mut script = marked(alloc, case, b'<')?;
    let mut last = marked(alloc, case, b'.')?;
    last.pop();
    script.extend_from_slice(last.as_slice())?;
    Ok(script)
}

// The status that a case ends with.
fn status_of(alloc: Global, case: &str) -> Result<u8, Fail> {
    match marked(alloc, case, b'=')?.as_slice() {
        [digit, b'\n'] => Ok(digit.saturating_sub(b'0')),
        _ => Err(Fail::from("no status")),
    }
}

// The one word of a run.
fn word_of(alloc: Global, word: &str) -> Result<Vec<String>, Fail> {
    let word = String::from_str(alloc, word)?;
    Ok(vec![in alloc; word]?)
}

// The handles of a run.
fn handles(alloc: Global) -> Result<Vec<SureDepot>, Fail>
    ensures { IfOk result (λ depots. vec_len depots ≡ 16) }
{
    Ok(vec![in alloc; SureDepot::new(); 16]?)
}

// The status of a run of this word over the source, whose output goes to the sink.
fn run(alloc: Global, word: &str, source: &mut MemSource, sink: &mut MemSink) -> Result<u8, Fail> {
    let mut depots = handles(alloc)?;
    let words = word_of(alloc, word)?;
    Ok(tachyon(alloc, &words, source, sink, &mut depots))
}

// Whether a run of this word over the script has this status and writes just this.
fn ends(
    alloc: Global,
    word: &str,
    script: Vec<u8>,
    status: u8,
    output: &[u8],
) -> Result<bool, Fail> {
    let mut source = MemSource::new(script, Vec::new(alloc));
    let mut sink = MemSink::new(alloc, Vec::new(alloc));
    let found = run(alloc, word, &mut source, &mut sink)?;
    Ok(found == status && sink.bytes() == output)
}

// Whether a run over the script of a case has its status and writes its lines.
fn holds(alloc: Global, case: &str) -> Result<bool, Fail> {
    let status = status_of(alloc, case)?;
    let output = marked(alloc, case, b'>')?;
    ends(
        alloc,
        "alone",
        script_of(alloc, case)?,
        status,
        output.as_slice(),
    )
}

#[test]
fn scripts(rt: HostRuntime) -> Result<(), Fail> {
    for case in CASES.split("\n\n") {
        assert_eq!(rt; (case, holds(rt.alloc(), case)?), (case, true));
    }
    Ok(())
}

// The summary of the journal of a run over the script.
fn summary_of(alloc: Global, script: Vec<u8>) -> Result<Vec<u8>, Fail> {
    let mut text = Vec::new(alloc);
    let mut depots = handles(alloc)?;
    let mut source = MemSource::new(script, Vec::new(alloc));
    let mut sink = MemSink::new(alloc, Vec::new(alloc));
    let ended = alone_call(alloc, false, &mut source, &mut sink, &mut depots);
    let kept = ended.kept.ok_or("nothing is kept")?;
    summary(&mut text, kept.journal())?;
    Ok(text)
}

// Whether the journal of a run over the script of a case has its summary.
fn is_counted(alloc: Global, case: &str) -> Result<bool, Fail> {
    let found = summary_of(alloc, script_of(alloc, case)?)?;
    let summary = marked(alloc, case, b'>')?;
    Ok(found.as_slice() == summary.as_slice())
}

#[test]
fn journals(rt: HostRuntime) -> Result<(), Fail> {
    for case in COUNTED.split("\n\n") {
        assert_eq!(rt; (case, is_counted(rt.alloc(), case)?), (case, true));
    }
    Ok(())
}

// Whether a run whose second read fails ends with status 4.
fn tells_of_the_read(alloc: Global) -> Result<bool, Fail> {
    let mut source = MemSource::new(SCRIPT.to_vec(alloc)?, [2].to_vec(alloc)?);
    let mut sink = MemSink::new(alloc, Vec::new(alloc));
    let found = run(alloc, "alone", &mut source, &mut sink)?;
    Ok(found == 4 && sink.bytes() == b"read fault\n".as_slice())
}

// Whether a run whose second write fails ends with status 5. A sink takes 16 bytes at a time.
fn stops_at_the_write(alloc: Global) -> Result<bool, Fail> {
    let mut source = MemSource::new(SCRIPT.to_vec(alloc)?, Vec::new(alloc));
    let mut sink = MemSink::new(alloc, [2].to_vec(alloc)?);
    let found = run(alloc, "alone", &mut source, &mut sink)?;
    Ok(found == 5 && sink.bytes() == b"0 0 made 0\n1 0 f".as_slice())
}

#[test]
fn faults(rt: HostRuntime) -> Result<(), Fail> {
    let alloc = rt.alloc();
    assert!(rt; tells_of_the_read(alloc)?);
    assert!(rt; stops_at_the_write(alloc)?);
    assert!(rt; ends(alloc, "lone", SCRIPT.to_vec(alloc)?, 2, b"words\n")?);
    Ok(())
}

// A header and as many letters as make a script of this length.
fn script_of_length(alloc: Global, len: usize) -> Result<Vec<u8>, Fail> {
    let mut script = b"tachyon 1 workers 1 capacity 100 hot 3\n".to_vec(alloc)?;
    script.resize(len, b'x')?;
    Ok(script)
}

#[test]
fn input_limit(rt: HostRuntime) -> Result<(), Fail> {
    let alloc = rt.alloc();
    let longest = script_of_length(alloc, INPUT_LIMIT)?;
    assert!(rt; ends(alloc, "alone", longest, 3, b"script line 2 kind 8\n")?);
    let too_long = script_of_length(alloc, INPUT_LIMIT + 1)?;
    assert!(rt; ends(alloc, "alone", too_long, 9, b"input too long\n")?);
    Ok(())
}
