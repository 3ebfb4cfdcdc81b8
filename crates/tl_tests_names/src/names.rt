ghost use Rattle.tl_names.specs.Answers.{HasFewOutputs};

use std::test::Fail;
use tl_io::MemTicket;
use tl_lang::{Checked, Conf, Expr, Items as Exprs, JobSpecCore, Program};
use tl_model::{Command, Entry, Form, Reply, Status};
use tl_names::{Found, Names};
use tl_types::{Bytes, Digest, FileId, Items, Path, Prio, RecordId, Shared};

const COMING_AND_GOING: &str = "\
mkdir /d = ok\n\
put /d/a = made 0\n\
mkdir /d/a/b = notdir\n\
rename /d > /d/e = intoitself\n\
delete /d = notempty\n\
rename /d/a > /b = ok\n\
list / = list b d/\n\
stat /b = file 0.0 false\n\
stat /d = dir 0\n\
read /d = notfile\n\
read /d/a = nosuch\n\
pin /b = ok\n\
stat /b = file 0.0 true\n\
unpin /b = ok\n\
stat /b = file 0.0 false\n\
free /b = ok\n\
read /b = open 0.0\n\
delete /b = ok\n\
delete /d = ok\n\
list / = list";

const REFUSED: &str = "\
mkdir /d = ok\n\
put /f = made 0\n\
put /d/a = made 1\n\
put /no/x = nosuch\n\
put /f/x = notdir\n\
put /f/x/y = notdir\n\
put /f = exists\n\
put / = exists\n\
mkdir /no/x = nosuch\n\
mkdir /f/x = notdir\n\
mkdir /d = exists\n\
mkdir / = exists\n\
job /no /d > /f = nosuch\n\
job /d > /no/x = notfile\n\
job /f/x > /f = notdir\n\
job /f > /x /f = exists\n\
job /f > /x /x = exists\n\
job /f > /x /x/y = notdir\n\
job /f > /x /no/y = nosuch\n\
stat /x = nosuch\n\
job /f /f /d/a > /x /d/y = made 2\n\
stat /x = file 2.0 false\n\
stat /d/y = file 2.1 false\n\
read /no = nosuch\n\
read /f/x = notdir\n\
read /d = notfile\n\
pin /f/x = notdir\n\
pin /d = notfile\n\
unpin /no = nosuch\n\
unpin / = notfile\n\
free /no = nosuch\n\
free /f/x = notdir\n\
free /d = notfile\n\
delete /no = nosuch\n\
delete /f/x = notdir\n\
delete / = notempty\n\
delete /d = notempty\n\
list /no = nosuch\n\
list /f/x = notdir\n\
list /f = notdir\n\
stat /no = nosuch\n\
stat /f/x = notdir\n\
rename /no > /no/x = nosuch\n\
rename /f/x > / = notdir\n\
rename / > /no/x = intoitself\n\
rename /d > /d = intoitself\n\
rename /f > /f/x = intoitself\n\
rename /d > /no/x = nosuch\n\
rename /d > /f/x = notdir\n\
rename /d > / = exists\n\
rename /d > /f = exists\n\
list / = list d/ f x\n\
list /d = list a y";

const DEEP: &str = "\
mkdir /1 = ok\n\
mkdir /1/2 = ok\n\
mkdir /1/2/3 = ok\n\
mkdir /1/2/3/4 = ok\n\
mkdir /1/2/3/4/5 = ok\n\
mkdir /1/2/3/4/5/6 = ok\n\
mkdir /1/2/3/4/5/6/7 = ok\n\
mkdir /1/2/3/4/5/6/7/8 = ok\n\
mkdir /1/2/3/4/5/6/7/8/9 = ok\n\
mkdir /1/2/3/4/5/6/7/8/9/10 = ok\n\
mkdir /1/2/3/4/5/6/7/8/9/10/11 = ok\n\
mkdir /1/2/3/4/5/6/7/8/9/10/11/12 = ok\n\
mkdir /1/2/3/4/5/6/7/8/9/10/11/12/13 = ok\n\
mkdir /1/2/3/4/5/6/7/8/9/10/11/12/13/14 = ok\n\
mkdir /1/2/3/4/5/6/7/8/9/10/11/12/13/14/15 = ok\n\
put /1/2/3/4/5/6/7/8/9/10/11/12/13/14/15/f = made 0\n\
pin /1/2/3/4/5/6/7/8/9/10/11/12/13/14/15/f = ok\n\
mkdir /x = ok\n\
rename /1 > /x/1 = toodeep\n\
rename /1/2 > /x/2 = ok\n\
stat /x/2/3/4/5/6/7/8/9/10/11/12/13/14/15/f = file 0.0 true\n\
stat /1 = dir 0\n\
list /x/2 = list 3/";

const RESOLVED: &str = "\
mkdir /d = ok\n\
job > /f /g = made 0";

// What each path names after that.
const FOUND: &str = "\
/ = dir\n\
/d = dir\n\
/g = file 0.1 false\n\
/no = nosuch\n\
/no/x = nosuch\n\
/g/x = notdir\n\
/g/x/y = notdir";

// As many records as there may be.
const FULL: &str = "\
put /f = exists\n\
put /new = toomany\n\
job /no > /new = nosuch\n\
job /f > /new /f = exists\n\
job /f > /new = toomany\n\
stat /new = nosuch";

fn path_of(rt: &HostRuntime, text: &str) -> Result<Path, Fail> {
    let mut parts = Vec::new(rt.alloc());
    add_parts(rt, &mut parts, text)?;
    Ok(Path::new(parts).ok_or("a path")?)
}

// Adds the components that stand in a text apart by `/`.
fn add_parts(rt: &HostRuntime, parts: &mut Vec<Vec<u8>>, text: &str) -> Result<(), Fail> {
    for part in text.split('/') {
        if !part.is_empty() {
            parts.push(part.as_bytes().to_vec(rt.alloc())?)?;
        }
    }
    Ok(())
}

fn paths_of(rt: &HostRuntime, texts: &str) -> Result<Vec<Path>, Fail> {
    let mut paths = Vec::new(rt.alloc());
    add_paths(rt, &mut paths, texts)?;
    Ok(paths)
}

// Adds the paths that stand in a text apart by spaces.
fn add_paths(rt: &HostRuntime, paths: &mut Vec<Path>, texts: &str) -> Result<(), Fail> {
    for text in texts.split(' ') {
        if !text.is_empty() {
            paths.push(path_of(rt, text)?)?;
        }
    }
    Ok(())
}

// A program of one output that is an empty text.
#[tactic(auto, unfolding(tl_lang::specs::Computing::computing))]
fn any_program(rt: &HostRuntime) -> Result<Checked, Fail> {
    let text = Bytes::new(Vec::new(rt.alloc())).ok_or("too long")?;
    let mut outputs = Vec::new(rt.alloc());
    outputs.push(Expr::Text(text))?;
    let program = Program {
        outputs: Exprs::from_vec(outputs),
    };
    Ok(Checked::new(program, 0, 1))
}

// A job of one output; what it does has no part in its names.
fn any_job(rt: &HostRuntime) -> Result<Shared<JobSpecCore>, Fail> {
    let conf = Conf::new(Vec::new(rt.alloc())).ok_or("refused")?;
    let job = JobSpecCore {
        program: any_program(rt)?,
        conf,
        fuel: 1,
    };
    Ok(Shared::new(rt.alloc(), job)?)
}

// The names of a listing, a directory's with `/` behind it.
fn listed(rt: &HostRuntime, entries: &[Entry]) -> Result<String, Fail> {
    let mut text = format!(in rt.alloc(); "list")?;
    add_entries(&mut text, entries)?;
    Ok(text)
}

// Adds the names of entries, each behind a space.
fn add_entries(text: &mut String, entries: &[Entry]) -> Result<(), Fail> {
    for entry in entries {
        text.push(' ')?;
        for byte in entry.name.as_slice() {
            text.push(*byte as char)?;
        }
        if entry.dir {
            text.push('/')?;
        }
    }
    Ok(())
}

// What a path names, in words.
fn status_words(rt: &HostRuntime, status: Status) -> Result<String, Fail> {
    let text = match status {
        Status::File { file, pinned } => {
            format!(in rt.alloc(); "file {}.{} {}", file.rec.0, file.out, pinned)
        }
        Status::Dir { children } => format!(in rt.alloc(); "dir {}", children),
    };
    Ok(text?)
}

// The word of a reply that has no parts.
fn word_of(reply: &Reply) -> &'static str {
    match reply {
        Reply::Fine => "ok",
        Reply::Exists => "exists",
        Reply::NoSuch => "nosuch",
        Reply::NotFile => "notfile",
        Reply::NotDir => "notdir",
        Reply::NotEmpty => "notempty",
        Reply::TooDeep => "toodeep",
        Reply::IntoItself => "intoitself",
        Reply::TooMany => "toomany",
        Reply::Made(_) | Reply::Opened(_) | Reply::Listed(_) | Reply::Stated(_) => "parts",
    }
}

// The reply in words.
fn words(rt: &HostRuntime, reply: &Reply) -> Result<String, Fail> {
    let alloc = rt.alloc();
    match reply {
        Reply::Made(made) => Ok(format!(in alloc; "made {}", made.0)?),
        Reply::Opened(file) => Ok(format!(in alloc; "open {}.{}", file.rec.0, file.out)?),
        Reply::Listed(entries) => listed(rt, entries.as_slice()),
        Reply::Stated(status) => status_words(rt, *status),
        _ => Ok(word_of(reply).to_string(alloc)?),
    }
}

// Asks this command.
fn apply(
    rt: &HostRuntime,
    names: &mut Names,
    command: Command<MemTicket>,
    next: RecordId,
) -> Result<Reply, Fail>
    requires { HasFewOutputs command }
{
    let reply = names.apply(rt.alloc(), &command, next);
    drop(command);
    Ok(reply?)
}

// Asks a put of no bytes.
fn ask_put(rt: &HostRuntime, names: &mut Names, path: Path, next: RecordId) -> Result<Reply, Fail> {
    let ticket = MemTicket::new(rt.alloc(), b"")?;
    let command = Command::Put {
        path,
        len: 0,
        digest: Digest([0; 32]),
        ticket,
    };
    apply(rt, names, command, next)
}

// Asks a read.
fn ask_read(
    rt: &HostRuntime,
    names: &mut Names,
    path: Path,
    next: RecordId,
) -> Result<Reply, Fail> {
    let prio = Prio::new(3).ok_or("a priority")?;
    let command = Command::Read {
        path,
        prio,
        form: Form::Cat,
    };
    apply(rt, names, command, next)
}

// Asks a command of one path, which stands behind its word.
fn ask_one(
    rt: &HostRuntime,
    names: &mut Names,
    word: &str,
    path: Path,
    next: RecordId,
) -> Result<Reply, Fail> {
    match word {
        "put" => ask_put(rt, names, path, next),
        "read" => ask_read(rt, names, path, next),
        "delete" => apply(rt, names, Command::Delete { path }, next),
        "mkdir" => apply(rt, names, Command::Mkdir { path }, next),
        "pin" => apply(rt, names, Command::Pin { path }, next),
        "unpin" => apply(rt, names, Command::Unpin { path }, next),
        "list" => apply(rt, names, Command::List { path }, next),
        "stat" => apply(rt, names, Command::Stat { path }, next),
        _ => apply(rt, names, Command::Free { path }, next),
    }
}

// Asks a job of these inputs and outputs.
fn ask_job(
    rt: &HostRuntime,
    names: &mut Names,
    inputs: &str,
    outputs: &str,
    next: RecordId,
) -> Result<Reply, Fail> {
    let prio = Prio::new(3).ok_or("a priority")?;
    let core = any_job(rt)?;
    let inputs = paths_of(rt, inputs)?;
    let outputs = paths_of(rt, outputs)?;
    if outputs.len() > 255 {
        return Err("too many outputs".into());
    }
    let command = Command::Job {
        core,
        prio,
        inputs: Items::from_vec(inputs),
        outputs: Items::from_vec(outputs),
    };
    apply(rt, names, command, next)
}

// Asks that a name gets another path.
fn ask_rename(
    rt: &HostRuntime,
    names: &mut Names,
    from: &str,
    to: &str,
    next: RecordId,
) -> Result<Reply, Fail> {
    let from = path_of(rt, from.trim())?;
    let to = path_of(rt, to.trim())?;
    apply(rt, names, Command::Rename { from, to }, next)
}

// Asks what a line says: a command's word, then its paths, the two of a rename and the inputs and the
// outputs of a job apart by `>`.
fn reply_to(
    rt: &HostRuntime,
    names: &mut Names,
    line: &str,
    next: RecordId,
) -> Result<Reply, Fail> {
    let (word, rest) = line.split_once(' ').ok_or("a word")?;
    match rest.split_once('>') {
        Some((from, to)) if word == "job" => ask_job(rt, names, from, to, next),
        Some((from, to)) => ask_rename(rt, names, from, to, next),
        None => ask_one(rt, names, word, path_of(rt, rest)?, next),
    }
}

// What is answered to a line, in words.
fn ask(rt: &HostRuntime, names: &mut Names, line: &str, next: RecordId) -> Result<String, Fail> {
    let reply = reply_to(rt, names, line, next)?;
    let text = words(rt, &reply);
    drop(reply);
    text
}

// Asks a line that has its answer behind `=`, and answers what is answered where that is another.
// Accepted puts and jobs are counted by `next`.
fn other(
    rt: &HostRuntime,
    names: &mut Names,
    asked: &str,
    next: &mut u32,
) -> Result<Option<String>, Fail> {
    let (line, answer) = asked.split_once('=').ok_or("an answer")?;
    let reply = ask(rt, names, line.trim(), RecordId(*next))?;
    if reply.as_str() != answer.trim() {
        return Ok(Some(format!(in rt.alloc(); "{}: {}", line, reply)?));
    }
    if reply.as_str().starts_with("made") {
        *next = next.saturating_add(1);
    }
    Ok(None)
}

// Asks the lines of a text in order, each of which has its answer behind `=`, and answers the first that
// is answered otherwise. Accepted puts and jobs are numbered from `next` on.
fn first_other(
    rt: &HostRuntime,
    names: &mut Names,
    text: &str,
    next: u32,
) -> Result<Option<String>, Fail> {
    let mut next = next;
    for asked in text.lines() {
        if let Some(other) = other(rt, names, asked, &mut next)? {
            return Ok(Some(other));
        }
    }
    Ok(None)
}

#[test]
fn names_come_and_go(rt: HostRuntime) -> Result<(), Fail> {
    let mut names = Names::new(rt.alloc())?;
    assert_eq!(&rt; first_other(&rt, &mut names, COMING_AND_GOING, 0)?, None);
    Ok(())
}

// Each refusal of each command, where the later ones would hold too.
#[test]
fn refusals_in_order(rt: HostRuntime) -> Result<(), Fail> {
    let mut names = Names::new(rt.alloc())?;
    assert_eq!(&rt; first_other(&rt, &mut names, REFUSED, 0)?, None);
    assert_eq!(&rt; first_other(&rt, &mut names, FULL, 1_048_576)?, None);
    Ok(())
}

// The output of record 0 with this number.
fn file(out: u8) -> FileId {
    FileId {
        rec: RecordId(0),
        out,
    }
}

// What the path in a text names.
fn resolved(rt: &HostRuntime, names: &Names, text: &str) -> Result<Found, Fail> {
    let path = path_of(rt, text)?;
    Ok(names.resolve(&path))
}

#[test]
fn deep_names_are_moved(rt: HostRuntime) -> Result<(), Fail> {
    let mut names = Names::new(rt.alloc())?;
    assert_eq!(&rt; first_other(&rt, &mut names, DEEP, 0)?, None);
    assert_eq!(&rt; names.pinned(file(0)), Some(true));
    let moved = resolved(&rt, &names, "/x/2/3/4/5/6/7/8/9/10/11/12/13/14/15/f")?;
    let found = Found::File {
        file: file(0),
        pinned: true,
    };
    assert_eq!(&rt; moved, found);
    Ok(())
}

// Whether this is made as a file of `/w`, as record `n`.
fn is_put(rt: &HostRuntime, names: &mut Names, name: u32, n: u32) -> Result<bool, Fail> {
    let line = format!(in rt.alloc(); "put /w/f{}", name)?;
    let reply = ask(rt, names, line.as_str(), RecordId(n))?;
    Ok(reply.as_str().starts_with("made"))
}

// Whether 1,000 files are made in a directory, the last name first. Then the directory is moved.
fn makes_many(rt: &HostRuntime, names: &mut Names) -> Result<bool, Fail> {
    ask(rt, names, "mkdir /w", RecordId(0))?;
    for n in 0..1_000u32 {
        if !is_put(rt, names, 1_999 - n, n)? {
            return Ok(false);
        }
    }
    ask(rt, names, "rename /w > /v", RecordId(1_000))?;
    Ok(true)
}

// Whether this word is the name of a file by its number.
fn is_name(rt: &HostRuntime, word: &str, number: u32) -> Result<bool, Fail> {
    let name = format!(in rt.alloc(); "f{}", number)?;
    Ok(word == name.as_str())
}

// Whether the names of 1,000 files are listed in order.
fn lists_in_order(rt: &HostRuntime, list: &str) -> Result<bool, Fail> {
    let mut next = 1_000u32;
    for word in list.split(' ').skip(1) {
        if !is_name(rt, word, next)? {
            return Ok(false);
        }
        next = next.wrapping_add(1);
    }
    Ok(next == 2_000)
}

// Whether the listing of the directory has the names of 1,000 files in order.
fn lists_many(rt: &HostRuntime, names: &mut Names) -> Result<bool, Fail> {
    let list = ask(rt, names, "list /v", RecordId(1_000))?;
    lists_in_order(rt, list.as_str())
}

#[test]
fn wide_names_are_listed(rt: HostRuntime) -> Result<(), Fail> {
    let mut names = Names::new(rt.alloc())?;
    assert!(&rt; makes_many(&rt, &mut names)?);
    assert!(&rt; lists_many(&rt, &mut names)?);
    assert_eq!(&rt;
        first_other(&rt, &mut names, "stat /v = dir 1000", 1_000)?,
        None
    );
    Ok(())
}

// What was found, in words.
fn found_words(rt: &HostRuntime, found: Found) -> Result<String, Fail> {
    let alloc = rt.alloc();
    match found {
        Found::Dir => Ok("dir".to_string(alloc)?),
        Found::NoSuch => Ok("nosuch".to_string(alloc)?),
        Found::NotDir => Ok("notdir".to_string(alloc)?),
        Found::File { file, pinned } => status_words(rt, Status::File { file, pinned }),
    }
}

// Whether a path names what stands behind its `=`.
fn is_found(rt: &HostRuntime, names: &Names, line: &str) -> Result<bool, Fail> {
    let (path, answer) = line.split_once('=').ok_or("an answer")?;
    let found = resolved(rt, names, path.trim())?;
    let text = found_words(rt, found)?;
    Ok(text.as_str() == answer.trim())
}

// The first line of a path that names something else.
fn first_unlike(rt: &HostRuntime, names: &Names) -> Result<Option<&'static str>, Fail> {
    for line in FOUND.lines() {
        if !is_found(rt, names, line)? {
            return Ok(Some(line));
        }
    }
    Ok(None)
}

// The pin of a file at first, after a pin, and when the file has no name.
fn pins(rt: &HostRuntime, names: &mut Names) -> Result<[Option<bool>; 3], Fail> {
    let first = names.pinned(file(1));
    ask(rt, names, "pin /g", RecordId(1))?;
    let then = names.pinned(file(1));
    ask(rt, names, "delete /g", RecordId(1))?;
    Ok([first, then, names.pinned(file(1))])
}

#[test]
fn paths_are_resolved(rt: HostRuntime) -> Result<(), Fail> {
    let mut names = Names::new(rt.alloc())?;
    assert_eq!(&rt; first_other(&rt, &mut names, RESOLVED, 0)?, None);
    assert_eq!(&rt; first_unlike(&rt, &names)?, None);
    assert_eq!(&rt; pins(&rt, &mut names)?, [Some(false), Some(true), None]);
    Ok(())
}
