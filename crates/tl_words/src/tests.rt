//! That requests are read where memory suffices, which no clause says.
use crate::{Request, words};
use std::alloc::Global;
use std::test::Fail;
use tl_types::NoMemory;

// What the words of a line ask for, which stand apart by spaces.
fn asked(alloc: Global, line: &str) -> Result<Option<Request>, NoMemory> {
    let mut args = Vec::new(alloc);
    for word in line.split(' ') {
        args.push(String::from_str(alloc, word)?)?;
    }
    words(alloc, &args)
}

#[test]
fn reads_requests(rt: HostRuntime) -> Result<(), Fail> {
    let alloc = rt.alloc();
    let run = |crew, journal| Some(Request::Run { crew, journal });
    assert!(rt; asked(alloc, "alone")? == Some(Request::Alone { journal: false }));
    assert!(rt; asked(alloc, "alone --journal")? == Some(Request::Alone { journal: true }));
    assert!(rt; asked(alloc, "run")? == run(2, false));
    assert!(rt; asked(alloc, "run --journal --crew 3")? == run(3, true));
    assert!(rt; asked(alloc, "run --crew=3 --journal")? == run(3, true));
    assert!(rt; asked(alloc, "check")? == Some(Request::Check));
    assert!(rt; asked(alloc, "upgrade")? == Some(Request::Upgrade));
    Ok(())
}

#[test]
fn reads_numbers(rt: HostRuntime) -> Result<(), Fail> {
    let alloc = rt.alloc();
    let wanted = Some(Request::Generate {
        count: 5,
        seed: 7,
        run: true,
    });
    assert!(rt; asked(alloc, "gen 5 7 --run")? == wanted);
    assert!(rt; asked(alloc, "gen 5 --run 7")? == wanted);
    assert!(rt; asked(alloc, "gen --run 5 7")? == wanted);
    Ok(())
}

#[test]
fn refuses_others(rt: HostRuntime) -> Result<(), Fail> {
    let alloc = rt.alloc();
    let lines = [
        "--journal alone",
        "alone --journal --journal",
        "alone x",
        "run --crew",
        "run --crew 03",
        "gen 5",
        "gen -1 2",
        "help",
        "--help",
        "run --",
    ];
    for line in lines {
        assert!(rt; asked(alloc, line)?.is_none(), "{line}");
    }
    Ok(())
}
