//! The program `tachyon`: its words are those of the command line, and it reads standard input and
//! writes standard output.
#![tactic(auto)]

ghost use Rattle.std.specs.Prelude.{◌≡◌, vec_len, IfOk};

use std::alloc::{AllocError, Global};
use std::env::{self, Env};
use std::io::ErrorKind;
use std::process::ExitCode;
use tl_io::{StdSink, StdSource, SureDepot};
use tl_run::{Status, tachyon};

/// How many handles of the checkpoint store a run is given.
const HANDLES: usize = 16;

fn main(rt: HostRuntime) -> ExitCode {
    let alloc = rt.alloc();
    let Ok(words) = words_of(&rt) else {
        return ExitCode::from(Status::NoMemory.code());
    };
    let Ok(mut depots) = handles(alloc) else {
        return ExitCode::from(Status::NoMemory.code());
    };
    let mut input = StdSource::new(rt.stdin());
    let mut output = StdSink::new(rt.stdout());
    ExitCode::from(tachyon(alloc, &words, &mut input, &mut output, &mut depots))
}

// The words after the program's name. None are known where one is no text.
fn words_of(rt: &(impl Env + AllocGlobal)) -> Result<Vec<String>, AllocError> {
    let words = match env::args(rt) {
        Ok(args) => args.skip(1).collect(rt.alloc())?,
        Err(error) if error.kind() == ErrorKind::OutOfMemory => return Err(AllocError),
        Err(_) => Vec::new(rt.alloc()),
    };
    Ok(words)
}

// The handles of the checkpoint store.
fn handles(alloc: Global) -> Result<Vec<SureDepot>, AllocError>
    ensures { IfOk result (λ depots. vec_len depots ≡ HANDLES) }
{
    let mut depots = Vec::new(alloc);
    for _ in 0..HANDLES {
        depots.push(SureDepot::new())?;
    }
    Ok(depots)
}
