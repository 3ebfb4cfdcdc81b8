//! A run of a script on one thread, in memory.
ghost use Rattle.std.specs.Prelude.{◌≡◌, IfOk, vec_len};

use std::alloc::{AllocError, Global};
use std::io;
use std::rt::Clock;
use std::time::{Duration, Instant};
use tl_io::{Sink, SureDepot, SureSource};
use tl_run::tachyon;

/// The first line of a script.
pub(crate) const HEADER: &str = "tachyon 1 workers 1 capacity 100 hot 3\n";

/// How many handles of the checkpoint store a run is given.
const HANDLES: usize = 16;

/// Runs a script and answers its status, and how long the run took.
pub(crate) fn run_alone<O: Sink>(
    rt: &impl Clock,
    alloc: Global,
    script: Vec<u8>,
    output: &mut O,
) -> io::Result<(u8, Duration)> {
    let words = words_of(alloc)?;
    let mut depots = handles(alloc)?;
    let mut input = SureSource::new(script);
    let start = Instant::now(rt)?;
    let status = tachyon(alloc, &words, &mut input, output, &mut depots);
    Ok((status, start.elapsed(rt)?))
}

// The words of a run on one thread.
fn words_of(alloc: Global) -> Result<Vec<String>, AllocError> {
    let word = String::from_str(alloc, "alone")?;
    let mut words = Vec::new(alloc);
    words.push(word)?;
    Ok(words)
}

// The handles of the checkpoint store.
fn handles(alloc: Global) -> Result<Vec<SureDepot>, AllocError>
    ensures { IfOk result (λ depots. vec_len depots ≡ HANDLES) }
{
    vec![in alloc; SureDepot::new(); HANDLES]
}
