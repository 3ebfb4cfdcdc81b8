//! A script of puts and reads, done on one thread.

use crate::alone::{HEADER, run_alone};
use crate::pace::Pace;
use std::alloc::{AllocError, Global};
use std::io;
use std::rt::Clock;
use std::time::Instant;
use tl_io::SureSink;

/// Runs a script of so many lines after its header, and prints its status; on standard error how long the run took, and
/// a plain copy of the same bytes.
pub(crate) fn measure(
    rt: &(impl Clock + Print + Eprint),
    alloc: Global,
    lines: u32,
) -> io::Result<()> {
    let script = script_of(alloc, lines)?;
    let bytes = script.as_bytes();
    let start = Instant::now(rt)?;
    let copy = bytes.to_vec(alloc)?;
    let copying = Pace {
        count: copy.len() as u64,
        time: start.elapsed(rt)?,
    };
    let mut output = SureSink::new();
    let (status, time) = run_alone(rt, alloc, copy, &mut output)?;
    let running = Pace {
        count: u64::from(lines),
        time,
    };
    println!(rt; "script {lines} status {status}")?;
    eprintln!(rt; "  run, in lines: {running}")?;
    eprintln!(rt; "  plain copy, in bytes: {copying}")
}

// A script of so many lines after its header: the first half puts texts, the other reads them.
fn script_of(alloc: Global, lines: u32) -> Result<String, AllocError> {
    let reads = lines / 2;
    let puts = lines - reads;
    let mut script = String::from_str(alloc, HEADER)?;
    for k in 0..puts {
        writeln!(script, "0 put /f{k} \"text {k}\"")?;
    }
    for k in 0..reads {
        writeln!(script, "0 cat 0 /f{k}")?;
    }
    Ok(script)
}
