//! A chain of jobs, whose last file is read, lost and read again.

use crate::alone::{HEADER, run_alone};
use crate::pace::Pace;
use std::alloc::{AllocError, Global};
use std::io;
use std::rt::Clock;
use std::time::Instant;
use tl_io::MemSink;

/// Runs two scripts of a chain of so many jobs: one reads the last file, the other reads it, loses every file and
/// reads it again. Prints the status of the second and the lines and bytes that it wrote; on standard error how long
/// each took, and the same appends to plain vectors.
pub(crate) fn measure(
    rt: &(impl Clock + Print + Eprint),
    alloc: Global,
    jobs: u32,
) -> io::Result<()> {
    let start = Instant::now(rt)?;
    let last = append_often(alloc, jobs)?;
    let appending = Pace {
        count: last.len() as u64,
        time: start.elapsed(rt)?,
    };
    let first = chain_of(alloc, jobs)?;
    let mut output = MemSink::new(alloc, Vec::new(alloc));
    let (_, time) = run_alone(rt, alloc, first.into_bytes(), &mut output)?;
    let reading = Pace {
        count: u64::from(jobs),
        time,
    };
    let mut whole = chain_of(alloc, jobs)?;
    writeln!(whole, "0 lose 0\n0 cat 0 /f{jobs}")?;
    let mut output = MemSink::new(alloc, Vec::new(alloc));
    let (status, time) = run_alone(rt, alloc, whole.into_bytes(), &mut output)?;
    let losing = Pace {
        count: u64::from(jobs),
        time,
    };
    let bytes = output.bytes().len();
    let lines = lines_in(output.bytes());
    println!(rt; "chain {jobs} status {status} lines {lines} bytes {bytes}")?;
    eprintln!(rt; "  up to the first read, in jobs: {reading}")?;
    eprintln!(rt; "  with the loss and its read, in jobs: {losing}")?;
    eprintln!(rt; "  plain appends, in files: {appending}")
}

// A put, so many jobs of which each appends a byte to the file before it, and a read of the last file.
fn chain_of(alloc: Global, jobs: u32) -> Result<String, AllocError> {
    let mut script = String::from_str(alloc, HEADER)?;
    writeln!(script, "0 put /f0 \"x\"")?;
    for k in 0..jobs {
        let next = k + 1;
        writeln!(
            script,
            "0 job 3 10 in /f{k} out /f{next} run (job (cat (in 0) \"x\"))"
        )?;
    }
    writeln!(script, "0 cat 0 /f{jobs}")?;
    Ok(script)
}

// The last of so many files after a first one of a byte, each a copy of the one before it and a byte.
fn append_often(alloc: Global, times: u32) -> Result<Vec<u8>, AllocError> {
    let mut last = b"x".to_vec(alloc)?;
    for _ in 0..times {
        let mut next = last.as_slice().to_vec(alloc)?;
        next.push(b'x')?;
        last = next;
    }
    Ok(last)
}

// How many lines end in a text.
fn lines_in(text: &[u8]) -> u64 {
    text.iter().filter(|byte| **byte == b'\n').count() as u64
}
